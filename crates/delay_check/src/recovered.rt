//! The witness of `teg timetable` where delays die out: the lines of delays themselves.
ghost use Rattle.std.specs.Prelude.{◌≡◌, IfOk, IfSome, IsTrue, string_bytes};
ghost use Rattle.teg_text.specs.Lines.{written};
ghost use Rattle.delay_check.specs.ShownDelays.{IsShownRecovered, recovered_lines};

use crate::form_rows::planned_net;
use crate::telling::tells_delays;
use crate::told_delays::{ToldRecovered, recovered_in};
use delay_laws::Timetable;
use release_nets::Planned;
use std::alloc::{AllocError, Global};
use teg_net::{Net, OutOfMemory};

// The line that no delay is left past this number.
fn recovered_text(alloc: Global, last: u64) -> Result<String, AllocError>
    ensures { IfOk result (λ text. string_bytes text ≡ written (recovered_lines last)) }
{
    format!(in alloc; "recovered after {last}\n")
}

// Whether the text shows that no delay is left after the number that it tells.
fn shows(
    alloc: Global,
    planned: &Planned<'_>,
    told: &ToldRecovered,
    text: &str,
) -> Result<bool, OutOfMemory>
    ensures { IfOk result (λ yes. IsTrue yes → IsShownRecovered planned.now.net.now
        planned.now.period planned.now.table.now text.now told.now.last) }
{
    let outcome = recovered_text(alloc, told.last)?;
    let last = Some(told.last);
    let tells = tells_delays(alloc, planned, &told.spread, last, outcome.as_str(), text)?;
    Ok(tells)
}

/// The number after which no delay is left by the text of `teg timetable`, where the whole text is
/// shown to be right for this timetable that departs again every `period`, in the user's unit
/// (chapters 2 and 3): the net is seen to be live, the timetable leaves time for each place, number
/// and period of the first line are those of the shortest settled form of delayed dates and releases
/// together, the delays of each line are those that are left, and the number of the second line is
/// the least after which there is none. It takes memory for the dates up to a period and the tokens
/// of a place past those that are told, for the text, and 10,001 bytes for each transition; and time
/// of the order of those dates with the places, for each number that divides the period once more,
/// and of the order transitions times delays. `OutOfMemory` comes only where no memory is found.
pub fn shown_recovered(
    alloc: Global,
    net: &Net,
    period: u64,
    table: &Timetable,
    text: &str,
) -> Result<Option<u64>, OutOfMemory>
    ensures { IfOk result (λ shown. IfSome shown (λ last.
        IsShownRecovered net.now period table.now text.now last)) }
{
    let Some(told) = recovered_in(alloc, net, text)? else {
        return Ok(None);
    };
    let Some(planned) = planned_net(alloc, net, period, table)? else {
        return Ok(None);
    };
    if !shows(alloc, &planned, &told, text)? {
        return Ok(None);
    }
    Ok(Some(told.last))
}
