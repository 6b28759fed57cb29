//! The rows by which the delays of a timetable settle: that they can be followed in the net, and that
//! the rows tell the form.
ghost use Rattle.std.specs.Prelude.{◌≡◌, ◌+◌, ◌*◌, ◌≤◌, IfOk, IfSome, IsTrue, length};
ghost use Rattle.settled_certificates.specs.SettledRows.{form_by_rows};
ghost use Rattle.delay_laws.specs.Delays.{IsFormOfDelays};
ghost use Rattle.delay_laws.specs.PlannedTimetables.{IsTableOf};
ghost use Rattle.release_nets.specs.PlannedNets.{greatest_period};

use crate::spread_text::Rows;
use crate::tables::is_table;
use delay_laws::Timetable;
use dioid::Date;
use release_nets::{Planned, release_net};
use settled_certificates::check_shortest;
use std::alloc::Global;
use teg_net::{Net, OutOfMemory};
use witness_check::is_seen_live;

// The greatest period of a timetable.
const GREATEST_PERIOD: u64 = 1_000_000;

// Whether the timetable is one of the net, and the period keeps its limits.
fn is_asked(alloc: Global, net: &Net, period: u64, table: &Timetable) -> Result<bool, OutOfMemory>
    ensures some { IfOk result (λ yes. IsTrue yes → 1 ≤ period) }
    ensures period { IfOk result (λ yes. IsTrue yes → period ≤ greatest_period) }
    ensures table { IfOk result (λ yes. IsTrue yes → IsTableOf net.now table.now) }
{
    if period < 1 || period > GREATEST_PERIOD {
        return Ok(false);
    }
    let is_table = is_table(alloc, net, table)?;
    Ok(is_table)
}

// The net with its timetable, where the net is seen to be live and the delays can be followed.
pub(crate) fn planned_net<'a>(
    alloc: Global,
    net: &'a Net,
    period: u64,
    table: &'a Timetable,
) -> Result<Option<Planned<'a>>, OutOfMemory>
    ensures { IfOk result (λ some. IfSome some (λ planned. (planned.net.now ≡ net.now)
        × (planned.period ≡ period) × (planned.table.now ≡ table.now))) }
{
    if !is_asked(alloc, net, period, table)? {
        return Ok(None);
    }
    if !is_seen_live(alloc, net)? {
        return Ok(None);
    }
    match Planned::checked(net, period, table) {
        Ok(planned) => Ok(Some(planned)),
        Err(_) => Ok(None),
    }
}

// Whether these are rows and steps by which the delays of the timetable settle.
pub(crate) fn are_form_rows(
    alloc: Global,
    planned: &Planned<'_>,
    rows: &Rows<'_>,
) -> Result<bool, OutOfMemory>
    requires { rows.now.width
        ≡ length planned.now.net.now.transitions + length planned.now.net.now.transitions }
    ensures { IfOk result (λ yes. IsTrue yes → IsFormOfDelays planned.now.net.now
        planned.now.period planned.now.table.now (form_by_rows rows.now.width rows.now.dates.now
        rows.now.after rows.now.turn rows.now.steps.now)) }
{
    let derived = release_net(alloc, planned)?;
    let (after, turn) = (rows.after, rows.turn);
    let is_form = check_shortest(alloc, &derived, after, turn, rows.dates, rows.steps)?;
    Ok(is_form)
}

// How many dates of each transition rows of this width tell, where they have them.
fn count_of(width: usize, after: u64, turn: u64, dates: &[Date]) -> Option<u64>
    ensures count { IfSome result (λ count. count ≡ after + turn) }
    ensures rows { IfSome result (λ count. count * width ≤ length dates.now) }
{
    let count = after.checked_add(turn)?;
    let cells = (count as usize).checked_mul(width)?;
    if cells <= dates.len() {
        Some(count)
    } else {
        None
    }
}

// Rows of this width with these dates and steps, where the dates are enough.
pub(crate) fn rows_of<'t>(
    width: usize,
    after: u64,
    turn: u64,
    dates: &'t [Date],
    steps: &'t [i128],
) -> Option<Rows<'t>>
    ensures { IfSome result (λ rows. rows.width ≡ width) }
{
    let count = count_of(width, after, turn, dates)?;
    Some(Rows {
        after,
        turn,
        width,
        count,
        dates,
        steps,
    })
}
