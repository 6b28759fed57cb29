//! What texts of delays that are kept and of delays that are over tell alike: the delays that are left.
ghost use Rattle.std.specs.Prelude.{ℕ, ◌≡◌, ◌+◌, ◌≤◌, IfOk, IfSome, IsTrue, List, length};
ghost use Rattle.settled_certificates.specs.SettledRows.{form_by_rows};
ghost use Rattle.delay_laws.specs.Delays.{IsFormOfDelays};
ghost use Rattle.teg_text.specs.Lines.{written};
ghost use Rattle.delay_check.specs.ShownDelays.{EndsWhatIsLeft, TellsDelays};

use crate::form_rows::{are_form_rows, rows_of};
use crate::over::is_recovered;
use crate::spread_text::{Rows, text_by_rows};
use crate::told_delays::ToldDelays;
use release_nets::Planned;
use std::alloc::{AllocError, Global};
use teg_net::OutOfMemory;

// Whether the whole text tells the delays of these rows, which are those that are left, with these
// lines of what becomes of them.
fn is_told(
    alloc: Global,
    planned: &Planned<'_>,
    rows: &Rows<'_>,
    outcome: &str,
    text: &str,
) -> Result<bool, AllocError>
    requires wide { length planned.now.net.now.transitions ≤ rows.now.width }
    requires form { IsFormOfDelays planned.now.net.now planned.now.period planned.now.table.now
        (form_by_rows rows.now.width rows.now.dates.now rows.now.after rows.now.turn
        rows.now.steps.now) }
    ensures { IfOk result (λ yes. IsTrue yes → (lines : List (List (List ℕ)))
        → outcome.now ≡ written lines → TellsDelays planned.now.net.now planned.now.period
        planned.now.table.now text.now lines) }
{
    let told = text_by_rows(alloc, planned, rows, outcome)?;
    Ok(told.as_str() == text)
}

// Whether the number, where one is told, is the least after which none of the delays of these rows
// is left.
fn is_over(planned: &Planned<'_>, rows: &Rows<'_>, last: Option<u64>) -> bool
    requires wide { length planned.now.net.now.transitions ≤ rows.now.width }
    requires form { IsFormOfDelays planned.now.net.now planned.now.period planned.now.table.now
        (form_by_rows rows.now.width rows.now.dates.now rows.now.after rows.now.turn
        rows.now.steps.now) }
    ensures { IsTrue result → IfSome last (λ number. EndsWhatIsLeft planned.now.net.now
        planned.now.period planned.now.table.now number) }
{
    match last {
        Some(number) => is_recovered(planned, rows, number),
        None => true,
    }
}

// Whether these rows tell the delays that are left, and the text tells them.
fn tells_rows(
    alloc: Global,
    planned: &Planned<'_>,
    rows: &Rows<'_>,
    last: Option<u64>,
    outcome: &str,
    text: &str,
) -> Result<bool, OutOfMemory>
    requires { rows.now.width
        ≡ length planned.now.net.now.transitions + length planned.now.net.now.transitions }
    ensures told { IfOk result (λ yes. IsTrue yes → (lines : List (List (List ℕ)))
        → outcome.now ≡ written lines → TellsDelays planned.now.net.now planned.now.period
        planned.now.table.now text.now lines) }
    ensures over { IfOk result (λ yes. IsTrue yes → IfSome last (λ number. EndsWhatIsLeft
        planned.now.net.now planned.now.period planned.now.table.now number)) }
{
    if !are_form_rows(alloc, planned, rows)? {
        return Ok(false);
    }
    if !is_over(planned, rows, last) {
        return Ok(false);
    }
    let is_told = is_told(alloc, planned, rows, outcome, text)?;
    Ok(is_told)
}

// Whether the whole text tells the delays that are left, with these lines of what becomes of them;
// and where a number is told, whether it is the least after which there is none.
pub(crate) fn tells_delays(
    alloc: Global,
    planned: &Planned<'_>,
    told: &ToldDelays,
    last: Option<u64>,
    outcome: &str,
    text: &str,
) -> Result<bool, OutOfMemory>
    ensures told { IfOk result (λ yes. IsTrue yes → (lines : List (List (List ℕ)))
        → outcome.now ≡ written lines → TellsDelays planned.now.net.now planned.now.period
        planned.now.table.now text.now lines) }
    ensures over { IfOk result (λ yes. IsTrue yes → IfSome last (λ number. EndsWhatIsLeft
        planned.now.net.now planned.now.period planned.now.table.now number)) }
{
    let transitions = planned.net.transitions().len();
    let width = transitions + transitions;
    let dates = told.dates(alloc, planned)?;
    let steps = told.steps(alloc, planned.period, width)?;
    let (after, turn) = (told.after, told.turn);
    let Some(rows) = rows_of(width, after, turn, dates.as_slice(), steps.as_slice()) else {
        return Ok(false);
    };
    let tells = tells_rows(alloc, planned, &rows, last, outcome, text)?;
    Ok(tells)
}
