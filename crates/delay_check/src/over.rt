//! The number after which no delay is left, by the delays of rows.
ghost use Rattle.std.specs.Prelude.{ℕ, ◌≡◌, ◌<◌, ◌≤◌, ◌⊎◌, true, false, IsTrue, length};
ghost use Rattle.settled_certificates.specs.SettledRows.{form_by_rows};
ghost use Rattle.delay_laws.specs.Delays.{IsFormOfDelays};
ghost use Rattle.delay_check.specs.DelayRows.{delay_by_rows};
ghost use Rattle.delay_check.specs.ShownDelays.{EndsWhatIsLeft};

use crate::spread_text::{Rows, delay_at};
use release_nets::Planned;

// The delay of the transition at this number.
fn delay_of(planned: &Planned<'_>, rows: &Rows<'_>, index: usize, number: u64) -> u128
    requires index { index < length planned.now.net.now.transitions }
    requires wide { index < rows.now.width }
    requires first { 1 ≤ number }
    requires last { number ≤ rows.now.count }
    ensures { result ≡ delay_by_rows rows.now.width rows.now.dates.now rows.now.after rows.now.turn
        rows.now.steps.now planned.now.period planned.now.table.now index number }
{
    delay_at(planned, rows, index, number - 1)
}

// Whether a delay is left at this number.
fn is_late_at(planned: &Planned<'_>, rows: &Rows<'_>, number: u64) -> bool
    requires wide { length planned.now.net.now.transitions ≤ rows.now.width }
    requires first { 1 ≤ number }
    requires last { number ≤ rows.now.count }
    ensures late { result ≡ true → (i : ℕ) × (i < length planned.now.net.now.transitions)
        × (1 ≤ delay_by_rows rows.now.width rows.now.dates.now rows.now.after rows.now.turn
        rows.now.steps.now planned.now.period planned.now.table.now i number) }
    ensures none { result ≡ false → (i : ℕ) → i < length planned.now.net.now.transitions
        → delay_by_rows rows.now.width rows.now.dates.now rows.now.after rows.now.turn
        rows.now.steps.now planned.now.period planned.now.table.now i number
        ≡ 0 }
{
    for index in 0..planned.net.transitions().len() {
        if delay_of(planned, rows, index, number) >= 1 {
            return true;
        }
    }
    false
}

// Whether this number is one up to which delays do not come again, and none is left past it, up to
// the end of the first period.
fn is_over_past(planned: &Planned<'_>, rows: &Rows<'_>, last: u64) -> bool
    requires wide { length planned.now.net.now.transitions ≤ rows.now.width }
    ensures within { IsTrue result → last ≤ rows.now.after }
    ensures none { IsTrue result → (i k : ℕ) → i < length planned.now.net.now.transitions
        → last < k → k ≤ rows.now.count
        → delay_by_rows rows.now.width rows.now.dates.now rows.now.after rows.now.turn
        rows.now.steps.now planned.now.period planned.now.table.now i k
        ≡ 0 }
{
    if last > rows.after {
        return false;
    }
    for before in last..rows.count {
        if is_late_at(planned, rows, before + 1) {
            return false;
        }
    }
    true
}

// Whether a delay is left at this number, unless it is 0.
fn is_last_late(planned: &Planned<'_>, rows: &Rows<'_>, last: u64) -> bool
    requires wide { length planned.now.net.now.transitions ≤ rows.now.width }
    requires last { last ≤ rows.now.count }
    ensures { IsTrue result → (last ≡ 0) ⊎ ((i : ℕ) × (i < length planned.now.net.now.transitions)
        × (1 ≤ delay_by_rows rows.now.width rows.now.dates.now rows.now.after rows.now.turn
        rows.now.steps.now planned.now.period planned.now.table.now i last)) }
{
    if last == 0 {
        return true;
    }
    is_late_at(planned, rows, last)
}

// Whether this is the least number after which no delay is left, where these rows tell the delays.
pub(crate) fn is_recovered(planned: &Planned<'_>, rows: &Rows<'_>, last: u64) -> bool
    requires wide { length planned.now.net.now.transitions ≤ rows.now.width }
    requires form { IsFormOfDelays planned.now.net.now planned.now.period planned.now.table.now
        (form_by_rows rows.now.width rows.now.dates.now rows.now.after rows.now.turn
        rows.now.steps.now) }
    ensures { IsTrue result → EndsWhatIsLeft planned.now.net.now planned.now.period
        planned.now.table.now last }
{
    if !is_over_past(planned, rows, last) {
        return false;
    }
    is_last_late(planned, rows, last)
}
