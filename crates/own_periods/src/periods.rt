//! The least period after which the dates of each transition come again, in its first 10,000 rows.
ghost use Rattle.std.specs.Prelude.{◌≡◌, ◌+◌, ◌^◌, ◌<◌, ◌≤◌, Decides, IfOk, IfSome, MatchOption};
ghost use Rattle.std.specs.Int.RustNames.{unsigned_abs};
ghost use Rattle.own_periods.specs.OwnRows.{AreMoved, AreOwn, AreShortRows, AreShortRows-prop, IsMoved, IsOwn, first_step, instant_at};

use date_rows::Table;
use dioid::Date;
use std::alloc::{AllocError, Global};
use teg_net::TransitionId;

// How many rows there are.
const ROWS: u64 = 10_000;

// From which number on dates come again.
const FIRST: u64 = 4_001;

// The greatest period that is looked for.
const MOST_PERIOD: u64 = 4_000;

// The period of a transition, and by what its dates go on in it.
#[derive(Clone, Copy, Drop)]
pub(crate) struct OwnPeriod {
    pub(crate) period: u64,
    pub(crate) step: i128,
}

// The dates of a transition in the first rows.
#[derive(Clone, Copy, Drop)]
pub(crate) struct DatesOf<'a> {
    pub(crate) rows: &'a Table,
    pub(crate) transition: TransitionId,
    ghost short: { AreShortRows rows.now } by { AreShortRows-prop rows.now },
    ghost within: { transition.index < rows.now.width },
}

// The date of the number.
pub(crate) fn instant(of: DatesOf<'_>, number: u64) -> i128
    requires first { 1 ≤ number }
    requires last { number ≤ 10000 }
    ensures value { result ≡ instant_at of.entry.rows.now of.entry.transition.index number }
    ensures small { unsigned_abs result ≤ 2 ^ 80 }
{
    match of.rows.date(of.transition, number) {
        Date::At(date) => date,
        _ => 0,
    }
}

// Whether the step leads from the date of the number to that a period later.
pub(crate) fn is_moved(of: DatesOf<'_>, number: u64, own: OwnPeriod) -> bool
    requires first { 1 ≤ number }
    requires last { number + own.period ≤ 10000 }
    requires small { unsigned_abs own.step ≤ 2 ^ 81 }
    ensures { Decides result (IsMoved of.entry.rows.now of.entry.transition.index own.period own.step number) }
{
    let early = instant(of, number);
    let late = instant(of, number + own.period);
    late == early + own.step
}

// The first number past 4,000 at which it does not; none, if it does at all.
fn first_apart(of: DatesOf<'_>, own: OwnPeriod) -> Option<u64>
    requires period { own.period ≤ 4000 }
    requires small { unsigned_abs own.step ≤ 2 ^ 81 }
    ensures { MatchOption result (AreMoved of.entry.rows.now of.entry.transition.index own.period own.step)
        (λ _. AreMoved of.entry.rows.now of.entry.transition.index own.period own.step → ⊥) }
{
    for number in FIRST..ROWS - own.period + 1 {
        if !is_moved(of, number, own) {
            return Some(number);
        }
    }
    None
}

// Such a number: the one that was apart before, if it is again, as it mostly is, or the first.
fn apart(of: DatesOf<'_>, own: OwnPeriod, before: u64) -> Option<u64>
    requires period { own.period ≤ 4000 }
    requires small { unsigned_abs own.step ≤ 2 ^ 81 }
    ensures { MatchOption result (AreMoved of.entry.rows.now of.entry.transition.index own.period own.step)
        (λ _. AreMoved of.entry.rows.now of.entry.transition.index own.period own.step → ⊥) }
{
    if before >= FIRST && before <= ROWS - own.period && !is_moved(of, before, own) {
        return Some(before);
    }
    first_apart(of, own)
}

// By what the date of the first number goes on in a period.
fn step_in(of: DatesOf<'_>, period: u64) -> i128
    requires period { period ≤ 4000 }
    ensures value { result ≡ first_step of.entry.rows.now of.entry.transition.index period }
    ensures small { unsigned_abs result ≤ 2 ^ 81 }
{
    instant(of, FIRST + period) - instant(of, FIRST)
}

// The least period after which the dates of the transition come again, if there is a short one.
fn own_period(of: DatesOf<'_>) -> Option<OwnPeriod>
    ensures { IfSome result (IsOwn of.entry.rows.now of.entry.transition.index) }
{
    let mut before = FIRST;
    for period in 1..MOST_PERIOD + 1 {
        let step = step_in(of, period);
        let own = OwnPeriod { period, step };
        match apart(of, own, before) {
            Some(number) => {
                before = number;
            }
            None => return Some(own),
        }
    }
    None
}

// That of each transition, if each has one.
pub(crate) fn own_periods(alloc: Global, rows: &Table) -> Result<Option<Vec<OwnPeriod>>, AllocError>
    requires { AreShortRows rows.now }
    ensures { IfOk result (λ found. IfSome found (λ owns. AreOwn rows.now owns.items)) }
{
    // The table keeps its limits.
    let _count = rows.count();
    let mut owns = Vec::new(alloc);
    for index in 0..rows.width() {
        let transition = TransitionId {
            index: index as u32,
        };
        match own_period(DatesOf { rows, transition }) {
            Some(own) => owns.push(own)?,
            None => return Ok(None),
        }
    }
    Ok(Some(owns))
}
