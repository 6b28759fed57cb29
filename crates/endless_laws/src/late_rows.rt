//! Which number is the first at which the least dating of a net comes too late for an endless row.
ghost use Rattle.std.specs.Prelude.{ℕ, ◌≡◌, ◌≤◌, ◌<◌, ◌↔◌, ◌+◌, pos, IfNone, IfOk, IfSome, IsTrue};
ghost use Rattle.dioid.specs.declared.dates.Date.TheVariants.{At};
ghost use Rattle.teg_model.specs.DateBounds.{IsDateWithin, greatest_least_date};
ghost use Rattle.teg_net.specs.Limits.{greatest_firing_number};
ghost use Rattle.settled_laws.specs.SettledForms.{IsSettledFormOf, settled_date};
ghost use Rattle.endless_due.specs.EndlessRows.{IsEndlessRow};
ghost use Rattle.forever_laws.specs.Late.{IsLateAt};
ghost use Rattle.endless_laws.specs.KeptWindows.{IsListOf, IsRowOfForm};
ghost use Rattle.endless_laws.specs.LateRows.{IsLeastLateOf, NoneLateBetween, NoneLateNear};

use crate::kept_rows::{Window, list_of, natural, window_of};
use dioid::Date;
use endless_due::EndlessRow;
use settled_forms::Settled;
use std::alloc::Global;
use teg_net::{InputList, Net, OutOfMemory};

/// When a firing is due, and when it comes at the earliest, which is later. In the user's unit.
#[derive(Clone, Copy, Debug, PartialEq, Eq)]
pub struct LateDates {
    pub due: u128,
    pub least: u128,
}

// The date as a number, where it is past the due date.
fn past_due(date: Date, due: u128) -> Option<u128>
    requires { IsDateWithin greatest_least_date date }
    ensures late { IfSome result (λ least. (date ≡ At (pos least)) × (due < least)) }
    ensures kept { IfNone result ((least : ℕ) → date ≡ At (pos least) → due < least → ⊥) }
{
    match date {
        Date::At(date) => {
            let least = natural(date);
            if due < least { Some(least) } else { None }
        }
        _ => None,
    }
}

// When firing `number` is due and when it comes, where that is later.
fn late_at(form: &Settled, row: &EndlessRow, list: &InputList, number: u64) -> Option<LateDates>
    requires row { IsRowOfForm form.now row.now }
    requires list { IsListOf row.now list.now }
    requires first { 1 ≤ number }
    requires last { number ≤ greatest_firing_number }
    ensures late { IfSome result (λ l. IsLateAt (settled_date form.now) row.now number
        l.due l.least) }
    ensures kept { IfNone result ((due least : ℕ)
        → IsLateAt (settled_date form.now) row.now number due least → ⊥) }
{
    form.after();
    let date = form.date(row.transition, number);
    let due = list.date(number)?;
    let least = past_due(date, due)?;
    Some(LateDates { due, least })
}

// Whether firing `number` comes later than it is due.
fn is_late_at(form: &Settled, row: &EndlessRow, list: &InputList, number: u64) -> bool
    requires row { IsRowOfForm form.now row.now }
    requires list { IsListOf row.now list.now }
    requires first { 1 ≤ number }
    requires last { number ≤ greatest_firing_number }
    ensures { IsTrue result ↔ ((due : ℕ) × (least : ℕ)
        × IsLateAt (settled_date form.now) row.now number due least) }
{
    late_at(form, row, list, number).is_some()
}

// Whether no firing past a number and up to the last does.
fn none_late_between(
    form: &Settled,
    row: &EndlessRow,
    list: &InputList,
    past: u64,
    last: u64,
) -> bool
    requires row { IsRowOfForm form.now row.now }
    requires list { IsListOf row.now list.now }
    requires past { past < greatest_firing_number }
    requires last { last < greatest_firing_number }
    ensures { IsTrue result ↔ NoneLateBetween (settled_date form.now) row.now past last }
{
    for number in past + 1..last + 1 {
        if is_late_at(form, row, list, number) {
            return false;
        }
    }
    true
}

// The last number before this one that is at most another.
fn last_to(most: u64, number: u64) -> u64
    requires { 1 ≤ number }
    ensures all { most < number → result ≡ most }
    ensures before { number ≤ most → result + 1 ≡ number }
{
    if most < number { most } else { number - 1 }
}

// Whether no firing of the first numbers does, nor one past a number and up to the last.
fn none_late_in(
    form: &Settled,
    row: &EndlessRow,
    list: &InputList,
    first: u64,
    past: u64,
    last: u64,
) -> bool
    requires row { IsRowOfForm form.now row.now }
    requires list { IsListOf row.now list.now }
    requires first { first < greatest_firing_number }
    requires past { past < greatest_firing_number }
    requires last { last < greatest_firing_number }
    ensures { IsTrue result ↔ (NoneLateBetween (settled_date form.now) row.now 0 first
        × NoneLateBetween (settled_date form.now) row.now past last) }
{
    none_late_between(form, row, list, 0, first) && none_late_between(form, row, list, past, last)
}

// Whether none of the firings before this one does that tell of all before it: those up to the
// window's start, and those of the turn before it.
fn none_late_near(
    form: &Settled,
    row: &EndlessRow,
    list: &InputList,
    window: Window,
    number: u64,
) -> bool
    requires row { IsRowOfForm form.now row.now }
    requires list { IsListOf row.now list.now }
    requires first { 1 ≤ number }
    requires last { number ≤ greatest_firing_number }
    ensures { IsTrue result ↔ NoneLateNear (settled_date form.now) row.now window.past window.turn
        number }
{
    let first = last_to(window.past, number);
    let past = (number - 1).saturating_sub(window.turn);
    none_late_in(form, row, list, first, past, number - 1)
}

/// When firing `number` of the row's transition is due and when it comes, where it is the first that
/// comes later than it is due (chapters 3 and 5): in the least dating of the net, of which this is
/// the settled form, as its input lists release it. None just where it is not the first, or not
/// late.
///
/// Dates and due dates are looked at up to the number past which both go on, and those of one common
/// turn before `number`. No other can be late sooner: a number that becomes late in some turn is late
/// in each further one. It takes memory for the dates of the row, and time of the order of those
/// numbers. `OutOfMemory` comes only where no memory is found.
pub fn least_late(
    alloc: Global,
    _net: &Net,
    form: &Settled,
    row: &EndlessRow,
    number: u64,
) -> Result<Option<LateDates>, OutOfMemory>
    requires form { IsSettledFormOf _net.now form.now }
    requires row { IsEndlessRow _net.now row.now }
    requires first { 1 ≤ number }
    requires last { number ≤ greatest_firing_number }
    ensures least { IfOk result (λ some. IfSome some (λ l. IsLeastLateOf _net.now row.now number
        l.due l.least)) }
    ensures other { IfOk result (λ some. IfNone some ((due least : ℕ)
        → IsLeastLateOf _net.now row.now number due least → ⊥)) }
{
    let window = window_of(form, row);
    let list = list_of(alloc, row)?;
    let Some(late) = late_at(form, row, &list, number) else {
        return Ok(None);
    };
    if none_late_near(form, row, &list, window, number) {
        Ok(Some(late))
    } else {
        Ok(None)
    }
}
