//! One number after another, going back: the due dates are set, then each date of a number is
//! lowered to that of the next number, and to what each place leaves of the date at its end.
ghost use Rattle.std.specs.Prelude.{◌≡◌, ◌+◌, ◌-◌, ◌*◌, ◌<◌, ◌≤◌, ℕ, List, length, IfOk, IfSome, slice_index_or, slice_set, Option};
ghost use Rattle.teg_check.specs.Ranks.{IsRanking};
ghost use Rattle.teg_due.specs.RowRules.{due_in};
ghost use Rattle.teg_jit.specs.BackwardOrder.{IsBackOrder};
ghost use Rattle.teg_jit.specs.declared.answers.LatestDate.TheVariants.{Free};
ghost use Rattle.teg_jit.specs.Plans.{KeepsSizes, latest_in};
ghost use Rattle.teg_jit.specs.LatestCells.{most_cell_date, HasStepNumber};
ghost use Rattle.teg_jit.specs.GoingBack.{lowered, date_there, AreListedUpTo, AreNext, ArePassedAbove, HasNumber, HaveRoom};

use crate::answers::{LatestDate, Onward};
use crate::cells::cell_of;
use crate::latest_list::LatestList;
use crate::order::Depth;
use std::alloc::{AllocError, Global};
use teg_due::DueRow;
use teg_net::{Net, TransitionId};

// Lowers a date to this one, where it comes before.
fn lower(dates: &mut LatestList, cell: usize, date: u64, onward: Onward)
    requires cell { cell < length dates.old }
    requires date { date < most_cell_date }
    requires step { HasStepNumber onward }
    ensures { dates.new ≡ slice_set dates.old cell (lowered (slice_index_or dates.old cell Free)
        date onward) }
{
    let is_before = match dates.get(cell) {
        LatestDate::Free => true,
        LatestDate::At { date: there, .. } => date < there,
    };
    if is_before {
        dates.set(cell, date, onward);
    }
}

// The date of a firing; none where it is free, and past the last number.
fn date_at(
    dates: &LatestList,
    width: usize,
    last: u32,
    transition: TransitionId,
    number: u32,
) -> Option<u64>
    requires sizes { KeepsSizes
        (record { width = width; numbers = last; dates = dates.now }) }
    requires transition { transition.index < width }
    requires number { 1 ≤ number }
    ensures date { result ≡ date_there (latest_in width dates.now transition.index number) }
    ensures fits { IfSome result (λ date. date < most_cell_date) }
{
    if last < number {
        return None;
    }
    match dates.get(cell_of(width, transition, number)) {
        LatestDate::Free => None,
        LatestDate::At { date, .. } => Some(date),
    }
}

// The dates of numbers 1 to `last` with the due dates alone.
pub(crate) fn begin(
    alloc: Global,
    net: &Net,
    rows: &[DueRow],
    last: u32,
) -> Result<LatestList, AllocError>
    requires { AreListedUpTo net.now rows.now last }
    ensures { IfOk result (ArePassedAbove net.now (due_in rows.now) last last) }
{
    let width = net.transitions().len();
    let mut dates = LatestList::new(alloc, last as usize * width)?;
    for row in rows {
        let cell = cell_of(width, row.transition, row.number);
        lower(&mut dates, cell, row.date, Onward::Due);
    }
    Ok(dates)
}

// Lowers the dates of the number to those of the next.
pub(crate) fn pass_next(net: &Net, dates: &mut LatestList, last: u32, number: u32)
    requires { HasNumber net.now last number dates.old }
    ensures full { length dates.new ≡ last * length net.now.transitions }
    ensures passed { (due : ℕ → ℕ → Option ℕ) → ArePassedAbove net.now due last number dates.old
        → AreNext net.now due last number (length net.now.transitions) dates.new }
{
    let width = net.transitions().len();
    for index in 0..width {
        let transition = TransitionId {
            index: index as u32,
        };
        match date_at(dates, width, last, transition, number + 1) {
            Some(date) => lower(
                dates,
                cell_of(width, transition, number),
                date,
                Onward::Next,
            ),
            None => {}
        }
    }
}

// Lowers the dates of the number to what each place leaves of the date at its end.
pub(crate) fn pass_places(
    net: &Net,
    order: &[Depth],
    dates: &mut LatestList,
    last: u32,
    number: u32,
)
    requires order { (ranks : List ℕ) × IsRanking net.now ranks
        × IsBackOrder net.now ranks order.now }
    requires number { HasNumber net.now last number dates.old }
    requires passed { (due : ℕ → ℕ → Option ℕ) × AreNext net.now due last number
        (length net.now.transitions) dates.old × HaveRoom net.now due }
    ensures { (due : ℕ → ℕ → Option ℕ) → AreNext net.now due last number
        (length net.now.transitions) dates.old
        → ArePassedAbove net.now due last (number - 1) dates.new }
{
    let places = net.places();
    let width = net.transitions().len();
    for depth in order {
        let place = &places[depth.place.index as usize];
        match date_at(dates, width, last, place.to, number + place.tokens) {
            Some(date) => lower(
                dates,
                cell_of(width, place.from, number),
                date - place.hold,
                Onward::By(depth.place),
            ),
            None => {}
        }
    }
}
