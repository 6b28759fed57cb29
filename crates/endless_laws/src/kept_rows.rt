//! Whether the least dating of a net keeps due dates without end.
ghost use Rattle.std.specs.Prelude.{◌≡◌, ◌≤◌, ◌<◌, ◌↔◌, ◌+◌, ◌*◌, ◌%◌, ◌≤ℤ◌, pos, All, IfOk, IsTrue, length};
ghost use Rattle.dioid.specs.declared.dates.Date.TheVariants.{At};
ghost use Rattle.dioid.specs.Dates.{IsAtMostDate, move};
ghost use Rattle.teg_model.specs.DateBounds.{IsDateWithin, greatest_least_date};
ghost use Rattle.teg_model.specs.Datings.{listed_releases};
ghost use Rattle.teg_net.specs.Limits.{greatest_every, greatest_firing_number, greatest_input_date, most_rows};
ghost use Rattle.settled_laws.specs.SettledForms.{IsSettledFormOf, settled_date};
ghost use Rattle.due_laws.specs.MeetingDueDates.{InputsMeet};
ghost use Rattle.endless_due.specs.EndlessRows.{IsEndlessOf, IsEndlessRow, due_on, most_endless_dates};
ghost use Rattle.endless_laws.specs.KeptRows.{KeepsRow, KeepsRowAt, KeepsRowTo};
ghost use Rattle.endless_laws.specs.KeptWindows.{IsListOf, IsRowOfForm, IsWindowOf, RisesInTurn};

use dioid::Date;
use endless_due::EndlessRow;
use settled_forms::Settled;
use std::alloc::{AllocError, Global};
use teg_net::{Again, DateList, GREATEST_FIRING_NUMBER, InputList, Net, OutOfMemory};

// Past which number a form and a row go on together, in how many firings, which are so many periods
// of the form, and by how much the due dates then rise.
#[derive(Clone, Copy)]
pub(crate) struct Window {
    pub(crate) past: u64,
    pub(crate) turn: u64,
    periods: u64,
    rise: u128,
}

// The due dates of the row as the list of an input, which tells each of them.
pub(crate) fn list_of(alloc: Global, row: &EndlessRow) -> Result<InputList, AllocError>
    ensures { IfOk result (IsListOf row.now) }
{
    let dates = Vec::from_slice(alloc, row.dates.as_slice())?;
    Ok(InputList {
        transition: row.transition,
        dates: DateList::new(dates),
        again: Some(Again {
            every: row.every,
            gap: row.gap,
        }),
    })
}

// The fewest periods that are a multiple of `every` firings, or so many periods as firings.
fn periods_of(period: u64, every: u64) -> u64
    requires some { 1 ≤ every }
    requires every { every ≤ greatest_every }
    requires period { period ≤ most_rows }
    ensures from_one { 1 ≤ result }
    ensures within { result ≤ every }
    ensures common { result * period % every ≡ 0 }
{
    for periods in 1..every {
        if periods * period % every == 0 {
            return periods;
        }
    }
    every
}

// The window of the form and the row.
pub(crate) fn window_of(form: &Settled, row: &EndlessRow) -> Window
    requires row { IsRowOfForm form.now row.now }
    requires dates { length row.now.dates ≤ most_endless_dates }
    ensures window { IsWindowOf form.now row.now result }
    ensures past { result.past ≤ most_rows + most_endless_dates }
    ensures turn { result.turn ≤ greatest_firing_number }
    ensures rise { result.rise ≤ greatest_firing_number * greatest_input_date }
{
    let every = u64::from(row.every);
    let listed = row.dates.as_slice().len() as u64 - every;
    let periods = periods_of(form.period(), every);
    let turn = periods * form.period();
    Window {
        past: form.after().max(listed),
        turn,
        periods,
        rise: u128::from(turn / every) * u128::from(row.gap),
    }
}

// A number from 0 on.
pub(crate) fn natural(number: i128) -> u128
    requires { pos 0 ≤ℤ number }
    ensures { number ≡ pos result }
{
    number as u128
}

// Whether the date is at most the due date.
fn is_by(date: Date, due: u128) -> bool
    requires { IsDateWithin greatest_least_date date }
    ensures { IsTrue result ↔ IsAtMostDate date (At (pos due)) }
{
    match date {
        Date::Early => true,
        Date::At(date) => natural(date) <= due,
        Date::Never => false,
    }
}

// Whether firing `number` of the row's transition does not come after its due date.
fn is_kept_at(form: &Settled, row: &EndlessRow, list: &InputList, number: u64) -> bool
    requires row { IsRowOfForm form.now row.now }
    requires list { IsListOf row.now list.now }
    requires first { 1 ≤ number }
    requires last { number ≤ greatest_firing_number }
    ensures { IsTrue result ↔ KeepsRowAt (settled_date form.now) row.now number }
{
    form.after();
    let date = form.date(row.transition, number);
    match list.date(number) {
        Some(due) => is_by(date, due),
        None => true,
    }
}

// Whether no firing up to the last does.
fn is_kept_to(form: &Settled, row: &EndlessRow, list: &InputList, last: u64) -> bool
    requires row { IsRowOfForm form.now row.now }
    requires list { IsListOf row.now list.now }
    requires last { last < greatest_firing_number }
    ensures { IsTrue result ↔ KeepsRowTo (settled_date form.now) row.now last }
{
    for number in 1..last + 1 {
        if !is_kept_at(form, row, list, number) {
            return false;
        }
    }
    true
}

// Whether the second date is at most the first moved by so much.
fn rises_by(first: Date, second: Date, rise: u128) -> bool
    requires first { IsDateWithin greatest_least_date first }
    requires rise { rise ≤ greatest_firing_number * greatest_input_date }
    ensures { IsTrue result ↔ IsAtMostDate second (move (pos rise) first) }
{
    match (second, first) {
        (Date::Early, _) | (_, Date::Never) => true,
        (Date::At(second), Date::At(first)) => second <= first + rise as i128,
        _ => false,
    }
}

// Whether in the turn the date rises by no more than the due dates.
fn rises_in_turn(form: &Settled, row: &EndlessRow, window: Window) -> bool
    requires row { IsRowOfForm form.now row.now }
    requires last { window.past + window.turn < greatest_firing_number }
    requires rise { window.rise ≤ greatest_firing_number * greatest_input_date }
    ensures { IsTrue result ↔ RisesInTurn form.now row.now window }
{
    form.after();
    let first = form.date(row.transition, window.past + 1);
    let second = form.date(row.transition, window.past + 1 + window.turn);
    rises_by(first, second, window.rise)
}

// Whether the form keeps the row in the window, and rises no faster there.
fn keeps_window(form: &Settled, row: &EndlessRow, list: &InputList, window: Window) -> bool
    requires row { IsRowOfForm form.now row.now }
    requires list { IsListOf row.now list.now }
    requires last { window.past + window.turn < greatest_firing_number }
    requires rise { window.rise ≤ greatest_firing_number * greatest_input_date }
    ensures { IsTrue result ↔ (KeepsRowTo (settled_date form.now) row.now
        (window.past + window.turn) × RisesInTurn form.now row.now window) }
{
    is_kept_to(form, row, list, window.past + window.turn) && rises_in_turn(form, row, window)
}

// Whether the dates of the form, which is the net's, keep the row for every firing.
fn keeps_row(
    alloc: Global,
    _net: &Net,
    form: &Settled,
    row: &EndlessRow,
) -> Result<bool, OutOfMemory>
    requires form { IsSettledFormOf _net.now form.now }
    requires row { IsEndlessRow _net.now row.now }
    ensures { IfOk result (λ yes. IsTrue yes ↔ KeepsRow (settled_date form.now) row.now) }
{
    let window = window_of(form, row);
    if window.past + window.turn >= GREATEST_FIRING_NUMBER {
        return Err(OutOfMemory);
    }
    let list = list_of(alloc, row)?;
    Ok(keeps_window(form, row, &list, window))
}

// Whether they keep each row.
fn keeps_rows(
    alloc: Global,
    net: &Net,
    form: &Settled,
    rows: &[EndlessRow],
) -> Result<bool, OutOfMemory>
    requires form { IsSettledFormOf net.now form.now }
    requires rows { All (IsEndlessRow net.now) rows.now }
    ensures { IfOk result (λ yes. IsTrue yes ↔ All (KeepsRow (settled_date form.now)) rows.now) }
{
    for row in rows {
        if !keeps_row(alloc, net, form, row)? {
            return Ok(false);
        }
    }
    Ok(true)
}

/// Whether the net keeps endless due dates for every firing, as its input lists release it (chapters
/// 3 and 5): no firing of its least dating, of which this is the settled form, comes after its due
/// date. Yes just where these inputs meet what is due.
///
/// For each row, dates and due dates are looked at up to the number past which both go on, and one
/// common turn past it: by the law [`windows_tell_kept`] nothing more is asked but that in the turn
/// the date rises by no more than what is due. It takes memory for the dates of one row, and for
/// each row time of the order of those numbers, of which there are at most `every` periods past that
/// from which both go on. `OutOfMemory` comes only where no memory is found, or where form and row
/// go on together past number 10^18 alone: such a form has more dates than any memory holds.
pub fn keeps_due_rows(
    alloc: Global,
    net: &Net,
    form: &Settled,
    rows: &[EndlessRow],
) -> Result<bool, OutOfMemory>
    requires form { IsSettledFormOf net.now form.now }
    requires rows { IsEndlessOf net.now rows.now }
    ensures { IfOk result (λ yes. IsTrue yes ↔ InputsMeet net.now (due_on rows.now)
        (listed_releases net.now)) }
{
    let kept = keeps_rows(alloc, net, form, rows)?;
    Ok(kept)
}
