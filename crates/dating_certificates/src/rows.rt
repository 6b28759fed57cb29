//! Whether rows of dates are each the latest of what its firing waits for (chapter 2).
ghost use Rattle.std.specs.Prelude.{ℕ, ◌*◌, ◌<◌, ◌≤◌, ◌≡◌, ◌↔◌, All, IfNone, IfOk, IfSome, IsTrue, length, slice_index_or};
ghost use Rattle.dioid.specs.declared.dates.Date.TheVariants.{Early};
ghost use Rattle.teg_net.specs.Circuits.{IsLive};
ghost use Rattle.teg_model.specs.DateBounds.{IsDateWithin, greatest_least_date};
ghost use Rattle.teg_model.specs.Datings.{listed_releases};
ghost use Rattle.dating_certificates.specs.CheckedRows.{date_in_rows, AreFirstRows, AreRowsOf, AreTightRows};
ghost use Rattle.dating_certificates.specs.TightRows.{AreTightUpTo, IsLatestOfWaits};
ghost use Rattle.dating_certificates.specs.Waits.{AreLatestWaits, HasBegun};

use crate::waits::{available, date_before, date_in_rows, release};
use dioid::Date;
use std::alloc::Global;
use teg_net::{FiringNumber, GREATEST_FIRING_NUMBER, Net, OutOfMemory, PlaceId, TransitionId};

// No least date is greater.
const GREATEST_LEAST_DATE: i128 = 2_000_000_000_000_000_000_000_000_000_000;

// Whether the date is none before 0 and none that is too great.
fn is_within(date: Date) -> bool
    ensures { IsTrue result ↔ IsDateWithin greatest_least_date date }
{
    match date {
        Date::At(date) => 0 <= date && date <= GREATEST_LEAST_DATE,
        Date::Early | Date::Never => true,
    }
}

// Whether each date is so.
fn all_within(dates: &[Date]) -> bool
    ensures { IsTrue result ↔ All (IsDateWithin greatest_least_date) dates.now }
{
    dates.iter().all(|date| is_within(*date))
}

// Writes for each transition the later of the firing before this number and the release.
fn begin_row(net: &Net, dates: &[Date], row: &mut [Date], number: &FiringNumber)
    requires rows { number.now * length net.now.transitions ≤ length dates.now }
    requires full { length row.old ≡ length net.now.transitions }
    ensures { HasBegun net.now (listed_releases net.now)
        (date_in_rows (length net.now.transitions) dates.now) number.now row.new }
{
    let width = net.transitions().len();
    let number = number.get();
    for index in 0..width {
        let id = TransitionId::new(index as u32);
        row[index] = date_before(net, dates, id, number).later(release(net, id, number));
    }
}

// Raises the dates of the row to the tokens that the firings take from the places.
fn raise_row(net: &Net, dates: &[Date], row: &mut [Date], number: &FiringNumber)
    requires rows { number.now * length net.now.transitions ≤ length dates.now }
    requires within { All (IsDateWithin greatest_least_date) dates.now }
    requires begun { HasBegun net.now (listed_releases net.now)
        (date_in_rows (length net.now.transitions) dates.now) number.now row.old }
    ensures { AreLatestWaits net.now (listed_releases net.now)
        (date_in_rows (length net.now.transitions) dates.now) number.now row.new }
{
    for (index, place) in net.places().iter().enumerate() {
        let id = PlaceId::new(index as u32);
        let to = place.to.index();
        row[to] = row[to].later(available(net, dates, id, number.get()));
    }
}

// Whether the row is that of this number.
fn is_row(dates: &[Date], row: &[Date], number: u64) -> bool
    requires number { 1 ≤ number }
    requires rows { number * length row.now ≤ length dates.now }
    ensures { IsTrue result ↔ ((t : ℕ) → t < length row.now → slice_index_or row.now t Early
        ≡ date_in_rows (length row.now) dates.now t number) }
{
    for (index, date) in row.iter().enumerate() {
        if *date != date_in_rows(dates, row.len(), index, number) {
            return false;
        }
    }
    true
}

// Whether each date of this number is the latest of what its firing waits for.
fn is_tight_row(net: &Net, dates: &[Date], row: &mut [Date], number: &FiringNumber) -> bool
    requires rows { number.now * length net.now.transitions ≤ length dates.now }
    requires within { All (IsDateWithin greatest_least_date) dates.now }
    requires full { length row.old ≡ length net.now.transitions }
    ensures full { length row.new ≡ length net.now.transitions }
    ensures tight { IsTrue result ↔ ((t : ℕ) → t < length net.now.transitions
        → IsLatestOfWaits net.now (listed_releases net.now)
        (date_in_rows (length net.now.transitions) dates.now) t number.now) }
{
    begin_row(net, dates, row, number);
    raise_row(net, dates, row, number);
    is_row(dates, row, number.get())
}

// Whether each date of these rows is the latest of what its firing waits for.
fn are_tight(net: &Net, dates: &[Date], row: &mut [Date], rows: u64) -> bool
    requires rows { AreRowsOf net.now dates.now rows }
    requires within { All (IsDateWithin greatest_least_date) dates.now }
    requires full { length row.old ≡ length net.now.transitions }
    ensures { IsTrue result ↔ AreTightUpTo net.now (listed_releases net.now)
        (date_in_rows (length net.now.transitions) dates.now) rows }
{
    for before in 0..rows {
        if !is_tight_row(net, dates, row, &FiringNumber::new(before + 1)) {
            return false;
        }
    }
    true
}

/// How many whole rows the dates are, if they are whole rows of the net and no more than the
/// greatest firing number; none else.
pub fn rows_of(net: &Net, dates: &[Date]) -> Option<u64>
    ensures none { IfNone result ((rows : ℕ) → AreRowsOf net.now dates.now rows → ⊥) }
    ensures rows { IfSome result (λ rows. AreRowsOf net.now dates.now rows) }
{
    let width = net.transitions().len();
    let rows = (dates.len() / width) as u64;
    if dates.len() % width == 0 && rows <= GREATEST_FIRING_NUMBER {
        Some(rows)
    } else {
        None
    }
}

/// Whether the dates, in the user's unit, are whole rows of the net, of which each date is the
/// latest of what its firing waits for (chapter 2): the firing before it, the tokens of the places
/// into its transition, and at an input the release. The rows stand one after another from number 1
/// on, each with one date for each transition in order; no date at all is no row.
///
/// In a live net it says yes just where they are the first rows of the least dating (`first`). It
/// says no where the dates are no whole rows, where a number is before 0 or above 2 times 10^30,
/// which no least date is, and where a date is not the latest of what its firing waits for. It
/// takes memory for one row, and time of order `n + p` a row for n transitions and p places.
pub fn check_rows(alloc: Global, net: &Net, dates: &[Date]) -> Result<bool, OutOfMemory>
    ensures tight { IfOk result (λ yes. IsTrue yes ↔ AreTightRows net.now dates.now) }
    ensures first { IsLive net.now → IfOk result (λ yes. IsTrue yes ↔ AreFirstRows net.now
        dates.now) }
{
    let width = net.transitions().len();
    let Some(rows) = rows_of(net, dates) else {
        return Ok(false);
    };
    if !all_within(dates) {
        return Ok(false);
    }
    let mut row = vec![in alloc; Date::Early; width]?;
    Ok(are_tight(net, dates, &mut row, rows))
}
