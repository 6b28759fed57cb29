//! Rows of latest dates, made anew from what is due: number by number from the last down, and in
//! each in falling order of numbers that rise along the places without tokens (chapter 5).
ghost use Rattle.std.specs.Prelude.{ℕ, pos, ◌≡◌, ◌≤◌, ◌<◌, ◌+◌, ◌-◌, ◌*◌, All, IfOk, List, Option, length, slice_index_or, slice_set};
ghost use Rattle.dioid.specs.declared.dates.Date.{Date};
ghost use Rattle.dioid.specs.declared.dates.Date.TheVariants.{At, Early};
ghost use Rattle.dioid.specs.Dates.{IsAtMostDate, delayed, earlier_of};
ghost use Rattle.teg_net.specs.Circuits.{IsLive};
ghost use Rattle.teg_net.specs.Limits.{greatest_hold, most_transitions};
ghost use Rattle.teg_due.specs.declared.rows.DueRow.{DueRow};
ghost use Rattle.teg_due.specs.RowRules.{IsDueOf, IsDueRow};
ghost use Rattle.dating_certificates.specs.CheckedRows.{date_up_to};
ghost use Rattle.latest_certificates.specs.LatestRows.{AreLatestRows, ListsDues};
ghost use Rattle.dating_check.specs.BackOrder.{IsOrderBack};
ghost use Rattle.dating_check.specs.MadeRows.{AreFrom, IsLatestFor, IsMade, IsNumberTo, date_index, greatest_fall};

use crate::back_order::{Placed, places_back};
use dioid::Date;
use std::alloc::{AllocError, Global};
use teg_due::DueRow;
use teg_net::{Net, OutOfMemory};
use witness_check::rising_numbers;

// Where the date of the firing stands in rows of this width.
fn cell_of(width: usize, transition: usize, number: u32) -> usize
    requires width { width ≤ most_transitions }
    requires transition { transition < width }
    requires number { 1 ≤ number }
    ensures { result ≡ date_index width transition number }
{
    (number as usize - 1) * width + transition
}

// The date of the firing in rows up to a number, and Never past it.
fn date_of(dates: &[Date], width: usize, numbers: u32, transition: usize, number: u64) -> Date
    requires width { width ≤ most_transitions }
    requires transition { transition < width }
    requires number { 1 ≤ number }
    requires full { length dates.now ≡ numbers * width }
    ensures { result ≡ date_up_to numbers width dates.now transition number }
{
    if number > u64::from(numbers) {
        return Date::Never;
    }
    dates[cell_of(width, transition, number as u32)]
}

// Lowers a date to this one, where it comes before.
fn lower(dates: &mut [Date], cell: usize, date: Date)
    requires { cell < length dates.old }
    ensures { dates.new ≡ slice_set dates.old cell
        (earlier_of (slice_index_or dates.old cell Early) date) }
{
    dates[cell] = dates[cell].earlier(date);
}

// The date that comes so much earlier.
fn hold_before(date: Date, hold: u64) -> Date
    requires hold { hold ≤ greatest_hold }
    requires date { IsAtMostDate (At (pos 0)) (delayed greatest_fall date) }
    ensures { delayed hold result ≡ date }
{
    match date {
        Date::At(date) => Date::At(date - i128::from(hold)),
        Date::Early | Date::Never => date,
    }
}

// The due date of the row.
fn due_date(row: &DueRow) -> Date
    ensures { result ≡ At (pos row.now.date) }
{
    Date::At(i128::from(row.date))
}

// Rows up to a number in which each firing has its due date, and Never where it has none.
fn begin(alloc: Global, net: &Net, rows: &[DueRow], numbers: u32) -> Result<Vec<Date>, AllocError>
    requires each { All (IsDueRow net.now) rows.now }
    requires most { All (λ r. r.number ≤ numbers) rows.now }
    ensures full { IfOk result (λ dates. length dates.items
        ≡ numbers * length net.now.transitions) }
    ensures made { IfOk result (λ dates. (y : ℕ → ℕ → Date) → IsLatestFor net.now rows.now y
        → IsMade net.now rows.now numbers numbers 0 y dates.items) }
    ensures from { IfOk result (λ dates. AreFrom 0 dates.items) }
{
    let width = net.transitions().len();
    let mut dates = vec![in alloc; Date::Never; numbers as usize * width]?;
    for row in rows {
        let cell = cell_of(width, row.transition.index(), row.number);
        lower(&mut dates, cell, due_date(row));
    }
    Ok(dates)
}

// Lowers the dates of the number to those of the next.
fn pass_next(net: &Net, dates: &mut [Date], numbers: u32, number: u32)
    requires number { IsNumberTo numbers number }
    requires full { length dates.old ≡ numbers * length net.now.transitions }
    ensures full { length dates.new ≡ numbers * length net.now.transitions }
    ensures made { (rows : List DueRow) (y : ℕ → ℕ → Date) → IsLatestFor net.now rows y
        → IsMade net.now rows numbers number 0 y dates.old
        → IsMade net.now rows numbers number (length net.now.transitions) y dates.new }
    ensures from { (fall : ℕ) → AreFrom fall dates.old → AreFrom fall dates.new }
{
    let width = net.transitions().len();
    for index in 0..width {
        let next = date_of(dates, width, numbers, index, u64::from(number) + 1);
        lower(dates, cell_of(width, index, number), next);
    }
}

// Lowers the dates of the number to what each place leaves of the date at its end.
fn pass_places(net: &Net, order: &[Placed], dates: &mut [Date], numbers: u32, number: u32)
    requires order { IsOrderBack net.now order.now }
    requires number { IsNumberTo numbers number }
    requires full { length dates.old ≡ numbers * length net.now.transitions }
    requires from { (fall : ℕ) × (fall + 4000000000000 ≤ greatest_fall) × AreFrom fall dates.old }
    ensures full { length dates.new ≡ numbers * length net.now.transitions }
    ensures made { (rows : List DueRow) (y : ℕ → ℕ → Date) → IsLatestFor net.now rows y
        → IsMade net.now rows numbers number (length net.now.transitions) y dates.old
        → IsMade net.now rows numbers (number - 1) 0 y dates.new }
    ensures from { (fall : ℕ) → AreFrom fall dates.old → AreFrom (fall + 4000000000000) dates.new }
{
    let places = net.places();
    let width = net.transitions().len();
    for placed in order {
        let place = &places[placed.place.index()];
        let end = u64::from(number) + u64::from(place.tokens);
        let onward = date_of(dates, width, numbers, place.to.index(), end);
        let cell = cell_of(width, place.from.index(), number);
        lower(dates, cell, hold_before(onward, place.hold));
    }
}

// Makes the dates of the number from those of greater ones.
fn pass_number(net: &Net, order: &[Placed], dates: &mut [Date], numbers: u32, number: u32)
    requires order { IsOrderBack net.now order.now }
    requires number { IsNumberTo numbers number }
    requires full { length dates.old ≡ numbers * length net.now.transitions }
    requires from { (fall : ℕ) × (fall + 4000000000000 ≤ greatest_fall) × AreFrom fall dates.old }
    ensures full { length dates.new ≡ numbers * length net.now.transitions }
    ensures made { (rows : List DueRow) (y : ℕ → ℕ → Date) → IsLatestFor net.now rows y
        → IsMade net.now rows numbers number 0 y dates.old
        → IsMade net.now rows numbers (number - 1) 0 y dates.new }
    ensures from { (fall : ℕ) → AreFrom fall dates.old → AreFrom (fall + 4000000000000) dates.new }
{
    pass_next(net, dates, numbers, number);
    pass_places(net, order, dates, numbers, number);
}

// The dates of each number, from the last down.
fn rows_back(
    alloc: Global,
    net: &Net,
    order: &[Placed],
    rows: &[DueRow],
    numbers: u32,
) -> Result<Vec<Date>, AllocError>
    requires order { IsOrderBack net.now order.now }
    requires each { All (IsDueRow net.now) rows.now }
    requires most { All (λ r. r.number ≤ numbers) rows.now }
    ensures full { IfOk result (λ dates. length dates.items
        ≡ numbers * length net.now.transitions) }
    ensures made { IfOk result (λ dates. (y : ℕ → ℕ → Date) → IsLatestFor net.now rows.now y
        → IsMade net.now rows.now numbers 0 0 y dates.items) }
{
    let mut dates = begin(alloc, net, rows, numbers)?;
    for done in 0..numbers {
        pass_number(net, order, &mut dates, numbers, numbers - done);
    }
    Ok(dates)
}

// The latest dates of a live net up to a number for these due dates, in the user's unit: a row of a
// date for each transition in order, one row after another from number 1 on. It takes memory for
// them and for the order of the places, and time of order `n + p` a number for n transitions and p
// places, and of order `n p` for the order.
pub(crate) fn latest_rows(
    alloc: Global,
    net: &Net,
    rows: &[DueRow],
    numbers: u32,
) -> Result<Vec<Date>, OutOfMemory>
    requires live { IsLive net.now }
    requires due { IsDueOf net.now rows.now }
    requires most { All (λ r. r.number ≤ numbers) rows.now }
    ensures { IfOk result (λ dates. (due : ℕ → ℕ → Option ℕ) → ListsDues rows.now due
        → AreLatestRows net.now due numbers dates.items) }
{
    net.rules();
    let ranks = rising_numbers(alloc, net, false)?.unwrap();
    let order = places_back(alloc, net, &ranks)?;
    Ok(rows_back(alloc, net, &order, rows, numbers)?)
}
