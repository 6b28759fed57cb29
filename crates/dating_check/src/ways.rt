//! Whether the dates of a table are attained by the steps that its lines name.
ghost use Rattle.std.specs.Prelude.{ℕ, pos, ◌≡◌, ◌+◌, ◌-◌, ◌*◌, ◌<◌, ◌≤◌, Any, IsTrue};
ghost use Rattle.dioid.specs.declared.dates.Date.TheVariants.{At};
ghost use Rattle.dioid.specs.Dates.{delayed};
ghost use Rattle.teg_net.specs.Circuits.{from_of, place_at};
ghost use Rattle.teg_net.specs.Limits.{most_transitions};
ghost use Rattle.dating_certificates.specs.CheckedRows.{date_up_to};
ghost use Rattle.latest_certificates.specs.LatestRows.{IsRowOf};
ghost use Rattle.dating_check.specs.ShownTables.{AreAttained, IsAttained, way_in_rows};

use crate::rows::date_in_rows;
use crate::table::TableRows;
use dioid::Date;
use teg_due::DueRow;
use teg_net::{Net, PlaceId, Step, TransitionId};

// The date of this firing in the rows, and Never past the last number.
fn date_up_to(rows: TableRows<'_>, transition: TransitionId, number: u64) -> Date
    requires width { rows.width ≤ most_transitions }
    requires number { 1 ≤ number }
    ensures { result ≡ date_up_to rows.entry.numbers rows.entry.width rows.entry.dates.now transition.index number }
{
    if u64::from(rows.numbers) < number {
        return Date::Never;
    }
    date_in_rows(rows.width, rows.dates, transition, number as u32)
}

// Whether the row at this place of the list says that the firing is due at the date.
fn is_due(due: &[DueRow], place: usize, transition: TransitionId, number: u32, date: Date) -> bool
    ensures { IsTrue result → (d : ℕ) × Any (λ r. IsRowOf r transition.index number d) due.now
        × (date ≡ At (pos d)) }
{
    let Some(row) = due.get(place) else {
        return false;
    };
    row.transition.index == transition.index
        && row.number == number
        && date == Date::At(i128::from(row.date))
}

// Whether the second date is just so much later.
fn is_later_by(date: Date, hold: u64, other: Date) -> bool
    ensures { IsTrue result → other ≡ delayed hold date }
{
    match (date, other) {
        (Date::At(date), Date::At(other)) => date.checked_add(i128::from(hold)) == Some(other),
        _ => false,
    }
}

// Whether the place leads from the firing to one that comes just its holding time later.
fn leads_on(
    net: &Net,
    rows: TableRows<'_>,
    place: PlaceId,
    transition: TransitionId,
    number: u32,
) -> bool
    requires width { rows.width ≤ most_transitions }
    requires number { 1 ≤ number }
    ensures from { IsTrue result → from_of net.now place ≡ transition.index }
    ensures tight { IsTrue result → date_up_to rows.entry.numbers rows.entry.width rows.entry.dates.now
        (place_at net.now place).to.index (number + (place_at net.now place).tokens)
        ≡ delayed (place_at net.now place).hold
        (date_up_to rows.entry.numbers rows.entry.width rows.entry.dates.now transition.index number) }
{
    let Some(own) = net.places().get(place.index()) else {
        return false;
    };
    let date = date_up_to(rows, transition, u64::from(number));
    let onward = u64::from(number) + u64::from(own.tokens);
    own.from.index == transition.index
        && is_later_by(date, own.hold, date_up_to(rows, own.to, onward))
}

// Whether the firing comes with the next one.
fn comes_with_next(rows: TableRows<'_>, transition: TransitionId, number: u32) -> bool
    requires width { rows.width ≤ most_transitions }
    requires number { 1 ≤ number }
    ensures { IsTrue result → date_up_to rows.entry.numbers rows.entry.width rows.entry.dates.now
        transition.index (number + 1)
        ≡ date_up_to rows.entry.numbers rows.entry.width rows.entry.dates.now transition.index number }
{
    let date = date_up_to(rows, transition, u64::from(number));
    date_up_to(rows, transition, u64::from(number) + 1) == date
}

// Where the date and the step of this firing stand.
fn cell(width: usize, transition: TransitionId, number: u32) -> usize
    requires width { width ≤ most_transitions }
    requires number { 1 ≤ number }
    ensures { result ≡ (number - 1) * width + transition.index }
{
    (number as usize - 1) * width + transition.index as usize
}

// The step of this firing.
fn way_at(rows: TableRows<'_>, transition: TransitionId, number: u32) -> Option<Step>
    requires width { rows.width ≤ most_transitions }
    requires number { 1 ≤ number }
    ensures { result ≡ way_in_rows rows.entry.width rows.entry.ways.now transition.index number }
{
    match rows.ways.get(cell(rows.width, transition, number)) {
        Some(way) => *way,
        None => None,
    }
}

// Whether the firing is free, or its date is attained by its step.
fn is_attained(net: &Net, rows: TableRows<'_>, transition: TransitionId, number: u32) -> bool
    requires width { rows.width ≤ most_transitions }
    requires number { 1 ≤ number }
    ensures { IsTrue result → IsAttained net.now rows.entry.due.now rows.entry.numbers rows.entry.width
        rows.entry.dates.now rows.entry.ways.now transition.index number }
{
    let date = date_up_to(rows, transition, u64::from(number));
    if date == Date::Never {
        return true;
    }
    match way_at(rows, transition, number) {
        None => {
            let place = rows.due_places.get(cell(rows.width, transition, number));
            match place {
                Some(place) => is_due(rows.due, *place, transition, number, date),
                None => false,
            }
        }
        Some(Step::Next) => comes_with_next(rows, transition, number),
        Some(Step::By(place)) => leads_on(net, rows, place, transition, number),
    }
}

// Whether so is each firing of this number.
fn are_attained_at(net: &Net, rows: TableRows<'_>, number: u32) -> bool
    requires width { rows.width ≤ most_transitions }
    requires number { 1 ≤ number }
    ensures { IsTrue result → (t : ℕ) → t < rows.entry.width → IsAttained net.now rows.entry.due.now
        rows.entry.numbers rows.entry.width rows.entry.dates.now rows.entry.ways.now t number }
{
    for index in 0..rows.width {
        if !is_attained(net, rows, TransitionId::new(index as u32), number) {
            return false;
        }
    }
    true
}

// Whether so is each firing of the table.
pub(crate) fn are_attained(net: &Net, rows: TableRows<'_>) -> bool
    requires width { rows.width ≤ most_transitions }
    ensures { IsTrue result → AreAttained net.now rows.entry.due.now rows.entry.numbers rows.entry.width
        rows.entry.dates.now rows.entry.ways.now }
{
    for before in 0..rows.numbers {
        if !are_attained_at(net, rows, before + 1) {
            return false;
        }
    }
    true
}
