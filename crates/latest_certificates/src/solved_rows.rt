//! Whether each date of one number, in rows of latest dates that are told, is the least of what is
//! ahead of it (chapter 5).
ghost use Rattle.std.specs.Prelude.{◌≡◌, ◌<◌, ◌↔◌, All, IsTrue, length};
ghost use Rattle.dioid.specs.Dates.{IsAtMostDate, delayed};
ghost use Rattle.teg_net.specs.Circuits.{place_at};
ghost use Rattle.teg_due.specs.RowRules.{IsDueOf};
ghost use Rattle.latest_certificates.specs.SolvedRows.{AreMarked, IsMet, IsMetAhead, IsNextTight, IsPlaceKept, IsPlaceTight, IsRowKept, IsRowSolved, IsTightAt, NextIsKept};

use dating_certificates::ToldRows;
use dioid::Date;
use teg_due::DueRow;
use teg_net::{FiringNumber, PlaceId};

// Whether the first date is at most the second.
pub(crate) fn is_at_most(date: Date, other: Date) -> bool
    ensures { IsTrue result ↔ IsAtMostDate date other }
{
    match (date, other) {
        (Date::Early, _) | (_, Date::Never) => true,
        (Date::At(first), Date::At(second)) => first <= second,
        _ => false,
    }
}

// Whether the date comes a hold before the other, or earlier.
fn is_in_time(date: Date, hold: u64, other: Date) -> bool
    ensures { IsTrue result ↔ IsAtMostDate (delayed hold date) other }
{
    match (date, other) {
        (Date::Early, _) | (_, Date::Never) => true,
        (Date::At(first), Date::At(second)) => match first.checked_add(i128::from(hold)) {
            Some(sum) => sum <= second,
            None => false,
        },
        _ => false,
    }
}

// Whether the date comes just a hold before the other.
fn is_just_in_time(date: Date, hold: u64, other: Date) -> bool
    ensures { IsTrue result ↔ (delayed hold date ≡ other) }
{
    match (date, other) {
        (Date::Early, Date::Early) | (Date::Never, Date::Never) => true,
        (Date::At(first), Date::At(second)) => match first.checked_add(i128::from(hold)) {
            Some(sum) => sum == second,
            None => false,
        },
        _ => false,
    }
}

// Whether each date of this number is at most that of the next.
fn keeps_next(told: &ToldRows<'_>, number: &FiringNumber) -> bool
    ensures { IsTrue result ↔ NextIsKept told.now number.now }
{
    let at = number.get();
    for index in 0..told.width() {
        if !is_at_most(told.date(index, at), told.date(index, at + 1)) {
            return false;
        }
    }
    true
}

// Whether this firing of the start of the place comes a hold before the date at its end, or
// earlier.
fn keeps_place(told: &ToldRows<'_>, place: PlaceId, number: &FiringNumber) -> bool
    requires place { place.index < length told.now.net.places }
    ensures { IsTrue result ↔ IsPlaceKept told.now number.now (place_at told.now.net place) }
{
    let at = number.get();
    let own = &told.places()[place.index()];
    let onward = told.date(own.to.index(), at + u64::from(own.tokens));
    is_in_time(told.date(own.from.index(), at), own.hold, onward)
}

// Whether all places are kept so at this number.
fn keeps_places(told: &ToldRows<'_>, number: &FiringNumber) -> bool
    ensures { IsTrue result ↔ All (IsPlaceKept told.now number.now) told.now.net.places }
{
    for index in 0..told.places().len() {
        if !keeps_place(told, PlaceId::new(index as u32), number) {
            return false;
        }
    }
    true
}

// Whether the firing of each row comes by its due date.
pub(crate) fn keeps_rows(told: &ToldRows<'_>, rows: &[DueRow]) -> bool
    requires { IsDueOf told.now.net rows.now }
    ensures { IsTrue result ↔ All (IsRowKept told.now) rows.now }
{
    for row in rows {
        let date = told.date(row.transition.index(), u64::from(row.number));
        if !is_at_most(date, Date::At(i128::from(row.date))) {
            return false;
        }
    }
    true
}

// Whether this firing comes with the next.
fn comes_with_next(told: &ToldRows<'_>, transition: usize, number: &FiringNumber) -> bool
    requires transition { transition < length told.now.net.transitions }
    ensures { IsTrue result ↔ IsNextTight told.now number.now transition }
{
    let at = number.get();
    told.date(transition, at) == told.date(transition, at + 1)
}

// Marks the transitions of which the firing of this number comes with the next.
fn mark_next(told: &ToldRows<'_>, number: &FiringNumber, met: &mut [bool])
    requires full { length met.old ≡ length told.now.net.transitions }
    ensures { AreMarked told.now met.new (IsNextTight told.now number.now) }
{
    for index in 0..told.width() {
        met[index] = comes_with_next(told, index, number);
    }
}

// Whether this firing of the start of the place comes just a hold before the date at its end.
fn is_tight(told: &ToldRows<'_>, place: PlaceId, number: &FiringNumber) -> bool
    requires place { place.index < length told.now.net.places }
    ensures { IsTrue result ↔ IsPlaceTight told.now number.now (place_at told.now.net place) }
{
    let at = number.get();
    let own = &told.places()[place.index()];
    let onward = told.date(own.to.index(), at + u64::from(own.tokens));
    is_just_in_time(told.date(own.from.index(), at), own.hold, onward)
}

// Marks the transitions of which it comes just a hold before a date to which a place leads.
fn mark_places(told: &ToldRows<'_>, number: &FiringNumber, met: &mut [bool])
    requires marked { AreMarked told.now met.old (IsNextTight told.now number.now) }
    ensures { AreMarked told.now met.new (IsMetAhead told.now number.now) }
{
    for (index, place) in told.places().iter().enumerate() {
        let from = place.from.index();
        met[from] = met[from] | is_tight(told, PlaceId::new(index as u32), number);
    }
}

// Whether the row is of a firing of this number that comes at its due date.
fn is_tight_row(told: &ToldRows<'_>, row: &DueRow, number: &FiringNumber) -> bool
    requires transition { row.now.transition.index < length told.now.net.transitions }
    ensures { IsTrue result ↔ IsTightAt told.now number.now row.now }
{
    let at = number.get();
    if u64::from(row.number) != at {
        return false;
    }
    told.date(row.transition.index(), at) == Date::At(i128::from(row.date))
}

// Marks the transitions of which it comes at its due date.
fn mark_rows(told: &ToldRows<'_>, rows: &[DueRow], number: &FiringNumber, met: &mut [bool])
    requires due { IsDueOf told.now.net rows.now }
    requires marked { AreMarked told.now met.old (IsMetAhead told.now number.now) }
    ensures { AreMarked told.now met.new (IsMet told.now rows.now number.now) }
{
    for row in rows {
        let to = row.transition.index();
        met[to] = met[to] | is_tight_row(told, row, number);
    }
}

// Whether each date of this number is the least of what is ahead of it.
pub(crate) fn is_solved(
    told: &ToldRows<'_>,
    rows: &[DueRow],
    number: &FiringNumber,
    met: &mut [bool],
) -> bool
    requires due { IsDueOf told.now.net rows.now }
    requires full { length met.old ≡ length told.now.net.transitions }
    ensures full { length met.new ≡ length told.now.net.transitions }
    ensures solved { IsTrue result ↔ IsRowSolved told.now rows.now number.now }
{
    mark_next(told, number, met);
    mark_places(told, number, met);
    mark_rows(told, rows, number, met);
    keeps_next(told, number) && keeps_places(told, number) && met.iter().all(|met| *met)
}
