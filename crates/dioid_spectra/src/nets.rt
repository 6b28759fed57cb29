//! The net of a matrix: a transition for each row, and a place for each number.
ghost use Rattle.std.specs.Prelude.{◌≡◌, ◌<◌, ◌≤◌, ◌*◌, ◌+ℤ◌, ◌≤ℤ◌, ◌<ℤ◌, pos, IfOk, IfErr, IfSome, IfNone, IsFalse, IsTrue, OnOk, Some, length, slice_index_or, ℕ};
ghost use Rattle.dioid.specs.declared.dates.Date.TheVariants.{Early};
ghost use Rattle.teg_net.specs.Limits.{greatest_hold};
ghost use Rattle.dioid_spectra.specs.MatrixNets.{ArePlacesOf, IsLeastNumber, IsLowest, IsNear, IsNetOf, IsPlaceFor, IsPlain, IsWhyNoSpectrum, least_with, lesser_of};

use crate::refusals::NoSpectrum;
use dioid::Date;
use dioid_matrix::Matrix;
use std::alloc::Global;
use teg_net::{
    DateList, GREATEST_HOLD, Name, Net, OutOfMemory, Place, Role, Transition, TransitionId,
};

// The greatest magnitude of an entry.
const GREATEST_ENTRY: i128 = 1_000_000_000_000_000_000;

// Whether the number is of a magnitude of at most 10^18.
fn is_near(number: i128) -> bool
    ensures yes { IsTrue result → IsNear number }
    ensures no { IsFalse result → IsNear number → ⊥ }
{
    -GREATEST_ENTRY <= number && number <= GREATEST_ENTRY
}

// The entry at this place of the list by rows.
fn entry_in(a: &Matrix<Date>, place: usize) -> Date
    requires { place < a.now.rows * a.now.columns }
    ensures { result ≡ slice_index_or a.now.entries place Early }
{
    let columns = a.columns();
    *a.entry(place / columns, place % columns)
}

// How many entries the matrix has.
fn entry_count(a: &Matrix<Date>) -> usize
    ensures { result ≡ a.now.rows * a.now.columns }
{
    a.rows() * a.columns()
}

// That the entry at this place of the list by rows is Early or a number of a magnitude of at most
// 10^18.
fn check_entry(a: &Matrix<Date>, place: usize) -> Result<(), NoSpectrum>
    requires { place < a.now.rows * a.now.columns }
    ensures plain { OnOk result (IsPlain (slice_index_or a.now.entries place Early)) }
    ensures refused { IfErr result (IsWhyNoSpectrum a.now) }
{
    let columns = a.columns();
    let (row, column) = (place / columns, place % columns);
    match *a.entry(row, column) {
        Date::Early => Ok(()),
        Date::Never => Err(NoSpectrum::Never { row, column }),
        Date::At(number) => {
            if is_near(number) {
                Ok(())
            } else {
                Err(NoSpectrum::Far { row, column })
            }
        }
    }
}

// That each entry is so.
fn check_entries(a: &Matrix<Date>) -> Result<(), NoSpectrum>
    ensures plain { OnOk result ((k : ℕ) → k < a.now.rows * a.now.columns
        → IsPlain (slice_index_or a.now.entries k Early)) }
    ensures refused { IfErr result (IsWhyNoSpectrum a.now) }
{
    for place in 0..entry_count(a) {
        check_entry(a, place)?;
    }
    Ok(())
}

// The lesser of a number and the least before it.
fn lesser(low: Option<i128>, number: i128) -> i128
    ensures { result ≡ lesser_of low number }
{
    match low {
        None => number,
        Some(low) => { if number < low { number } else { low } }
    }
}

// The least number with one entry more.
fn least_with(low: Option<i128>, entry: Date) -> Option<i128>
    ensures { result ≡ least_with low entry }
{
    match entry {
        Date::Early | Date::Never => low,
        Date::At(number) => Some(lesser(low, number)),
    }
}

// The least number of a matrix of plain entries; none where it has no number.
fn least_of(a: &Matrix<Date>) -> Option<i128>
    requires { (k : ℕ) → k < a.now.rows * a.now.columns
        → IsPlain (slice_index_or a.now.entries k Early) }
    ensures { IsLeastNumber a.now.entries (a.now.rows * a.now.columns) result }
{
    let mut low = None;
    for place in 0..entry_count(a) {
        low = least_with(low, entry_in(a, place));
    }
    low
}

// The least number of the matrix, of which each entry is Early or a number of a magnitude of at
// most 10^18; none where no entry is a number.
pub(crate) fn lowest(a: &Matrix<Date>) -> Result<Option<i128>, NoSpectrum>
    ensures lowest { IfOk result (IsLowest a.now.entries (a.now.rows * a.now.columns)) }
    ensures refused { IfErr result (IsWhyNoSpectrum a.now) }
{
    check_entries(a)?;
    Ok(least_of(a))
}

// By how much a number is above the least one; none where that is more than a place is held.
fn above(low: i128, number: i128) -> Option<u64>
    requires low { IsNear low }
    requires number { IsNear number }
    requires order { low ≤ℤ number }
    ensures some { IfSome result (λ hold. number ≡ low +ℤ pos hold) }
    ensures wide { IfNone result ((low +ℤ pos greatest_hold) <ℤ number) }
{
    let time = number - low;
    if i128::from(GREATEST_HOLD) < time {
        None
    } else {
        Some(time as u64)
    }
}

// A letter with a number, as a name.
fn numbered(alloc: Global, letter: &str, number: usize) -> Result<Name, OutOfMemory> {
    let text = format!(in alloc; "{letter}{number}")?;
    match Name::new(alloc, text.as_str()) {
        Ok(name) => Ok(name),
        Err(_) => Err(OutOfMemory),
    }
}

// A place with a token for the number in this row and column.
fn place_of(
    alloc: Global,
    number: usize,
    row: usize,
    column: usize,
    hold: u64,
) -> Result<Place, OutOfMemory>
    requires row { row < 4096 }
    requires column { column < 4096 }
    ensures to { IfOk result (λ p. p.to.index ≡ row) }
    ensures from { IfOk result (λ p. p.from.index ≡ column) }
    ensures hold { IfOk result (λ p. p.hold ≡ hold) }
    ensures token { IfOk result (λ p. p.tokens ≡ 1) }
{
    let name = numbered(alloc, "p", number)?;
    Ok(Place {
        name,
        from: TransitionId {
            index: column as u32,
        },
        to: TransitionId { index: row as u32 },
        hold,
        tokens: 1,
        ready: DateList::new(Vec::new(alloc)),
    })
}

// The place of the number at this place of the list by rows, if there is a number.
fn place_for(
    alloc: Global,
    a: &Matrix<Date>,
    low: i128,
    place: usize,
) -> Result<Option<Place>, NoSpectrum>
    requires lowest { IsLowest a.now.entries (a.now.rows * a.now.columns) (Some low) }
    requires place { place < a.now.rows * a.now.columns }
    ensures place { IfOk result (IsPlaceFor a.now low place) }
    ensures refused { IfErr result (IsWhyNoSpectrum a.now) }
{
    let columns = a.columns();
    let (row, column) = (place / columns, place % columns);
    let Date::At(number) = *a.entry(row, column) else {
        return Ok(None);
    };
    let Some(hold) = above(low, number) else {
        return Err(NoSpectrum::Wide { row, column });
    };
    let place = place_of(alloc, place, row, column, hold)?;
    Ok(Some(place))
}

// A place for each number.
fn places_of(alloc: Global, a: &Matrix<Date>, low: i128) -> Result<Vec<Place>, NoSpectrum>
    requires { IsLowest a.now.entries (a.now.rows * a.now.columns) (Some low) }
    ensures places { IfOk result (λ places. ArePlacesOf a.now low (a.now.rows * a.now.columns)
        places.items) }
    ensures refused { IfErr result (IsWhyNoSpectrum a.now) }
{
    let mut places = Vec::new(alloc);
    for number in 0..entry_count(a) {
        match place_for(alloc, a, low, number)? {
            Some(place) => places.push(place)?,
            None => {}
        }
    }
    Ok(places)
}

// So many transitions.
fn transitions_of(alloc: Global, rows: usize) -> Result<Vec<Transition>, OutOfMemory>
    ensures { IfOk result (λ transitions. length transitions.items ≡ rows) }
{
    let mut transitions = Vec::new(alloc);
    for row in 0..rows {
        let name = numbered(alloc, "t", row)?;
        let transition = Transition {
            name,
            role: Role::Internal,
        };
        if transitions.push(transition).is_err() {
            return Err(OutOfMemory);
        }
    }
    Ok(transitions)
}

// The net of the matrix.
pub(crate) fn net_of(alloc: Global, a: &Matrix<Date>, low: i128) -> Result<Net, NoSpectrum>
    requires { IsLowest a.now.entries (a.now.rows * a.now.columns) (Some low) }
    ensures net { IfOk result (IsNetOf a.now low) }
    ensures refused { IfErr result (IsWhyNoSpectrum a.now) }
{
    let transitions = transitions_of(alloc, a.rows())?;
    let places = places_of(alloc, a, low)?;
    match Net::checked(transitions, places, Vec::new(alloc)) {
        Ok(net) => Ok(net),
        Err(fault) => Err(NoSpectrum::NoNet { fault }),
    }
}
