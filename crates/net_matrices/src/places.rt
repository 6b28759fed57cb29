//! The matrix of a net: for each two transitions the series of the places between them.
ghost use Rattle.std.specs.Prelude.{◌≡◌, ◌<◌, ◌≤◌, IfOk, IsFalse, IsTrue, All, length};
ghost use Rattle.series_form.specs.declared.forms.SeriesRefused.TheVariants.{OutOfMemory};
ghost use Rattle.teg_net.specs.Nets.{IsNet};
ghost use Rattle.net_matrices.specs.NetEntries.{IsMatrixOfNet};
ghost use Rattle.net_matrices.specs.PlacesBetween.{AreBetween, AreTokensUpTo, AreValuesOf, IsBetween, IsEntryOf, IsLatestOf};

use dioid::Date;
use dioid_matrix::Matrix;
use series_form::{Series, SeriesRefused};
use series_ops::Gain;
use std::alloc::{AllocError, Global};
use teg_net::{Net, PlaceId};

// Whether the place leads from one transition to another.
fn is_between(net: &Net, to: usize, from: usize, id: PlaceId) -> bool
    requires { id.index < length net.now.places }
    ensures yes { IsTrue result → IsBetween net.now to from id }
    ensures no { IsFalse result → IsBetween net.now to from id → ⊥ }
{
    let place = net.place(id);
    place.to.index() == to && place.from.index() == from
}

// The places from one transition to another.
#[tactic(auto, using(crate::proofs::PlaceValues::between_none, crate::proofs::PlaceValues::between_more, crate::proofs::PlaceValues::between_same))]
fn between(alloc: Global, net: &Net, to: usize, from: usize) -> Result<Vec<PlaceId>, AllocError>
    ensures { IfOk result (λ ids. AreBetween net.now to from (length net.now.places) ids.items) }
{
    let mut ids = Vec::new(alloc);
    for index in 0..net.place_count() {
        let id = PlaceId::new(index);
        if is_between(net, to, from, id) {
            ids.push(id)?;
        }
    }
    Ok(ids)
}

// The most tokens of these places, 0 where there are none.
#[tactic(auto, using(crate::proofs::PlaceValues::tokens_none, crate::proofs::PlaceValues::tokens_more))]
fn most_tokens(net: &Net, ids: &[PlaceId]) -> u32
    requires net { IsNet net.now }
    requires ids { All (λ p. p.index < length net.now.places) ids.now }
    ensures { AreTokensUpTo net.now ids.now (length ids.now) result }
{
    let mut most = 0;
    for index in 0..ids.len() {
        let tokens = net.place(ids[index]).tokens;
        if most < tokens {
            most = tokens;
        }
    }
    most
}

// The latest that these places ask for at a shift.
#[tactic(auto, using(crate::proofs::PlaceValues::latest_none, crate::proofs::PlaceValues::latest_more, crate::proofs::PlaceValues::latest_same))]
fn latest_at(net: &Net, ids: &[PlaceId], shift: u32) -> Date
    requires { All (λ p. p.index < length net.now.places) ids.now }
    ensures { IsLatestOf net.now ids.now shift (length ids.now) result }
{
    let mut latest = Date::Early;
    for index in 0..ids.len() {
        let place = net.place(ids[index]);
        if place.tokens <= shift {
            latest = latest.later(Date::At(i128::from(place.hold)));
        }
    }
    latest
}

// The values of the entry for two transitions, up to the most tokens of a place between them.
#[tactic(auto, using(crate::proofs::PlaceValues::listed_none))]
fn values_between(alloc: Global, net: &Net, to: usize, from: usize) -> Result<Vec<Date>, AllocError>
    requires { IsNet net.now }
    ensures { IfOk result (λ values. AreValuesOf net.now to from values.items) }
{
    let ids = between(alloc, net, to, from)?;
    let count = most_tokens(net, &ids) + 1;
    let mut values = Vec::new(alloc);
    for shift in 0..count {
        values.push(latest_at(net, &ids, shift))?;
    }
    Ok(values)
}

// A refusal for want of memory.
fn no_memory(_why: SeriesRefused) -> AllocError
    requires { _why ≡ OutOfMemory }
{
    AllocError
}

// The entry for two transitions.
fn entry_between(alloc: Global, net: &Net, to: usize, from: usize) -> Result<Gain, AllocError>
    requires { IsNet net.now }
    ensures { IfOk result (IsEntryOf net.now to from) }
{
    let values = values_between(alloc, net, to, from)?;
    match Series::from_list(alloc, &values, 1, 0) {
        Ok(series) => Ok(Gain { series }),
        Err(why) => Err(no_memory(why)),
    }
}

/// The matrix of a net over periodic series, with a row and a column for each transition (chapters
/// 5 and 6): the entry in row t and column i is the latest, at each shift, of what the places from
/// i to t ask for, each its holding time from as many shifts on as it has tokens; a transition pair
/// without a place has `Early` everywhere. Shift k stands for firing k + 1.
///
/// `AllocError` comes only where no memory is found. For n transitions and p places it looks at
/// each place n^2 times.
pub fn matrix_of_net(alloc: Global, net: &Net) -> Result<Matrix<Gain>, AllocError>
    ensures { IfOk result (IsMatrixOfNet net.now) }
{
    net.rules();
    let width = net.transitions().len();
    let mut entries = Vec::new(alloc);
    for place in 0..width * width {
        let entry = entry_between(alloc, net, place / width, place % width)?;
        entries.push(entry)?;
    }
    match Matrix::new(width, width, entries) {
        Ok(matrix) => Ok(matrix),
        Err(_) => unreachable!(),
    }
}
