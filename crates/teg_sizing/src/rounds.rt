//! The greatest values of paths, round by round (the algorithm of Bellman and Ford): the paths of a
//! round have at most one place more than those of the round before.
ghost use Rattle.std.specs.Prelude.{◌+◌, ◌≡◌, ◌≢◌, ◌≤◌, ◌<◌, length, IfOk, IfNone, IfSome, IsTrue, false, Some, None};
ghost use Rattle.teg_net.specs.Limits.{greatest_hold, most_place_tokens};
ghost use Rattle.teg_net.specs.Nets.{IsNet};
ghost use Rattle.teg_net.specs.ReducedTimes.{reduced_time_of_place};
ghost use Rattle.teg_sizing.specs.TracedPaths.{HaveToldAll, last_round};
ghost use Rattle.teg_sizing.specs.Surpluses.{IsToldMore, NoneIsBetter};
ghost use Rattle.teg_sizing.specs.ValueRounds.{IsTarget, value_told, most_value, AreValuesWithin, IsAtLeast, IsOffered, AreFresh, IsRoundAfter, AreRounds};

use std::alloc::{AllocError, Global};
use std::marker::Model;
use teg_net::{Net, Place, PlaceId, Ratio};

// What is told of a transition: the greatest value of the paths that end there, none where there
// is none; and their last place, where they are not those of the round before.
#[derive(Clone, Copy)]
pub(crate) struct ValueCell {
    pub(crate) value: Option<i128>,
    pub(crate) by: Option<PlaceId>,
}

// What is asked: a net, a target ratio, and the place that the rounds leave out.
#[derive(Drop)]
pub(crate) struct Asked<'a> {
    pub(crate) net: &'a Net,
    pub(crate) target: Ratio,
    pub(crate) place: PlaceId,
}

// What a round tells of each transition. Contracts see the list.
#[derive(Drop)]
pub(crate) struct ValueRound {
    cells: Vec<ValueCell>,
}

impl Model for ValueRound {
    ghost use Rattle.std.specs.Prelude.{List};
    ghost use Rattle.teg_sizing.specs.declared.rounds.ValueCell.{ValueCell};

    ghost Value = { List ValueCell };

    ghost view = { λ r. r.cells.items };
}

impl ValueRound {
    // The round that tells this.
    pub(crate) fn new(cells: Vec<ValueCell>) -> ValueRound
        ensures { result ≡ cells.items }
    {
        ValueRound { cells }
    }

    // What it tells.
    pub(crate) fn cells(&self) -> &[ValueCell]
        ensures { result.now ≡ self.now }
    {
        &self.cells
    }
}

// What a place adds to the value of a path: the target's tokens times its hold, less the target's
// time times its tokens.
pub(crate) fn weight(target: Ratio, place: &Place) -> i128
    requires target { IsTarget target }
    requires hold { place.now.hold ≤ greatest_hold }
    requires tokens { place.now.tokens ≤ most_place_tokens }
    ensures { result ≡ reduced_time_of_place target place.now }
{
    let gain = i128::from(target.tokens()) * i128::from(place.hold);
    let cost = i128::from(target.time()) * i128::from(place.tokens);
    gain - cost
}

// The value of the best path that ends with this place, unless it is the one to be left out.
fn offer(
    target: Ratio,
    except: PlaceId,
    before: &[ValueCell],
    id: PlaceId,
    place: &Place,
) -> Option<i128>
    requires target { IsTarget target }
    requires place { (place.now.hold ≤ greatest_hold) × (place.now.tokens ≤ most_place_tokens)
        × (place.now.from.index < length before.now) }
    requires small { AreValuesWithin most_value before.now }
    ensures none { IfNone result (id.index ≢ except.index → value_told before.now
        place.now.from.index
        ≡ None) }
    ensures some { IfSome result (IsOffered target except before.now id place.now) }
{
    if id.index == except.index {
        return None;
    }
    let value = before[place.from.index as usize].value?;
    Some(value + weight(target, place))
}

// Whether nothing is told yet, or less than is offered.
fn is_more(offered: i128, told: Option<i128>) -> bool
    ensures more { IsTrue result → IsAtLeast told offered → ⊥ }
    ensures no_more { result ≡ false → IsAtLeast told offered }
{
    match told {
        None => true,
        Some(told) => told < offered,
    }
}

// The same values, by no place yet.
fn fresh(alloc: Global, before: &[ValueCell]) -> Result<Vec<ValueCell>, AllocError>
    ensures { IfOk result (λ cells. AreFresh before.now cells.items) }
{
    let mut cells = Vec::new(alloc);
    for cell in before {
        cells.push(ValueCell {
            value: cell.value,
            by: None,
        })?;
    }
    Ok(cells)
}

// The round after: the paths with one place more.
fn round_after(
    alloc: Global,
    net: &Net,
    target: Ratio,
    except: PlaceId,
    before: &[ValueCell],
) -> Result<ValueRound, AllocError>
    requires target { IsTarget target }
    requires count { length before.now ≡ length net.now.transitions }
    requires small { AreValuesWithin most_value before.now }
    ensures after { IfOk result (IsRoundAfter net.now target except before.now) }
    ensures rules { IfOk result (λ _. IsNet net.now) }
{
    let mut after = fresh(alloc, before)?;
    for (index, place) in net.places().iter().enumerate() {
        let id = PlaceId {
            index: index as u32,
        };
        if let Some(offered) = offer(target, except, before, id, place) {
            let to = place.to.index as usize;
            if is_more(offered, after[to].value) {
                after[to] = ValueCell {
                    value: Some(offered),
                    by: Some(id),
                };
            }
        }
    }
    Ok(ValueRound::new(after))
}

// A transition of which the round tells more than the one before.
pub(crate) fn better_at(cells: &[ValueCell]) -> Option<usize>
    ensures none { IfNone result (NoneIsBetter cells.now) }
    ensures some { IfSome result (IsToldMore cells.now) }
{
    for (index, cell) in cells.iter().enumerate() {
        if cell.by.is_some() {
            return Some(index);
        }
    }
    None
}

// What the last round tells.
pub(crate) fn last_cells(rounds: &[ValueRound]) -> &[ValueCell]
    requires { 1 ≤ length rounds.now }
    ensures { result.now ≡ last_round rounds.now }
{
    rounds[rounds.len() - 1].cells()
}

// The first round and so many after it; fewer where one tells no more than that before it, since
// those after it would tell no more either.
pub(crate) fn rounds(
    alloc: Global,
    asked: &Asked,
    first: ValueRound,
    count: usize,
) -> Result<Vec<ValueRound>, AllocError>
    requires target { IsTarget asked.now.target }
    requires long { length first ≡ length asked.now.net.now.transitions }
    requires small { AreValuesWithin 0 first }
    requires count { count ≤ 401 }
    ensures rounds { IfOk result (λ rounds. AreRounds asked.now.net.now asked.now.target
        asked.now.place first rounds.items) }
    ensures all { IfOk result (λ rounds. HaveToldAll asked.now.net.now asked.now.target
        asked.now.place first count rounds.items) }
{
    let Asked { net, target, place } = *asked;
    let mut rounds = Vec::new(alloc);
    rounds.push(first)?;
    for _number in 0..count {
        let after = round_after(alloc, net, target, place, last_cells(&rounds))?;
        let is_last = better_at(after.cells()).is_none();
        rounds.push(after)?;
        if is_last {
            return Ok(rounds);
        }
    }
    Ok(rounds)
}
