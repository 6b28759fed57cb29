//! Circuits above the target: those that avoid the place, and the best of those that pass it.
ghost use Rattle.std.specs.Prelude.{◌<◌, length, IfOk, IfNone, IfSome, Some};
ghost use Rattle.teg_net.specs.Nets.{IsNet};
ghost use Rattle.teg_sizing.specs.TracedPaths.{last_round};
ghost use Rattle.teg_sizing.specs.ValueRounds.{IsTarget};
ghost use Rattle.teg_sizing.specs.Surpluses.{NoneIsAbove, IsAboveApart, StartsEverywhere, StartsFrom, IsToldMore, AreRoundsApart, AreRoundsBack, NonePasses, IsBestThrough};

use crate::loops::first_loop;
use crate::rounds::{Asked, ValueCell, ValueRound, better_at, last_cells, rounds, weight};
use crate::tracing::trace;
use std::alloc::{AllocError, Global};
use teg_net::{Net, PlaceId, Ratio, TransitionId};

// The circuit of greatest value among those that pass a place, and that value.
#[derive(Drop)]
pub(crate) struct Through {
    pub(crate) value: i128,
    pub(crate) places: Vec<PlaceId>,
}

// The empty paths from each transition.
fn everywhere(alloc: Global, count: usize) -> Result<ValueRound, AllocError>
    ensures { IfOk result (StartsEverywhere count) }
{
    let cell = ValueCell {
        value: Some(0),
        by: None,
    };
    Ok(ValueRound::new(vec![in alloc; cell; count]?))
}

// The empty path from one transition.
fn only_at(alloc: Global, count: usize, start: TransitionId) -> Result<ValueRound, AllocError>
    requires { start.index < count }
    ensures { IfOk result (StartsFrom count start.index) }
{
    let cell = ValueCell {
        value: None,
        by: None,
    };
    let mut cells = vec![in alloc; cell; count]?;
    cells[start.index as usize].value = Some(0);
    Ok(ValueRound::new(cells))
}

// The rounds from everywhere, by all places but this one.
pub(crate) fn rounds_apart(
    alloc: Global,
    net: &Net,
    target: Ratio,
    place: PlaceId,
) -> Result<Vec<ValueRound>, AllocError>
    requires { IsTarget target }
    ensures apart { IfOk result (λ all. AreRoundsApart net.now target place all.items) }
    ensures rules { IfOk result (λ _. IsNet net.now) }
{
    let count = net.transitions().len();
    let first = everywhere(alloc, count)?;
    let asked = Asked { net, target, place };
    let all = rounds(alloc, &asked, first, count + 1)?;
    Ok(all)
}

// A circuit in the path by which the last of these rounds tells more of the transition.
fn loop_of(
    alloc: Global,
    asked: &Asked,
    all: &[ValueRound],
    end: usize,
) -> Result<Vec<PlaceId>, AllocError>
    requires rules { IsNet asked.now.net.now }
    requires apart { AreRoundsApart asked.now.net.now asked.now.target asked.now.place all.now }
    requires better { IsToldMore (last_round all.now) end }
    ensures { IfOk result (λ own. IsAboveApart asked.now.net.now asked.now.target asked.now.place
        own.items) }
{
    let path = trace(alloc, asked.net, all, end)?;
    let own = first_loop(alloc, asked.net, &path)?;
    Ok(own)
}

// A circuit above the target that avoids the place; none where there is none.
pub(crate) fn above_apart(
    alloc: Global,
    net: &Net,
    target: Ratio,
    place: PlaceId,
) -> Result<Option<Vec<PlaceId>>, AllocError>
    requires target { IsTarget target }
    ensures none { IfOk result (λ found. IfNone found (NoneIsAbove net.now target place)) }
    ensures some { IfOk result (λ found. IfSome found (λ own. IsAboveApart net.now target place
        own.items)) }
{
    let all = rounds_apart(alloc, net, target, place)?;
    let Some(end) = better_at(last_cells(&all)) else {
        return Ok(None);
    };
    let asked = Asked { net, target, place };
    Ok(Some(loop_of(alloc, &asked, &all, end)?))
}

// The rounds from the end of the place, by all places but this one.
pub(crate) fn rounds_back(
    alloc: Global,
    net: &Net,
    target: Ratio,
    place: PlaceId,
) -> Result<Vec<ValueRound>, AllocError>
    requires target { IsTarget target }
    requires place { place.index < length net.now.places }
    ensures back { IfOk result (λ all. AreRoundsBack net.now target place all.items) }
    ensures rules { IfOk result (λ _. IsNet net.now) }
{
    let count = net.transitions().len();
    let own = &net.places()[place.index as usize];
    let first = only_at(alloc, count, own.to)?;
    let asked = Asked { net, target, place };
    let all = rounds(alloc, &asked, first, count)?;
    Ok(all)
}

// The best circuit that passes the place, where none that avoids it is above the target.
pub(crate) fn best_through(
    alloc: Global,
    net: &Net,
    target: Ratio,
    place: PlaceId,
) -> Result<Option<Through>, AllocError>
    requires target { IsTarget target }
    requires place { place.index < length net.now.places }
    requires apart { NoneIsAbove net.now target place }
    ensures none { IfOk result (λ best. IfNone best (NonePasses net.now place)) }
    ensures some { IfOk result (λ best. IfSome best (λ b. IsBestThrough net.now target place b.value
        b.places.items)) }
{
    let all = rounds_back(alloc, net, target, place)?;
    let own = &net.places()[place.index as usize];
    let end = own.from.index as usize;
    let Some(back) = last_cells(&all)[end].value else {
        return Ok(None);
    };
    let mut places = trace(alloc, net, &all, end)?;
    places.push(place)?;
    Ok(Some(Through {
        value: back + weight(target, own),
        places,
    }))
}
