//! The path that the rounds tell of a transition.
ghost use Rattle.std.specs.Prelude.{◌≡◌, ◌<◌, length, IfOk, IfSome};
ghost use Rattle.teg_net.specs.Circuits.{from_of};
ghost use Rattle.teg_sizing.specs.ValueRounds.{by_at, round_at};
ghost use Rattle.teg_sizing.specs.TracedPaths.{AreOfNet, trace_of};

use crate::rounds::ValueRound;
use std::alloc::{AllocError, Global};
use teg_net::{Net, PlaceId};

// The place by which the round of this number came to the transition, if it is by one.
fn place_by(net: &Net, rounds: &[ValueRound], number: usize, at: usize) -> Option<PlaceId>
    requires rounds { AreOfNet net.now rounds.now }
    requires number { number < length rounds.now }
    requires at { at < length net.now.transitions }
    ensures by { result ≡ by_at (round_at rounds.now number) at }
    ensures in_range { IfSome result (λ id. id.index < length net.now.places) }
{
    let _net = net;
    rounds[number].cells()[at].by
}

// The transition that the place leaves.
pub(crate) fn start_of(net: &Net, id: PlaceId) -> usize
    requires { id.index < length net.now.places }
    ensures start { result ≡ from_of net.now id }
    ensures in_range { result < length net.now.transitions }
{
    net.places()[id.index as usize].from.index as usize
}

// The places by which the rounds came to the transition, from the first on.
pub(crate) fn trace(
    alloc: Global,
    net: &Net,
    rounds: &[ValueRound],
    end: usize,
) -> Result<Vec<PlaceId>, AllocError>
    requires rounds { AreOfNet net.now rounds.now }
    requires end { end < length net.now.transitions }
    ensures { IfOk result (λ places. places.items ≡ trace_of net.now rounds.now (length rounds.now)
        end) }
{
    let mut places = Vec::new(alloc);
    let mut at = end;
    for number in (0..rounds.len()).rev() {
        if let Some(id) = place_by(net, rounds, number, at) {
            places.push(id)?;
            at = start_of(net, id);
        }
    }
    places.reverse();
    Ok(places)
}
