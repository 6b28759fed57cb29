//! Paths and circuits of a net: which lists of places they are, and their sums (chapter 2).
ghost use Rattle.std.specs.Prelude.{◌≡◌, ◌↔◌, ◌<◌, ◌≤◌, ◌*◌, ℕ, [], length, IsTrue, IfNone, IfSome, Any, AllPairs, ◌≢◌};
ghost use Rattle.teg_net.specs.Limits.{greatest_hold, most_place_tokens};
ghost use Rattle.teg_net.specs.Paths.{IsPathStart};
ghost use Rattle.teg_net.specs.Circuits.{IsPathBetween, IsPath, IsCircuit, AreInRange, from_of, time_of, tokens_of};

use crate::entries::{PlaceId, TransitionId};
use crate::net::Net;

// The transition at which the path from `start` ends; none where the places are no path from there.
fn path_end(net: &Net, places: &[PlaceId], start: TransitionId) -> Option<TransitionId>
    ensures none { IfNone result ((b : ℕ) → IsPathBetween net.now start.index places.now b → ⊥) }
    ensures end { IfSome result (λ end. IsPathBetween net.now start.index places.now end.index) }
{
    let own = net.places();
    let mut at = start;
    for id in places {
        let index = id.index as usize;
        if own.len() <= index || own[index].from.index != at.index {
            return None;
        }
        at = own[index].to;
    }
    Some(at)
}

// The transition that the first place leaves; none where there is no first place, or it is no place
// of the net.
fn path_start(net: &Net, places: &[PlaceId]) -> Option<TransitionId>
    ensures none { IfNone result (AreInRange net.now places.now → places.now ≡ []) }
    ensures start { IfSome result (λ start. IsPathStart net.now places.now start.index) }
{
    let first = places.first()?;
    let place = net.places().get(first.index as usize)?;
    Some(place.from)
}

/// Whether each number is that of a place of the net, and each place ends where the next begins.
/// The empty list is a path. Where it says yes, the places are those of the net (`in_range`), so
/// that their time and tokens may be asked. It takes no memory, and a step a place.
pub fn is_path(net: &Net, places: &[PlaceId]) -> bool
    ensures is { IsTrue result ↔ IsPath net.now places.now }
    ensures in_range { IsTrue result → AreInRange net.now places.now }
{
    match path_start(net, places) {
        Some(start) => path_end(net, places, start).is_some(),
        None => places.is_empty(),
    }
}

// Whether one of the places leaves the transition.
fn any_leaves(net: &Net, places: &[PlaceId], transition: TransitionId) -> bool
    requires { AreInRange net.now places.now }
    ensures { IsTrue result ↔ Any (λ p. from_of net.now p ≡ transition.index) places.now }
{
    let own = net.places();
    places
        .iter()
        .any(|id| own[id.index as usize].from.index == transition.index)
}

// Whether the places leave no transition twice.
fn leaves_once(net: &Net, places: &[PlaceId]) -> bool
    requires { AreInRange net.now places.now }
    ensures { IsTrue result ↔ AllPairs (λ p q. from_of net.now p ≢ from_of net.now q) places.now }
{
    let own = net.places();
    for (index, id) in places.iter().enumerate() {
        if any_leaves(net, &places[index + 1..], own[id.index as usize].from) {
            return false;
        }
    }
    true
}

/// Whether the places are a path that is not empty, ends where it begins, and leaves no transition
/// twice. Where it says yes, the places are those of the net (`in_range`), so that its time and
/// tokens may be asked. It takes no memory, and as many steps as there are pairs of places.
pub fn is_circuit(net: &Net, places: &[PlaceId]) -> bool
    ensures is { IsTrue result ↔ IsCircuit net.now places.now }
    ensures in_range { IsTrue result → AreInRange net.now places.now }
{
    let Some(start) = path_start(net, places) else {
        return false;
    };
    match path_end(net, places, start) {
        Some(end) => end.index == start.index && leaves_once(net, places),
        None => false,
    }
}

/// The sum of the holding times of places of the net, in the user's unit. It takes no memory.
pub fn time_of(net: &Net, places: &[PlaceId]) -> u128
    requires { AreInRange net.now places.now }
    ensures value { result ≡ time_of net.now places.now }
    ensures most { result ≤ length places.now * greatest_hold }
{
    let own = net.places();
    let mut time: u128 = 0;
    for id in places {
        time += u128::from(own[id.index as usize].hold);
    }
    time
}

/// The sum of the initial tokens of places of the net. It takes no memory.
pub fn tokens_of(net: &Net, places: &[PlaceId]) -> u128
    requires { AreInRange net.now places.now }
    ensures value { result ≡ tokens_of net.now places.now }
    ensures most { result ≤ length places.now * most_place_tokens }
{
    let own = net.places();
    let mut tokens: u128 = 0;
    for id in places {
        tokens += u128::from(own[id.index as usize].tokens);
    }
    tokens
}
