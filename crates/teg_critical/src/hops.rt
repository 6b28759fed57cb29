//! The transitions that are reached from the end of a place along the places that are usable, each
//! with the place by which it was reached first, and the path that they tell.
ghost use Rattle.std.specs.Prelude.{◌≡◌, ◌<◌, length, IfOk, IsTrue, IsSome, false, true, slice_index_or};
ghost use Rattle.teg_net.specs.Nets.{IsNet};
ghost use Rattle.teg_net.specs.Circuits.{from_of, IsCircuit};
ghost use Rattle.teg_net.specs.Parts.{to_of};
ghost use Rattle.teg_critical.specs.Hops.{hop_at, open_count, IsHopSmall, AreHops, AreClosed, IsReachedNow, IsPassed, IsLastHop, IsTrace};

use std::alloc::{AllocError, Global};
use teg_net::{Net, Place, PlaceId};

// How many places lead to a transition, and the last of them.
#[derive(Clone, Copy)]
pub(crate) struct Hop {
    pub(crate) count: usize,
    pub(crate) last: PlaceId,
}

// Reaches the end of a place that is usable, where its start is reached and its end is not.
fn reach_end(usable: bool, id: PlaceId, place: &Place, hops: &mut [Option<Hop>]) -> bool
    requires ends { (place.now.from.index < length hops.old)
        × (place.now.to.index < length hops.old) }
    requires small { IsHopSmall hops.old place.now.from.index }
    ensures usable { IsTrue result → IsTrue usable }
    ensures reached { IsTrue result → IsReachedNow id place.now hops.old hops.new }
    ensures same { result ≡ false → hops.new ≡ hops.old }
    ensures passed { result ≡ false → IsTrue usable → IsPassed place.now hops.old }
{
    if !usable {
        return false;
    }
    let Some(before) = hops[place.from.index as usize] else {
        return false;
    };
    let to = place.to.index as usize;
    if hops[to].is_some() {
        return false;
    }
    hops[to] = Some(Hop {
        count: before.count + 1,
        last: id,
    });
    true
}

// Whether the place of this number may be used.
fn may_use(usable: &[bool], index: usize) -> bool
    requires { index < length usable.now }
    ensures { result ≡ slice_index_or usable.now index true }
{
    usable[index]
}

// One round over the places that are usable: whether some transition was reached.
fn spread(net: &Net, usable: &[bool], first: PlaceId, hops: &mut [Option<Hop>]) -> bool
    requires usable { length usable.now ≡ length net.now.places }
    requires hops { AreHops net.now usable.now first hops.old }
    ensures hops { AreHops net.now usable.now first hops.new }
    ensures fewer { IsTrue result → open_count hops.new < open_count hops.old }
    ensures closed { result ≡ false → AreClosed net.now usable.now hops.new }
{
    let _first = first;
    let mut reached = false;
    for (index, place) in net.places().iter().enumerate() {
        let id = PlaceId {
            index: index as u32,
        };
        if reach_end(may_use(usable, index), id, place, hops) {
            reached = true;
        }
    }
    reached
}

// The transition that a place leaves.
pub(crate) fn start_of(net: &Net, id: PlaceId) -> usize
    requires { id.index < length net.now.places }
    ensures start { result ≡ from_of net.now id }
    ensures in_range { result < length net.now.transitions }
    ensures rules { IsNet net.now }
{
    net.places()[id.index as usize].from.index as usize
}

// The transition at which it ends.
pub(crate) fn end_of(net: &Net, id: PlaceId) -> usize
    requires { id.index < length net.now.places }
    ensures end { result ≡ to_of net.now id }
    ensures in_range { result < length net.now.transitions }
{
    net.places()[id.index as usize].to.index as usize
}

// The transitions that are reached from the end of a place.
pub(crate) fn hops_from(
    alloc: Global,
    net: &Net,
    usable: &[bool],
    place: PlaceId,
) -> Result<Vec<Option<Hop>>, AllocError>
    requires usable { length usable.now ≡ length net.now.places }
    requires place { place.index < length net.now.places }
    ensures hops { IfOk result (λ hops. AreHops net.now usable.now place hops.items) }
    ensures closed { IfOk result (λ hops. AreClosed net.now usable.now hops.items) }
    ensures rules { IfOk result (λ _. IsNet net.now) }
{
    let mut hops = vec![in alloc; None; net.transitions().len()]?;
    let first = end_of(net, place);
    hops[first] = Some(Hop {
        count: 0,
        last: place,
    });
    'further: while spread(net, usable, place, &mut hops) {}
    Ok(hops)
}

// The place by which a transition was reached; none of the first one.
fn last_hop(hops: &[Option<Hop>], at: usize) -> Option<PlaceId>
    requires { at < length hops.now }
    ensures { IsLastHop (hop_at hops.now at) result }
{
    let hop = hops[at]?;
    if hop.count == 0 {
        return None;
    }
    Some(hop.last)
}

// The path by which the start of the place was reached from its end, with the place before it.
pub(crate) fn circuit_back(
    alloc: Global,
    net: &Net,
    _usable: &[bool],
    hops: &[Option<Hop>],
    place: PlaceId,
) -> Result<Vec<PlaceId>, AllocError>
    requires place { place.index < length net.now.places }
    requires hops { AreHops net.now _usable.now place hops.now }
    requires reached { IsSome (hop_at hops.now (from_of net.now place)) }
    ensures circuit { IfOk result (λ ps. IsCircuit net.now ps.items) }
    ensures usable { IfOk result (λ ps. IsTrace net.now _usable.now place ps.items) }
{
    let mut places = Vec::new(alloc);
    let end = start_of(net, place);
    let mut at = end;
    'back: while let Some(last) = last_hop(hops, at) {
        places.insert(0, last)?;
        at = start_of(net, last);
    }
    places.insert(0, place)?;
    Ok(places)
}
