//! The least that the paths from one transition lose back to the starts of the places that end
//! there (Dijkstra's algorithm): of the transitions that are not settled the nearest is settled,
//! and the places that leave it are taken, until all these starts are settled.
ghost use Rattle.std.specs.Prelude.{◌≡◌, ◌≤◌, ◌<◌, ◌+◌, ◌*◌, [], ℕ, length, slice_index_or, take, All, IfOk, IfNone, IfSome, IsTrue, Some, false};
ghost use Rattle.std.specs.BinaryHeap.{heap_items, heap_len};
ghost use Rattle.teg_net.specs.Limits.{most_transitions};
ghost use Rattle.teg_net.specs.Circuits.{from_of};
ghost use Rattle.teg_critical.specs.Losses.{most_loss};
ghost use Rattle.teg_critical.specs.LossEndings.{IsEndingAt};
ghost use Rattle.teg_critical.specs.LeastLosses.{CanSearch, told_at, Offers, IsTaken, IsToldWithin, IsRelaxed, AreQueued, AreSettled, AreToldBack};

use crate::endings::Ending;
use crate::losses::Loss;
use std::alloc::{AllocError, Global};
use std::cmp::Reverse;
use std::collections::BinaryHeap;
use teg_net::{Net, PlaceId, PlacesOf, TransitionId};

// A net, what its places lose, and the places that leave each of its transitions.
#[derive(Drop)]
pub(crate) struct NetLosses<'a> {
    pub(crate) net: &'a Net,
    pub(crate) losses: &'a [Option<Loss>],
    pub(crate) leaving: &'a PlacesOf,
}

// Whether nothing is told yet, or more than is offered.
fn is_less(offered: u128, told: Option<u128>) -> bool
    ensures less { IsTrue result → (d : ℕ) → told ≡ Some d → offered ≤ d }
    ensures not_less { result ≡ false → IsToldWithin told offered }
{
    match told {
        None => true,
        Some(told) => offered < told,
    }
}

// What a place offers the transition at which it ends, from this loss on, with that transition;
// none where the place has no loss, or offers no less than is told.
fn lesser_offer(
    known: &NetLosses,
    base: u128,
    place: PlaceId,
    least: &[Option<u128>],
) -> Option<(u128, usize)>
    requires can { CanSearch known.now.net.now known.now.losses.now known.now.leaving.now }
    requires place { place.index < length known.now.net.now.places }
    requires width { length least.now ≡ length known.now.net.now.transitions }
    requires base { base ≤ most_transitions * most_loss }
    ensures none { IfNone result (IsTaken known.now.net.now known.now.losses.now base least.now
        place) }
    ensures some { IfSome result (λ o. Offers known.now.net.now known.now.losses.now
        (from_of known.now.net.now place) base place o.1 o.0) }
    ensures less { IfSome result (λ o. (d : ℕ) → told_at least.now o.1 ≡ Some d → o.0 ≤ d) }
    ensures in_range { IfSome result (λ o. o.1 < length least.now) }
{
    let loss = known.losses[place.index as usize]?;
    let to = known.net.places()[place.index as usize].to.index as usize;
    let offered = base + loss.amount;
    if is_less(offered, least[to]) {
        Some((offered, to))
    } else {
        None
    }
}

// Takes the places that leave a transition from this loss on: what they offer is told where it is
// less, and queued.
fn relax(
    known: &NetLosses,
    at: usize,
    base: u128,
    least: &mut [Option<u128>],
    queue: &mut BinaryHeap<Reverse<(u128, usize)>>,
) -> Result<(), AllocError>
    requires can { CanSearch known.now.net.now known.now.losses.now known.now.leaving.now }
    requires at { at < length known.now.net.now.transitions }
    requires width { length least.old ≡ length known.now.net.now.transitions }
    requires base { base ≤ most_transitions * most_loss }
    ensures relaxed { IfOk result (λ _. IsRelaxed known.now.net.now known.now.losses.now at base
        (slice_index_or known.now.leaving.now at []) least.old least.new) }
    ensures queued { IfOk result (λ _. AreQueued least.old least.new (heap_items queue.old)
        (heap_items queue.new)) }
    ensures few { IfOk result (λ _. heap_len queue.new ≤ heap_len queue.old
        + length (slice_index_or known.now.leaving.now at [])) }
{
    known.net.rules();
    let transition = TransitionId { index: at as u32 };
    let places = known.leaving.of(transition);
    for place in places {
        if let Some((loss, to)) = lesser_offer(known, base, *place, least) {
            least[to] = Some(loss);
            queue.push(Reverse((loss, to)))?;
        }
    }
    Ok(())
}

// The first of these places, from this one on, whose start is not settled; how many they are where
// there is none.
fn first_open(wanted: &[Ending], from: usize, settled: &[bool]) -> usize
    requires from { from ≤ length wanted.now }
    requires starts { All (λ e. e.start < length settled.now) wanted.now }
    requires before { AreSettled settled.now (take from wanted.now) }
    ensures bound { result ≤ length wanted.now }
    ensures settled { AreSettled settled.now (take result wanted.now) }
{
    let mut next = from;
    'open: while next < wanted.len() && settled[wanted[next].start] {
        next += 1;
    }
    next
}

// The least that paths from this transition lose, to the start of each of these places, which end
// there. What is told of a transition waits in a queue until the transition is settled; an entry of
// a settled transition is passed over. The search ends once the starts of the places are settled.
pub(crate) fn least_losses(
    alloc: Global,
    known: &NetLosses,
    end: usize,
    wanted: &[Ending],
) -> Result<Vec<Option<u128>>, AllocError>
    requires can { CanSearch known.now.net.now known.now.losses.now known.now.leaving.now }
    requires end { end < length known.now.net.now.transitions }
    requires wanted { All (IsEndingAt known.now.net.now end) wanted.now }
    ensures { IfOk result (λ least. AreToldBack known.now.net.now known.now.losses.now least.items
        wanted.now) }
{
    let count = known.net.transitions().len();
    let mut least = vec![in alloc; None; count]?;
    let mut settled = vec![in alloc; false; count]?;
    let mut queue = BinaryHeap::new(alloc);
    let mut next = 0;
    least[end] = Some(0);
    queue.push(Reverse((0, end)))?;
    'search: while let Some(Reverse((loss, at))) = queue.pop() {
        if !settled[at] {
            settled[at] = true;
            relax(known, at, loss, &mut least, &mut queue)?;
            next = first_open(wanted, next, &settled);
            if next == wanted.len() {
                return Ok(least);
            }
        }
    }
    Ok(least)
}
