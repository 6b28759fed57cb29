//! The circuits of a policy, and the best of them.
ghost use Rattle.std.specs.Prelude.{◌≡◌, ◌<◌, ◌↔◌, List, length, Any, IsTrue, IfOk, IfSome, IfNone, Some};
ghost use Rattle.teg_net.specs.Circuits.{IsLive, AreInRange};
ghost use Rattle.teg_net.specs.Parts.{to_of};
ghost use Rattle.policy_rounds.specs.Policies.{IsPolicyCircuit};
ghost use Rattle.teg_net.specs.declared.entries.PlaceId.{PlaceId};
ghost use Rattle.teg_parts.specs.Components.{IsMarked};
ghost use Rattle.teg_howard.specs.FoundCircuits.{ListsPolicy, IsFoundAt, IsAbove, IsFoundSmall, IsBetterOf, IsBestFound};
ghost use Rattle.policy_rounds.specs.PolicyLists.{policy_of, IsOnPolicy, GoesBelow};

use crate::circuit_starts::circuit_starts;
use crate::inside::Part;
use crate::steps::place_into;
use std::alloc::{AllocError, Global};
use teg_net::{Net, PlaceId};

// A circuit of a policy, with its sums.
#[derive(Drop)]
pub(crate) struct FoundCircuit {
    pub(crate) places: Vec<PlaceId>,
    pub(crate) time: u64,
    pub(crate) tokens: u64,
}

// The policy's circuit that passes `start`, beginning there. None where there is no such circuit,
// or it passes a lower numbered transition, from which it is found.
fn circuit_through(
    alloc: Global,
    net: &Net,
    policy: &[PlaceId],
    start: usize,
) -> Result<Option<FoundCircuit>, AllocError>
    requires count { length policy.now ≡ length net.now.transitions }
    requires starts { start < length policy.now }
    requires on_policy { IsOnPolicy net.now (policy_of policy.now) start }
    ensures some { IfOk result (λ found. IfSome found (λ f. IsFoundAt net.now (policy_of policy.now)
        start f)) }
    ensures none { IfOk result (λ found. IfNone found (GoesBelow net.now (policy_of policy.now)
        start (length policy.now))) }
{
    net.rules();
    let mut back = Vec::new(alloc);
    let mut time = 0;
    let mut tokens = 0;
    let mut at = start;
    'walk: for _step in 0..policy.len() {
        let place = place_into(net, policy, at);
        back.push(policy[at])?;
        time += place.hold;
        tokens += place.tokens as u64;
        at = place.from.index as usize;
        if at == start {
            back.reverse();
            return Ok(Some(FoundCircuit {
                places: back,
                time,
                tokens,
            }));
        }
        if at < start {
            return Ok(None);
        }
    }
    Ok(None)
}

// Whether a place of the circuit ends at a marked transition.
fn passes(net: &Net, circuit: &[PlaceId], marked: &[bool]) -> bool
    requires in_range { AreInRange net.now circuit.now }
    requires count { length marked.now ≡ length net.now.transitions }
    ensures { IsTrue result ↔ Any (λ p. IsMarked marked.now (to_of net.now p)) circuit.now }
{
    let places = net.places();
    for id in circuit {
        if marked[places[id.index as usize].to.index as usize] {
            return true;
        }
    }
    false
}

// Whether the circuit has a greater ratio than the best so far.
fn is_greater(circuit: &FoundCircuit, best: &Option<FoundCircuit>) -> bool
    requires small { IsFoundSmall (Some circuit.now) }
    requires best_small { IsFoundSmall best.now }
    ensures { IsTrue result ↔ IsAbove circuit.now best.now }
{
    match best {
        None => true,
        Some(best) => circuit.time * best.tokens > best.time * circuit.tokens,
    }
}

// The circuit, where it passes a marked transition and has a greater ratio than the best so far,
// and else that best.
fn better_of(
    net: &Net,
    marked: &[bool],
    circuit: FoundCircuit,
    best: Option<FoundCircuit>,
) -> Option<FoundCircuit>
    requires in_range { AreInRange net.now circuit.places.items }
    requires count { length marked.now ≡ length net.now.transitions }
    requires small { IsFoundSmall (Some circuit) }
    requires best_small { IsFoundSmall best }
    ensures { IsBetterOf net.now marked.now circuit best result }
{
    if passes(net, &circuit.places, marked) && is_greater(&circuit, &best) {
        Some(circuit)
    } else {
        best
    }
}

// The policy's circuit of greatest ratio among those that pass a marked member, among equals
// the one with the lowest numbered transition.
pub(crate) fn best_circuit(
    alloc: Global,
    part: &Part,
    policy: &[PlaceId],
    marked: &[bool],
) -> Result<Option<FoundCircuit>, AllocError>
    requires live { IsLive part.now.net.now }
    requires policy { ListsPolicy part.now.net.now part.now.parts.now part.now.number policy.now }
    requires count_marked { length marked.now ≡ length part.now.parts.now }
    ensures some { IfOk result (λ found. IfSome found (λ f. IsBestFound part.now.net.now
        part.now.parts.now part.now.number (policy_of policy.now) marked.now f)) }
    ensures none { IfOk result (λ found. IfNone found ((d : List PlaceId)
        → IsPolicyCircuit part.now.net.now part.now.parts.now part.now.number (policy_of policy.now)
        d → Any (λ p. IsMarked marked.now (to_of part.now.net.now p)) d → ⊥)) }
{
    let Part { net, parts, .. } = *part;
    net.rules();
    let starts = circuit_starts(alloc, part, policy)?;
    let mut best = None;
    for start in 0..parts.len() {
        if starts[start] {
            if let Some(circuit) = circuit_through(alloc, net, policy, start)? {
                best = better_of(net, marked, circuit, best);
            }
        }
    }
    Ok(best)
}
