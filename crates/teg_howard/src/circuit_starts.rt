//! Where the circuits of a policy begin, by one walk that marks what it has passed.
ghost use Rattle.std.specs.Prelude.{ℕ, ◌≡◌, ◌↔◌, ◌<◌, length, IsTrue, IfOk, IfSome, IfNone, Some};
ghost use Rattle.teg_howard.specs.FoundCircuits.{ListsPolicy};
ghost use Rattle.policy_rounds.specs.PolicyLists.{policy_of, IsOnPolicy};
ghost use Rattle.teg_howard.specs.CircuitStarts.{ComesAgain, IsLowestBack, HasWalkPassed, AreStarts, walk_at};

use crate::inside::Part;
use crate::steps::place_into;
use std::alloc::{AllocError, Global};
use teg_net::{Net, PlaceId};

// Follows the policy backwards from `start` to a transition that was passed before, and notes of
// each on the way that this walk was the first there. It gives where the walk ends.
fn pass(net: &Net, policy: &[PlaceId], start: usize, passed: &mut [Option<usize>]) -> usize
    requires count { length policy.now ≡ length net.now.transitions }
    requires count_passed { length passed.old ≡ length policy.now }
    requires on_policy { IsOnPolicy net.now (policy_of policy.now) start }
    ensures { HasWalkPassed net.now (policy_of policy.now) start passed.old passed.new result }
{
    let mut at = start;
    'back: while passed[at].is_none() {
        passed[at] = Some(start);
        at = place_into(net, policy, at).from.index as usize;
    }
    at
}

// The lowest numbered transition of the policy's circuit that passes `start`.
fn lowest_back(net: &Net, policy: &[PlaceId], start: usize) -> usize
    requires count { length policy.now ≡ length net.now.transitions }
    requires on_policy { IsOnPolicy net.now (policy_of policy.now) start }
    requires again { ComesAgain net.now (policy_of policy.now) (length policy.now) start }
    ensures { IsLowestBack net.now (policy_of policy.now) start result }
{
    let mut lowest = start;
    let mut at = start;
    'walk: for _step in 0..policy.len() {
        at = place_into(net, policy, at).from.index as usize;
        if at == start {
            return lowest;
        }
        if at < lowest {
            lowest = at;
        }
    }
    lowest
}

// Whether the walk from `start` was the first to pass a transition.
fn is_own(first: Option<usize>, start: usize) -> bool
    ensures { IsTrue result ↔ (first ≡ Some start) }
{
    match first {
        None => false,
        Some(first) => first == start,
    }
}

// Follows the policy backwards from `start`, and gives where the walk ends if it was the first
// there.
fn fresh_end(
    net: &Net,
    policy: &[PlaceId],
    start: usize,
    passed: &mut [Option<usize>],
) -> Option<usize>
    requires count { length policy.now ≡ length net.now.transitions }
    requires count_passed { length passed.old ≡ length policy.now }
    requires on_policy { IsOnPolicy net.now (policy_of policy.now) start }
    ensures some { IfSome result (λ end. HasWalkPassed net.now (policy_of policy.now) start
        passed.old
        passed.new end × (walk_at passed.new end ≡ Some start)) }
    ensures none { IfNone result ((end : ℕ) × HasWalkPassed net.now (policy_of policy.now) start
        passed.old passed.new end × (walk_at passed.new end ≡ Some start → ⊥)) }
{
    let end = pass(net, policy, start, passed);
    if is_own(passed[end], start) {
        Some(end)
    } else {
        None
    }
}

// For each transition whether it is the lowest numbered one of a circuit of the policy.
pub(crate) fn circuit_starts(
    alloc: Global,
    part: &Part,
    policy: &[PlaceId],
) -> Result<Vec<bool>, AllocError>
    requires { ListsPolicy part.now.net.now part.now.parts.now part.now.number policy.now }
    ensures { IfOk result (λ starts. AreStarts part.now.net.now part.now.parts.now part.now.number
        (policy_of policy.now) starts.items) }
{
    let Part {
        net,
        parts,
        number,
        ..
    } = *part;
    net.rules();
    let mut starts = vec![in alloc; false; parts.len()]?;
    let mut passed = vec![in alloc; None; parts.len()]?;
    for start in 0..parts.len() {
        if parts[start] == number {
            if let Some(end) = fresh_end(net, policy, start, &mut passed) {
                starts[lowest_back(net, policy, end)] = true;
            }
        }
    }
    Ok(starts)
}
