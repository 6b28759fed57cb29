//! Potentials along a policy: each member from which following backwards leads to the root gets its
//! own.
ghost use Rattle.std.specs.Prelude.{◌≡◌, ◌<◌, ◌++◌, ℕ, length, slice_index_or, All, IfOk, OnOk, None};
ghost use Rattle.teg_howard.specs.FoundCircuits.{IsFollower};
ghost use Rattle.policy_rounds.specs.PolicyLists.{policy_of};
ghost use Rattle.teg_howard.specs.Following.{AreFollowers, HasRootAlone, Followed, CanFollow, listed_member};

use crate::inside::Part;
use crate::offers::offer_from;
use std::alloc::{AllocError, Global};
use teg_net::{PlaceId, Ratio};

// The followers of each transition, the members whose policy places start there, but for the root:
// the highest numbered one, and for each member the next lower one that has the same start.
#[derive(Drop)]
pub(crate) struct Followers {
    pub(crate) highest: Vec<Option<usize>>,
    pub(crate) lower: Vec<Option<usize>>,
}

// The followers of each transition, by one pass.
fn link_followers(
    alloc: Global,
    part: &Part,
    policy: &[PlaceId],
    root: usize,
) -> Result<Followers, AllocError>
    requires count { length policy.now ≡ length part.now.parts.now }
    requires in_range { All (λ p. p.index < length part.now.net.now.places) policy.now }
    ensures { IfOk result (λ f. AreFollowers part.now.net.now part.now.parts.now part.now.number
        (policy_of policy.now) root f) }
{
    let Part {
        net,
        parts,
        number,
        ..
    } = *part;
    let places = net.places();
    let mut highest = vec![in alloc; None; parts.len()]?;
    let mut lower = vec![in alloc; None; parts.len()]?;
    for member in 0..parts.len() {
        if parts[member] == number && member != root {
            let from = places[policy[member].index as usize].from.index as usize;
            lower[member] = highest[from];
            highest[from] = Some(member);
        }
    }
    Ok(Followers { highest, lower })
}

// Puts the member, if there is one, at the end of the list.
fn add(waiting: &mut Vec<usize>, member: Option<usize>) -> Result<(), AllocError>
    ensures { OnOk result (waiting.new.items ≡ waiting.old.items ++ listed_member member) }
{
    if let Some(member) = member {
        waiting.push(member)?;
    }
    Ok(())
}

// Puts the next lower follower beside the member, and the member's own highest, at the end of the
// list.
fn add_followers(
    waiting: &mut Vec<usize>,
    followers: &Followers,
    member: usize,
) -> Result<(), AllocError>
    requires lower { member < length followers.now.lower.items }
    requires highest { member < length followers.now.highest.items }
    ensures { OnOk result (waiting.new.items ≡ (waiting.old.items ++ listed_member (slice_index_or
        followers.now.lower.items member None)) ++ listed_member (slice_index_or
        followers.now.highest.items member None)) }
{
    add(waiting, followers.lower[member])?;
    add(waiting, followers.highest[member])?;
    Ok(())
}

// 0 for the root, and no potential for the others.
fn root_alone(alloc: Global, count: usize, root: usize) -> Result<Vec<Option<i128>>, AllocError>
    requires { root < count }
    ensures { IfOk result (λ values. HasRootAlone count root values.items) }
{
    let mut values = vec![in alloc; None; count]?;
    values[root] = Some(0);
    Ok(values)
}

// The potentials of the members from which following backwards leads to the root: 0 there, and
// elsewhere what the policy's place offers.
pub(crate) fn follow(
    alloc: Global,
    part: &Part,
    policy: &[PlaceId],
    ratio: Ratio,
    root: usize,
) -> Result<Vec<Option<i128>>, AllocError>
    requires { CanFollow part.now.net.now part.now.parts.now part.now.number policy.now ratio root }
    ensures followed { IfOk result (λ values. Followed part.now.net.now part.now.parts.now
        part.now.number ratio.time ratio.tokens root (policy_of policy.now) values.items) }
    ensures all { IfOk result (λ values. (t : ℕ) → IsFollower part.now.net.now part.now.parts.now
        part.now.number (policy_of policy.now) values.items t → ⊥) }
{
    let followers = link_followers(alloc, part, policy, root)?;
    let mut values = root_alone(alloc, part.parts.len(), root)?;
    let mut waiting = Vec::new(alloc);
    add(&mut waiting, followers.highest[root])?;
    'follow: while let Some(member) = waiting.pop() {
        values[member] = Some(offer_from(part.net, ratio, &values, policy[member]));
        add_followers(&mut waiting, &followers, member)?;
    }
    Ok(values)
}
