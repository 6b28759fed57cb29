//! Whether a policy is another one with every member routed to a circuit, place by place.
ghost use Rattle.std.specs.Prelude.{◌≡◌, ◌↔◌, ◌<◌, IfNone, IfOk, IfSome, IsTrue, length};
ghost use Rattle.teg_net.specs.declared.entries.PlaceId.{PlaceId};
ghost use Rattle.teg_net.specs.Parts.{IsMember};
ghost use Rattle.policy_rounds.specs.Policies.{IsPolicy, LeadsBack};
ghost use Rattle.policy_rounds.specs.PolicyLists.{policy_of};
ghost use Rattle.round_check.specs.Routes.{AreHome, AreMarked, IsNextMark, IsRoutedBy, KeepsHome, Leads};

use crate::parts::{Part, end_of, is_inside, is_member, start_of};
use std::alloc::{AllocError, Global};
use teg_net::PlaceId;

// Whether following the policy backwards leads from the member to the root.
fn leads_home(part: &Part, policy: &[PlaceId], root: usize, member: usize) -> bool
    requires policy { IsPolicy part.now.net.now part.now.parts.now part.now.number (policy_of
        policy.now) }
    requires count { length policy.now ≡ length part.now.parts.now }
    requires member { IsMember part.now.parts.now part.now.number member }
    ensures { IsTrue result ↔ LeadsBack part.now.net.now (policy_of policy.now) member root }
{
    let mut at = member;
    'back: for _step in 0..part.parts.len() {
        if at == root {
            return true;
        }
        at = start_of(part.net, policy[at]);
    }
    false
}

// Whether it is a member from which the policy leads back to the root.
fn is_home(part: &Part, policy: &[PlaceId], root: usize, member: usize) -> bool
    requires policy { IsPolicy part.now.net.now part.now.parts.now part.now.number (policy_of
        policy.now) }
    requires count { length policy.now ≡ length part.now.parts.now }
    ensures { IsTrue result ↔ (IsMember part.now.parts.now part.now.number member
        × LeadsBack part.now.net.now (policy_of policy.now) member root) }
{
    is_member(part.parts, part.number, member) && leads_home(part, policy, root, member)
}

// For each transition whether it is so.
fn homes(
    alloc: Global,
    part: &Part,
    policy: &[PlaceId],
    root: usize,
) -> Result<Vec<bool>, AllocError>
    requires policy { IsPolicy part.now.net.now part.now.parts.now part.now.number (policy_of
        policy.now) }
    requires count { length policy.now ≡ length part.now.parts.now }
    ensures count { IfOk result (λ home. length home.items ≡ length part.now.parts.now) }
    ensures home { IfOk result (λ home. AreHome part.now.net.now part.now.parts.now part.now.number
        (policy_of policy.now) root home.items) }
{
    let mut home = Vec::new(alloc);
    for member in 0..part.parts.len() {
        home.push(is_home(part, policy, root, member))?;
    }
    Ok(home)
}

// Whether the members at home have the places of the policy.
fn keeps_home(part: &Part, policy: &[PlaceId], routed: &[PlaceId], home: &[bool]) -> bool
    requires count { length policy.now ≡ length part.now.parts.now }
    requires count_routed { length routed.now ≡ length part.now.parts.now }
    requires count_home { length home.now ≡ length part.now.parts.now }
    ensures { IsTrue result ↔ KeepsHome policy.now routed.now home.now }
{
    for member in 0..part.parts.len() {
        if home[member] && routed[member] != policy[member] {
            return false;
        }
    }
    true
}

// Whether the place lies in the part and leads from a marked member to one that is not.
fn leads_on(part: &Part, marked: &[bool], id: PlaceId) -> bool
    requires { length marked.now ≡ length part.now.parts.now }
    ensures { IsTrue result ↔ Leads part.now.net.now part.now.parts.now part.now.number marked.now
        id }
{
    is_inside(part, id) && marked[start_of(part.net, id)] && !marked[end_of(part.net, id)]
}

// The lowest numbered such place.
fn next_join(part: &Part, marked: &[bool]) -> Option<PlaceId>
    requires { length marked.now ≡ length part.now.parts.now }
    ensures some { IfSome result (IsNextMark part.now.net.now part.now.parts.now part.now.number
        marked.now) }
    ensures none { IfNone result ((p : PlaceId) → Leads part.now.net.now part.now.parts.now
        part.now.number marked.now p → ⊥) }
{
    part.net.rules();
    for index in 0..part.net.places().len() {
        let id = PlaceId {
            index: index as u32,
        };
        if leads_on(part, marked, id) {
            return Some(id);
        }
    }
    None
}

// Whether each member is marked.
fn all_marked(part: &Part, marked: &[bool]) -> bool
    requires { length marked.now ≡ length part.now.parts.now }
    ensures { IsTrue result ↔ AreMarked part.now.parts.now part.now.number marked.now }
{
    for member in 0..part.parts.len() {
        if part.parts[member] == part.number && !marked[member] {
            return false;
        }
    }
    true
}

// Whether the policy has the place for the transition.
pub(crate) fn has_place(policy: &[PlaceId], transition: usize, id: PlaceId) -> bool
    requires { transition < length policy.now }
    ensures { IsTrue result ↔ (policy_of policy.now transition ≡ id) }
{
    policy[transition] == id
}

// Whether the places that join the members that are not at home, one by one, are those of the
// routed policy, until all are.
fn joins_all(
    part: &Part,
    policy: &[PlaceId],
    root: usize,
    routed: &[PlaceId],
    mut home: Vec<bool>,
) -> bool
    requires policy { IsPolicy part.now.net.now part.now.parts.now part.now.number (policy_of
        policy.now) }
    requires count { length home.items ≡ length part.now.parts.now }
    requires count_routed { length routed.now ≡ length part.now.parts.now }
    requires home { AreHome part.now.net.now part.now.parts.now part.now.number (policy_of
        policy.now) root home.items }
    requires kept { KeepsHome policy.now routed.now home.items }
    ensures { IsTrue result ↔ IsRoutedBy part.now.net.now part.now.parts.now part.now.number
        (policy_of policy.now) root (policy_of routed.now) }
{
    let _policy = policy;
    'joins: for _step in 0..part.parts.len() {
        let Some(id) = next_join(part, &home) else {
            return all_marked(part, &home);
        };
        let member = end_of(part.net, id);
        if !has_place(routed, member, id) {
            return false;
        }
        home[member] = true;
    }
    all_marked(part, &home)
}

// Whether the routed policy is the policy with every other member routed to the root: what led back
// keeps its places, and then the lowest numbered place from a member that is routed to one that is
// not joins its end, until all are.
pub(crate) fn is_routing(
    alloc: Global,
    part: &Part,
    policy: &[PlaceId],
    root: usize,
    routed: &[PlaceId],
) -> Result<bool, AllocError>
    requires policy { IsPolicy part.now.net.now part.now.parts.now part.now.number (policy_of
        policy.now) }
    requires count { length policy.now ≡ length part.now.parts.now }
    requires count_routed { length routed.now ≡ length part.now.parts.now }
    ensures { IfOk result (λ yes. IsTrue yes ↔ IsRoutedBy part.now.net.now part.now.parts.now
        part.now.number (policy_of policy.now) root (policy_of routed.now)) }
{
    let home = homes(alloc, part, policy, root)?;
    if !keeps_home(part, policy, routed, &home) {
        return Ok(false);
    }
    Ok(joins_all(part, policy, root, routed, home))
}
