//! The circuits of a policy, and whether one of them is the greatest.
ghost use Rattle.std.specs.Prelude.{◌≡◌, ◌↔◌, ◌<◌, ◌≤◌, ◌⊎◌, Any, IfNone, IfSome, IsTrue, length};
ghost use Rattle.teg_net.specs.Circuits.{AreInRange, place_at};
ghost use Rattle.teg_net.specs.Limits.{greatest_circuit_time, most_circuit_tokens};
ghost use Rattle.teg_net.specs.Parts.{IsMember, to_of};
ghost use Rattle.policy_rounds.specs.Policies.{IsPolicy};
ghost use Rattle.policy_rounds.specs.PolicyLists.{GoesBelow, policy_of};
ghost use Rattle.teg_parts.specs.Components.{IsMarked};
ghost use Rattle.round_check.specs.PolicyCircuits.{AllAtMost, AreAtMost, FitsBound, IsAround, IsAtMostAt, IsBoundSmall};

use crate::parts::{Part, end_of};
use teg_net::{Net, Place, PlaceId};

// The place of the policy that enters the member.
fn place_into<'net>(part: &Part<'net>, policy: &[PlaceId], at: usize) -> &'net Place
    requires policy { IsPolicy part.now.net.now part.now.parts.now part.now.number (policy_of
        policy.now) }
    requires count { length policy.now ≡ length part.now.parts.now }
    requires member { IsMember part.now.parts.now part.now.number at }
    ensures { result.now ≡ place_at part.now.net.now (policy_of policy.now at) }
{
    &part.net.places()[policy[at].index as usize]
}

// The time and the tokens of the circuit of the policy that passes a transition, and whether it
// passes a marked one.
#[derive(Clone, Copy)]
pub(crate) struct Around {
    pub(crate) time: u128,
    pub(crate) tokens: u128,
    pub(crate) passes: bool,
}

// Whether a marked transition was passed before, or is now.
fn passes_now(before: bool, is_marked: bool) -> bool
    ensures { IsTrue result ↔ (IsTrue before ⊎ IsTrue is_marked) }
{
    before || is_marked
}

// The circuit of the policy of which the transition is the lowest numbered one, by following the
// policy backwards; none where the way does not come back, or comes to a lower one before.
fn circuit_from(part: &Part, policy: &[PlaceId], marked: &[bool], start: usize) -> Option<Around>
    requires policy { IsPolicy part.now.net.now part.now.parts.now part.now.number (policy_of
        policy.now) }
    requires count { length policy.now ≡ length part.now.parts.now }
    requires count_marked { length marked.now ≡ length part.now.parts.now }
    requires member { IsMember part.now.parts.now part.now.number start }
    ensures some { IfSome result (IsAround part.now.net.now part.now.parts.now part.now.number
        (policy_of policy.now) marked.now start) }
    ensures none { IfNone result (GoesBelow part.now.net.now (policy_of policy.now) start (length
        policy.now)) }
{
    part.net.rules();
    let mut time: u128 = 0;
    let mut tokens: u128 = 0;
    let mut passes = false;
    let mut at = start;
    'walk: for _step in 0..policy.len() {
        let place = place_into(part, policy, at);
        time += u128::from(place.hold);
        tokens += u128::from(place.tokens);
        passes = passes_now(passes, marked[at]);
        at = place.from.index as usize;
        if at == start {
            return Some(Around {
                time,
                tokens,
                passes,
            });
        }
        if at < start {
            return None;
        }
    }
    None
}

// What circuits are compared with: time and tokens of a circuit, and its lowest transition.
#[derive(Clone, Copy)]
pub(crate) struct Bound {
    pub(crate) time: u128,
    pub(crate) tokens: u128,
    pub(crate) first: usize,
}

// Whether the circuit that begins at the transition has at most the ratio of the bound, and begins
// no lower where it has that ratio.
fn is_at_most(found: Around, bound: Bound, start: usize) -> bool
    requires time { found.time ≤ greatest_circuit_time }
    requires tokens { found.tokens ≤ most_circuit_tokens }
    requires bound { IsBoundSmall bound }
    ensures { IsTrue result ↔ IsAtMostAt found.time found.tokens start bound }
{
    let left = found.time * bound.tokens;
    let right = bound.time * found.tokens;
    left < right || left == right && bound.first <= start
}

// Whether the circuit that begins at the transition, if it passes a marked one, does so. Where there
// is no bound, none may pass one.
fn fits_bound(found: Option<Around>, bound: Option<Bound>, start: usize) -> bool
    requires small { IfSome found (λ a. (a.time ≤ greatest_circuit_time)
        × (a.tokens ≤ most_circuit_tokens)) }
    requires bound { IfSome bound IsBoundSmall }
    ensures { IsTrue result ↔ FitsBound found bound start }
{
    let Some(found) = found else {
        return true;
    };
    if !found.passes {
        return true;
    }
    match bound {
        Some(bound) => is_at_most(found, bound, start),
        None => false,
    }
}

// Whether the circuit of which the transition is the lowest one fits the bound.
fn fits_at(
    part: &Part,
    policy: &[PlaceId],
    marked: &[bool],
    bound: Option<Bound>,
    start: usize,
) -> bool
    requires policy { IsPolicy part.now.net.now part.now.parts.now part.now.number (policy_of
        policy.now) }
    requires count { length policy.now ≡ length part.now.parts.now }
    requires count_marked { length marked.now ≡ length part.now.parts.now }
    requires bound { IfSome bound IsBoundSmall }
    requires member { IsMember part.now.parts.now part.now.number start }
    ensures fits { IsTrue result → AreAtMost part.now.net.now part.now.parts.now part.now.number
        (policy_of policy.now) marked.now bound start }
    ensures all { AllAtMost part.now.net.now part.now.parts.now part.now.number (policy_of
        policy.now) marked.now bound → IsTrue result }
{
    let found = circuit_from(part, policy, marked, start);
    fits_bound(found, bound, start)
}

// Whether each circuit of the policy that passes a marked transition fits the bound.
pub(crate) fn all_fit(
    part: &Part,
    policy: &[PlaceId],
    marked: &[bool],
    bound: Option<Bound>,
) -> bool
    requires policy { IsPolicy part.now.net.now part.now.parts.now part.now.number (policy_of
        policy.now) }
    requires count { length policy.now ≡ length part.now.parts.now }
    requires count_marked { length marked.now ≡ length part.now.parts.now }
    requires bound { IfSome bound IsBoundSmall }
    ensures { IsTrue result ↔ AllAtMost part.now.net.now part.now.parts.now part.now.number
        (policy_of policy.now) marked.now bound }
{
    for start in 0..part.parts.len() {
        if part.parts[start] == part.number && !fits_at(part, policy, marked, bound, start) {
            return false;
        }
    }
    true
}

// Whether the place ends at a marked transition.
fn ends_marked(net: &Net, marked: &[bool], id: PlaceId) -> bool
    requires place { id.index < length net.now.places }
    requires end { to_of net.now id < length marked.now }
    ensures { IsTrue result ↔ IsMarked marked.now (to_of net.now id) }
{
    marked[end_of(net, id)]
}

// Whether a place of the circuit ends at a marked transition.
pub(crate) fn passes(net: &Net, circuit: &[PlaceId], marked: &[bool]) -> bool
    requires in_range { AreInRange net.now circuit.now }
    requires count { length marked.now ≡ length net.now.transitions }
    ensures { IsTrue result ↔ Any (λ p. IsMarked marked.now (to_of net.now p)) circuit.now }
{
    net.rules();
    for id in circuit {
        if ends_marked(net, marked, *id) {
            return true;
        }
    }
    false
}
