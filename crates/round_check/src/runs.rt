//! Whether rounds are a policy run of a part.
ghost use Rattle.std.specs.Prelude.{◌≡◌, ◌↔◌, ◌<◌, ◌≤◌, ◌+◌, ◌-◌, ℕ, All, IfOk, IsTrue, length, slice_index_or};
ghost use Rattle.teg_net.specs.declared.rounds.Round.{Round};
ghost use Rattle.teg_net.specs.Circuits.{AreInRange, IsCircuit, IsLive};
ghost use Rattle.teg_net.specs.Limits.{greatest_scaled_potential};
ghost use Rattle.teg_net.specs.Parts.{to_of};
ghost use Rattle.teg_net.specs.ReducedTimes.{IsMagnitudeWithin};
ghost use Rattle.policy_rounds.specs.Policies.{IsPolicy};
ghost use Rattle.policy_rounds.specs.PolicyRounds.{FollowsRound, IsFirstRound, IsPolicyRun, IsRound, IsRoundOf, IsLastRound};
ghost use Rattle.policy_rounds.specs.PolicyLists.{IsCircuitRatio, policy_of};
ghost use Rattle.teg_parts.specs.Components.{IsMarked};
ghost use Rattle.round_check.specs.PolicyCircuits.{FitsPolicy, IsBoundOf, IsBoundSmall};
ghost use Rattle.round_check.specs.Offers.{IsSpread};
ghost use Rattle.round_check.specs.Rounds.{AreBegun, HasBegun, HasPlacesOf, IsStep, Keeps, KeepsLimits, Stands};

use crate::circuits::{Bound, all_fit, passes};
use crate::parts::{Part, end_of};
use crate::policies::{Spread, better_policy, changed, lowest_places, members, spread_choices};
use crate::rounds::{check_round, root_of};
use crate::routing::{has_place, is_routing};
use std::alloc::{AllocError, Global};
use teg_net::{Net, OutOfMemory, PlaceId, Ratio, Round, time_of, tokens_of};

// The time of a circuit at most, in the user's unit.
const GREATEST_CIRCUIT_TIME: u64 = 400_000_000_000;

// The tokens of a circuit at most.
const MOST_CIRCUIT_TOKENS: u64 = 400_000;

// The magnitude of a potential at the ratio of a circuit at most.
const GREATEST_POTENTIAL: i128 = 400_000_000_000_000_000;

// Whether the potential keeps its limit.
pub(crate) fn is_small(value: i128) -> bool
    ensures { IsTrue result ↔ IsMagnitudeWithin greatest_scaled_potential value }
{
    value >= -GREATEST_POTENTIAL && value <= GREATEST_POTENTIAL
}

// Whether the ratio keeps the limits of circuits.
pub(crate) fn is_circuit_ratio(ratio: Ratio) -> bool
    ensures { IsTrue result ↔ IsCircuitRatio ratio }
{
    ratio.time() <= GREATEST_CIRCUIT_TIME && ratio.tokens() <= MOST_CIRCUIT_TOKENS
}

// Whether ratio and potentials keep the limits of circuits.
fn keeps_limits(round: &Round) -> bool
    ensures { IsTrue result ↔ KeepsLimits round.now }
{
    is_circuit_ratio(round.ratio) && round.choices.iter().all(|choice| is_small(choice.value))
}

// Whether the round is that of its policy, within limits.
fn stands(part: &Part, round: &Round) -> bool
    ensures { IsTrue result ↔ Stands part.now.net.now part.now.parts.now part.now.number
        round.now }
{
    check_round(part.net, part.parts, part.number, round) && keeps_limits(round)
}

// The choices of a round, by transition.
fn spread_of(alloc: Global, part: &Part, round: &Round) -> Result<Spread, AllocError>
    requires { IsRound part.now.net.now part.now.parts.now part.now.number round.now }
    ensures { IfOk result (IsSpread (length part.now.parts.now) round.now.choices.items) }
{
    spread_choices(alloc, part.parts.len(), &round.choices)
}

// Whether the places of the circuit are the policy's.
fn is_of_policy(part: &Part, policy: &[PlaceId], circuit: &[PlaceId]) -> bool
    requires range { AreInRange part.now.net.now circuit.now }
    requires count { length policy.now ≡ length part.now.parts.now }
    ensures { IsTrue result ↔ All (λ p. policy_of policy.now (to_of part.now.net.now p) ≡ p)
        circuit.now }
{
    part.net.rules();
    for id in circuit {
        if !has_place(policy, end_of(part.net, *id), *id) {
            return false;
        }
    }
    true
}

// What the other circuits of a policy are compared with.
fn bound_of(net: &Net, circuit: &[PlaceId]) -> Bound
    requires { IsCircuit net.now circuit.now }
    ensures { IsBoundOf net.now circuit.now result }
{
    net.rules();
    Bound {
        time: time_of(net, circuit),
        tokens: tokens_of(net, circuit),
        first: root_of(net, circuit),
    }
}

// Whether the places of the circuit are the policy's, one of them ends at a marked transition, and
// no other circuit of the policy that passes one is above the bound.
fn fits_policy(
    part: &Part,
    policy: &[PlaceId],
    marked: &[bool],
    circuit: &[PlaceId],
    bound: Bound,
) -> bool
    requires policy { IsPolicy part.now.net.now part.now.parts.now part.now.number (policy_of
        policy.now) }
    requires count { length policy.now ≡ length part.now.parts.now }
    requires count_marked { length marked.now ≡ length part.now.parts.now }
    requires range { AreInRange part.now.net.now circuit.now }
    requires bound { IsBoundSmall bound }
    ensures { IsTrue result ↔ FitsPolicy part.now.net.now part.now.parts.now part.now.number
        (policy_of policy.now) marked.now circuit.now bound }
{
    is_of_policy(part, policy, circuit)
        && passes(part.net, circuit, marked)
        && all_fit(part, policy, marked, Some(bound))
}

// Whether the round is that of the policy's best circuit through a marked transition, with every
// other member routed to it.
fn is_made_of(
    alloc: Global,
    part: &Part,
    policy: &[PlaceId],
    marked: &[bool],
    round: &Round,
) -> Result<bool, AllocError>
    requires policy { IsPolicy part.now.net.now part.now.parts.now part.now.number (policy_of
        policy.now) }
    requires count { length policy.now ≡ length part.now.parts.now }
    requires count_marked { length marked.now ≡ length part.now.parts.now }
    requires round { IsRound part.now.net.now part.now.parts.now part.now.number round.now }
    ensures { IfOk result (λ yes. IsTrue yes ↔ IsRoundOf part.now.net.now part.now.parts.now
        part.now.number (policy_of policy.now) (IsMarked marked.now) round.now) }
{
    let bound = bound_of(part.net, &round.circuit.places);
    if !fits_policy(part, policy, marked, &round.circuit.places, bound) {
        return Ok(false);
    }
    let own = spread_of(alloc, part, round)?;
    let is_made = is_routing(alloc, part, policy, bound.first, &own.policy)?;
    Ok(is_made)
}

// Whether the round is the first of the part.
fn is_first(alloc: Global, part: &Part, round: &Round) -> Result<bool, AllocError>
    requires { IsRound part.now.net.now part.now.parts.now part.now.number round.now }
    ensures { IfOk result (λ yes. IsTrue yes ↔ IsFirstRound part.now.net.now part.now.parts.now
        part.now.number round.now) }
{
    let policy = lowest_places(alloc, part)?;
    let everywhere = members(alloc, part)?;
    let is_first = is_made_of(alloc, part, &policy, &everywhere, round)?;
    Ok(is_first)
}

// Whether each member has the place of the policy in the round.
fn has_places_of(part: &Part, policy: &[PlaceId], own: &Spread) -> bool
    requires count { length policy.now ≡ length part.now.parts.now }
    requires count_own { length own.now.policy.items ≡ length part.now.parts.now }
    ensures { IsTrue result ↔ HasPlacesOf part.now.parts.now part.now.number policy.now
        own.now.policy.items }
{
    for member in 0..part.parts.len() {
        if part.parts[member] == part.number && own.policy[member] != policy[member] {
            return false;
        }
    }
    true
}

// Whether the places are the same.
pub(crate) fn same_places(first: &[PlaceId], second: &[PlaceId]) -> bool
    ensures { IsTrue result ↔ (first.now ≡ second.now) }
{
    first == second
}

// Whether the round has the ratio and the circuit of the one before.
fn has_circuit_of(before: &Round, round: &Round) -> bool
    ensures { IsTrue result ↔ ((round.now.circuit.places.items ≡ before.now.circuit.places.items)
        × (round.now.ratio ≡ before.now.ratio)) }
{
    same_places(&round.circuit.places, &before.circuit.places) && round.ratio == before.ratio
}

// Whether it does, and has the places of the policy.
fn keeps(
    alloc: Global,
    part: &Part,
    before: &Round,
    policy: &[PlaceId],
    round: &Round,
) -> Result<bool, AllocError>
    requires count { length policy.now ≡ length part.now.parts.now }
    requires round { IsRound part.now.net.now part.now.parts.now part.now.number round.now }
    ensures { IfOk result (λ yes. IsTrue yes ↔ Keeps part.now.parts.now part.now.number before.now
        policy.now round.now) }
{
    if !has_circuit_of(before, round) {
        return Ok(false);
    }
    let own = spread_of(alloc, part, round)?;
    Ok(has_places_of(part, policy, &own))
}

// The policy that is better than that of the round, and which members it changes.
#[derive(Drop)]
struct Step {
    policy: Vec<PlaceId>,
    marks: Vec<bool>,
}

// The better policy, and the members that it changes.
fn step_from(alloc: Global, part: &Part, round: &Round) -> Result<Step, AllocError>
    requires { Stands part.now.net.now part.now.parts.now part.now.number round.now }
    ensures { IfOk result (IsStep part.now.net.now part.now.parts.now part.now.number round.now) }
{
    let own = spread_of(alloc, part, round)?;
    let policy = better_policy(alloc, part, round.ratio, &own.policy, &own.values)?;
    let marks = changed(alloc, part, &own.policy, &policy)?;
    Ok(Step { policy, marks })
}

// Whether a transition is marked.
fn is_any(marks: &[bool]) -> bool
    ensures { IsTrue result ↔ ((t : ℕ) × IsMarked marks.now t) }
{
    for is_marked in marks {
        if *is_marked {
            return true;
        }
    }
    false
}

// Whether the round follows from the one before: the better policy has a circuit through a changed
// member, and the round is of the best of them, or it has none, and the round keeps the circuit.
fn follows(alloc: Global, part: &Part, before: &Round, round: &Round) -> Result<bool, AllocError>
    requires before { Stands part.now.net.now part.now.parts.now part.now.number before.now }
    requires round { IsRound part.now.net.now part.now.parts.now part.now.number round.now }
    ensures { IfOk result (λ yes. IsTrue yes ↔ FollowsRound part.now.net.now part.now.parts.now
        part.now.number before.now round.now) }
{
    let step = step_from(alloc, part, before)?;
    if !is_any(&step.marks) {
        return Ok(false);
    }
    if all_fit(part, &step.policy, &step.marks, None) {
        let is_kept = keeps(alloc, part, before, &step.policy, round)?;
        return Ok(is_kept);
    }
    let is_made = is_made_of(alloc, part, &step.policy, &step.marks, round)?;
    Ok(is_made)
}

// The round of this number.
pub(crate) fn round_at<'r>(rounds: &'r [Round], number: usize) -> &'r Round
    requires { number < length rounds.now }
    ensures { (d : Round) → result.now ≡ slice_index_or rounds.now number d }
{
    &rounds[number]
}

// Whether the round stands and is the first of the part.
fn begins(alloc: Global, part: &Part, round: &Round) -> Result<bool, AllocError>
    ensures { IfOk result (λ yes. IsTrue yes ↔ (Stands part.now.net.now part.now.parts.now
        part.now.number round.now × IsFirstRound part.now.net.now part.now.parts.now
        part.now.number round.now)) }
{
    if !stands(part, round) {
        return Ok(false);
    }
    let is_first = is_first(alloc, part, round)?;
    Ok(is_first)
}

// Whether the round stands and follows from the one before.
fn goes_on(alloc: Global, part: &Part, before: &Round, round: &Round) -> Result<bool, AllocError>
    requires { Stands part.now.net.now part.now.parts.now part.now.number before.now }
    ensures { IfOk result (λ yes. IsTrue yes ↔ (Stands part.now.net.now part.now.parts.now
        part.now.number round.now × FollowsRound part.now.net.now part.now.parts.now
        part.now.number before.now round.now)) }
{
    if !stands(part, round) {
        return Ok(false);
    }
    let is_next = follows(alloc, part, before, round)?;
    Ok(is_next)
}

// How many of the first rounds are those that a policy run of the part begins with, within limits.
// In a live net none begins with one more.
pub(crate) fn rounds_begun(
    alloc: Global,
    part: &Part,
    rounds: &[Round],
) -> Result<usize, AllocError>
    ensures within { IfOk result (λ n. n ≤ length rounds.now) }
    ensures begun { IfOk result (λ n. HasBegun part.now.net.now part.now.parts.now part.now.number
        rounds.now n) }
    ensures all { IsLive part.now.net.now → IfOk result (λ n. n < length rounds.now
        → AreBegun part.now.net.now part.now.parts.now part.now.number rounds.now (n + 1) → ⊥) }
{
    part.net.rules();
    if rounds.len() == 0 {
        return Ok(0);
    }
    let is_begun = begins(alloc, part, round_at(rounds, 0))?;
    if !is_begun {
        return Ok(0);
    }
    for next in 1..rounds.len() {
        let is_next = goes_on(
            alloc,
            part,
            round_at(rounds, next - 1),
            round_at(rounds, next),
        )?;
        if !is_next {
            return Ok(next);
        }
    }
    Ok(rounds.len())
}

// Whether no place improves the round.
pub(crate) fn is_last(alloc: Global, part: &Part, round: &Round) -> Result<bool, AllocError>
    requires { Stands part.now.net.now part.now.parts.now part.now.number round.now }
    ensures { IfOk result (λ yes. IsTrue yes ↔ IsLastRound part.now.net.now part.now.parts.now
        part.now.number round.now) }
{
    let step = step_from(alloc, part, round)?;
    if is_any(&step.marks) {
        return Ok(false);
    }
    Ok(true)
}

// Whether the rounds are a policy run of the part. In a live net those of a run keep the limits.
fn is_run(alloc: Global, part: &Part, rounds: &[Round]) -> Result<bool, AllocError>
    ensures sure { IfOk result (λ yes. IsTrue yes → IsPolicyRun part.now.net.now part.now.parts.now
        part.now.number rounds.now) }
    ensures all { IsLive part.now.net.now → IfOk result (λ yes. IsPolicyRun part.now.net.now
        part.now.parts.now part.now.number rounds.now → IsTrue yes) }
{
    if rounds.len() == 0 {
        return Ok(false);
    }
    let begun = rounds_begun(alloc, part, rounds)?;
    if begun < rounds.len() {
        return Ok(false);
    }
    let is_ended = is_last(alloc, part, round_at(rounds, rounds.len() - 1))?;
    Ok(is_ended)
}

/// Whether the rounds are a policy run of the part (`IsPolicyRun`; Howard's algorithm, of which the
/// book has none): the first is that of the policy of the lowest numbered places, each follows from
/// the one before by the rule of the search, and no place improves the last. A yes says that they
/// are one, and in a live net a no that they are none. In another net a circuit without time and
/// tokens has each ratio, so a run may pass the limits of circuits, and is then told with a no.
///
/// The numbers of parts are one for each transition, in any sense. `Err` is want of memory, and
/// nothing else. It takes time of the order of the cube of the part's members for each round, and
/// memory for a few numbers for each transition.
pub fn check_run(
    alloc: Global,
    net: &Net,
    parts: &[u32],
    part: u32,
    rounds: &[Round],
) -> Result<bool, OutOfMemory>
    requires { length parts.now ≡ length net.now.transitions }
    ensures sure { IfOk result (λ yes. IsTrue yes
        → IsPolicyRun net.now parts.now part rounds.now) }
    ensures all { IsLive net.now → IfOk result (λ yes.
        IsPolicyRun net.now parts.now part rounds.now → IsTrue yes) }
{
    let own = Part {
        net,
        parts,
        number: part,
    };
    let is_run = is_run(alloc, &own, rounds)?;
    Ok(is_run)
}
