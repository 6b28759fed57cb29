//! The policies that a run goes by: the lowest numbered places, and after each round the places that
//! offer more.
ghost use Rattle.std.specs.Prelude.{◌≡◌, ◌↔◌, ◌<◌, ◌≤◌, ◌+◌, ◌*◌, ◌+ℤ◌, ◌-ℤ◌, ◌<ℤ◌, ℕ, pos, All, IfNone, IfOk, IfSome, IsTrue, length};
ghost use Rattle.teg_net.specs.declared.entries.PlaceId.{PlaceId};
ghost use Rattle.teg_net.specs.Limits.{greatest_hold, greatest_scaled_potential, most_place_tokens};
ghost use Rattle.teg_net.specs.Parts.{IsMember};
ghost use Rattle.teg_net.specs.ReducedTimes.{IsMagnitudeWithin};
ghost use Rattle.policy_rounds.specs.Policies.{Enters, IsChanged, IsImprovement, first_id, offer_of};
ghost use Rattle.policy_rounds.specs.PolicyRounds.{IsLowestInto};
ghost use Rattle.policy_rounds.specs.PolicyLists.{AreLowest, IsCircuitRatio, policy_of};
ghost use Rattle.teg_parts.specs.Components.{IsMarked};
ghost use Rattle.round_check.specs.Offers.{AreSmall, IsBetterAt, IsGreaterOf, IsMostBelow, IsSpread, values_at};

use crate::choices::{place_for, value_for};
use crate::parts::{Part, enters, is_member};
use crate::rounds::reduced;
use std::alloc::{AllocError, Global};
use teg_net::{Choice, Net, Place, PlaceId, Ratio};

// What a round chooses and tells for each transition: place 0 and 0 where it has no choice.
#[derive(Drop)]
pub(crate) struct Spread {
    pub(crate) policy: Vec<PlaceId>,
    pub(crate) values: Vec<i128>,
}

// The choices, by transition.
pub(crate) fn spread_choices(
    alloc: Global,
    count: usize,
    choices: &[Choice],
) -> Result<Spread, AllocError>
    requires { All (λ c. c.transition.index < count) choices.now }
    ensures { IfOk result (IsSpread count choices.now) }
{
    let mut policy = Vec::new(alloc);
    let mut values = Vec::new(alloc);
    for transition in 0..count {
        policy.push(place_for(choices, transition))?;
        values.push(value_for(choices, transition))?;
    }
    Ok(Spread { policy, values })
}

// The lowest numbered place of the part that enters the transition.
fn lowest_into(part: &Part, transition: usize) -> Option<PlaceId>
    ensures some { IfSome result (IsLowestInto part.now.net.now part.now.parts.now part.now.number
        transition) }
    ensures none { IfNone result ((p : PlaceId) → Enters part.now.net.now part.now.parts.now
        part.now.number transition p → ⊥) }
{
    part.net.rules();
    for index in 0..part.net.places().len() {
        let id = PlaceId {
            index: index as u32,
        };
        if enters(part, transition, id) {
            return Some(id);
        }
    }
    None
}

// The lowest numbered place of the part that enters the transition, and place 0 where none does.
fn first_into(part: &Part, transition: usize) -> PlaceId
    ensures lowest { (p : PlaceId) → Enters part.now.net.now part.now.parts.now part.now.number
        transition p → IsLowestInto part.now.net.now part.now.parts.now part.now.number transition
        result }
    ensures others { ((p : PlaceId) → Enters part.now.net.now part.now.parts.now part.now.number
        transition p → ⊥) → result ≡ first_id }
{
    match lowest_into(part, transition) {
        Some(id) => id,
        None => PlaceId { index: 0 },
    }
}

// For each transition that place.
pub(crate) fn lowest_places(alloc: Global, part: &Part) -> Result<Vec<PlaceId>, AllocError>
    ensures { IfOk result (λ policy. AreLowest part.now.net.now part.now.parts.now part.now.number
        policy.items) }
{
    let mut policy = Vec::new(alloc);
    for transition in 0..part.parts.len() {
        policy.push(first_into(part, transition))?;
    }
    Ok(policy)
}

// What a place offers to its end.
#[derive(Clone, Copy)]
pub(crate) struct Offer {
    pub(crate) place: PlaceId,
    pub(crate) value: i128,
}

// The reduced time of the place at the ratio.
fn reduced_at(ratio: Ratio, place: &Place) -> i128
    requires ratio { IsCircuitRatio ratio }
    requires hold { place.now.hold ≤ greatest_hold }
    requires tokens { place.now.tokens ≤ most_place_tokens }
    ensures value { result ≡ (pos (ratio.tokens * place.now.hold) -ℤ pos (ratio.time
        * place.now.tokens)) }
    ensures within { IsMagnitudeWithin greatest_scaled_potential result }
{
    reduced(ratio, place)
}

// What a place offers to its end, where its start has the value.
fn offered(ratio: Ratio, place: &Place, value: i128) -> i128
    requires ratio { IsCircuitRatio ratio }
    requires hold { place.now.hold ≤ greatest_hold }
    requires tokens { place.now.tokens ≤ most_place_tokens }
    requires within { IsMagnitudeWithin greatest_scaled_potential value }
    ensures { result ≡ (pos (ratio.tokens * place.now.hold) -ℤ pos (ratio.time * place.now.tokens)
        +ℤ value) }
{
    reduced_at(ratio, place) + value
}

// What the place of this number offers.
fn offer_from(net: &Net, ratio: Ratio, values: &[i128], id: PlaceId) -> i128
    requires place { id.index < length net.now.places }
    requires ratio { IsCircuitRatio ratio }
    requires count { length values.now ≡ length net.now.transitions }
    requires within { AreSmall values.now }
    ensures { result ≡ offer_of net.now ratio.time ratio.tokens (values_at values.now) id }
{
    net.rules();
    let place = &net.places()[id.index as usize];
    offered(ratio, place, values[place.from.index as usize])
}

// The greater of the offers, the first one of equals.
fn greater_of(most: Option<Offer>, next: Offer) -> Option<Offer>
    ensures { IsGreaterOf most next result }
{
    let Some(first) = most else {
        return Some(next);
    };
    if first.value >= next.value {
        Some(first)
    } else {
        Some(next)
    }
}

// The greatest offer to the transition, where this is that of the places before and this one is
// looked at too.
fn with_place(
    part: &Part,
    ratio: Ratio,
    values: &[i128],
    transition: usize,
    id: PlaceId,
    most: Option<Offer>,
) -> Option<Offer>
    requires ratio { IsCircuitRatio ratio }
    requires count { length values.now ≡ length part.now.parts.now }
    requires within { AreSmall values.now }
    requires place { id.index < length part.now.net.now.places }
    requires most { IsMostBelow part.now.net.now part.now.parts.now part.now.number ratio.time
        ratio.tokens (values_at values.now) transition id.index most }
    ensures { IsMostBelow part.now.net.now part.now.parts.now part.now.number ratio.time
        ratio.tokens (values_at values.now) transition (id.index + 1) result }
{
    if !enters(part, transition, id) {
        return most;
    }
    let value = offer_from(part.net, ratio, values, id);
    greater_of(most, Offer { place: id, value })
}

// The greatest offer to the transition of the places of the part that enter it, of the lowest
// numbered such place.
fn most_into(part: &Part, ratio: Ratio, values: &[i128], transition: usize) -> Option<Offer>
    requires ratio { IsCircuitRatio ratio }
    requires count { length values.now ≡ length part.now.parts.now }
    requires within { AreSmall values.now }
    ensures { IsMostBelow part.now.net.now part.now.parts.now part.now.number ratio.time
        ratio.tokens (values_at values.now) transition (length part.now.net.now.places) result }
{
    part.net.rules();
    let mut most = None;
    for index in 0..part.net.places().len() {
        let id = PlaceId {
            index: index as u32,
        };
        most = with_place(part, ratio, values, transition, id, most);
    }
    most
}

// The place of the offer where it is more than the value, and else the own one.
fn better_of(most: Offer, value: i128, own: PlaceId) -> PlaceId
    ensures more { value <ℤ most.value → result ≡ most.place }
    ensures rest { (value <ℤ most.value → ⊥) → result ≡ own }
{
    if most.value > value { most.place } else { own }
}

// The place of the greatest offer, where that is more than the potential of the transition, and
// else the one that it has.
fn better_into(
    part: &Part,
    ratio: Ratio,
    values: &[i128],
    transition: usize,
    own: PlaceId,
) -> PlaceId
    requires ratio { IsCircuitRatio ratio }
    requires count { length values.now ≡ length part.now.parts.now }
    requires within { AreSmall values.now }
    requires transition { transition < length part.now.parts.now }
    ensures { IsBetterAt part.now.net.now part.now.parts.now part.now.number ratio.time
        ratio.tokens (values_at values.now) transition own result }
{
    let Some(most) = most_into(part, ratio, values, transition) else {
        return own;
    };
    better_of(most, values[transition], own)
}

// The better policy.
pub(crate) fn better_policy(
    alloc: Global,
    part: &Part,
    ratio: Ratio,
    policy: &[PlaceId],
    values: &[i128],
) -> Result<Vec<PlaceId>, AllocError>
    requires ratio { IsCircuitRatio ratio }
    requires count { length policy.now ≡ length part.now.parts.now }
    requires count_values { length values.now ≡ length part.now.parts.now }
    requires within { AreSmall values.now }
    ensures count { IfOk result (λ better. length better.items ≡ length part.now.parts.now) }
    ensures improves { IfOk result (λ better. IsImprovement part.now.net.now part.now.parts.now
        part.now.number ratio.time ratio.tokens (policy_of policy.now) (values_at values.now)
        (policy_of better.items)) }
{
    let mut better = Vec::new(alloc);
    for transition in 0..part.parts.len() {
        let own = policy[transition];
        better.push(better_into(part, ratio, values, transition, own))?;
    }
    Ok(better)
}

// For each transition whether it is a member.
pub(crate) fn members(alloc: Global, part: &Part) -> Result<Vec<bool>, AllocError>
    ensures count { IfOk result (λ marks. length marks.items ≡ length part.now.parts.now) }
    ensures marks { IfOk result (λ marks. (t : ℕ) → IsMarked marks.items t
        ↔ IsMember part.now.parts.now part.now.number t) }
{
    let mut marks = Vec::new(alloc);
    for transition in 0..part.parts.len() {
        marks.push(is_member(part.parts, part.number, transition))?;
    }
    Ok(marks)
}

// Whether the transition is a member of which the policies have different places.
fn is_changed(part: &Part, policy: &[PlaceId], better: &[PlaceId], transition: usize) -> bool
    requires count { length policy.now ≡ length part.now.parts.now }
    requires count_better { length better.now ≡ length part.now.parts.now }
    requires transition { transition < length part.now.parts.now }
    ensures { IsTrue result ↔ IsChanged part.now.parts.now part.now.number (policy_of policy.now)
        (policy_of better.now) transition }
{
    is_member(part.parts, part.number, transition) && better[transition] != policy[transition]
}

// For each transition whether it is so.
pub(crate) fn changed(
    alloc: Global,
    part: &Part,
    policy: &[PlaceId],
    better: &[PlaceId],
) -> Result<Vec<bool>, AllocError>
    requires count { length policy.now ≡ length part.now.parts.now }
    requires count_better { length better.now ≡ length part.now.parts.now }
    ensures count { IfOk result (λ marks. length marks.items ≡ length part.now.parts.now) }
    ensures marks { IfOk result (λ marks. (t : ℕ) → IsMarked marks.items t
        ↔ IsChanged part.now.parts.now part.now.number (policy_of policy.now)
        (policy_of better.now) t) }
{
    let mut marks = Vec::new(alloc);
    for transition in 0..part.parts.len() {
        marks.push(is_changed(part, policy, better, transition))?;
    }
    Ok(marks)
}
