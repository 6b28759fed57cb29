//! The potentials of a policy: every member is routed to the circuit, and gets its potential (value
//! determination).
ghost use Rattle.std.specs.Prelude.{◌≡◌, ◌≢◌, ◌<◌, ◌≤◌, ◌↔◌, ℕ, length, IsTrue, IfOk, IfSome, IfNone, None};
ghost use Rattle.teg_net.specs.Circuits.{AreInRange};
ghost use Rattle.teg_net.specs.Parts.{IsMember};
ghost use Rattle.teg_net.specs.PartAnswers.{first_transition_of};
ghost use Rattle.teg_parts.specs.Partitions.{AreStrong};
ghost use Rattle.teg_howard.specs.InnerPlaces.{AreInner};
ghost use Rattle.teg_howard.specs.Following.{CanFollow};
ghost use Rattle.teg_howard.specs.FoundCircuits.{value_held, LeadsOn, NoneLeadsOn, IsFirstOn, AreChoicesMade, CanSettle, AreRouted, IsSettled};
ghost use Rattle.policy_rounds.specs.PolicyLists.{policy_of};

use crate::following::follow;
use crate::inside::Part;
use crate::offers::{end_of, offer_from, start_of};
use std::alloc::{AllocError, Global};
use teg_net::{Choice, Circuit, Net, PlaceId, Ratio, Round, TransitionId};

// A round, and the members' potentials by transition.
#[derive(Drop)]
pub(crate) struct RoundState {
    pub(crate) round: Round,
    pub(crate) values: Vec<Option<i128>>,
}

// Whether the place leads from a transition with a value to one without. Both are read, since a
// branch between them would be hard to foresee.
fn joins(net: &Net, values: &[Option<i128>], id: PlaceId) -> bool
    requires place { id.index < length net.now.places }
    requires values { length values.now ≡ length net.now.transitions }
    ensures { IsTrue result ↔ LeadsOn net.now values.now id }
{
    let place = &net.places()[id.index as usize];
    values[place.from.index as usize].is_some() & values[place.to.index as usize].is_none()
}

// The rank in the list of the first place from a transition with a value to one without, where
// none stands below `from`.
fn next_join(net: &Net, ids: &[PlaceId], values: &[Option<i128>], from: usize) -> Option<usize>
    requires in_range { AreInRange net.now ids.now }
    requires values { length values.now ≡ length net.now.transitions }
    requires none_before { NoneLeadsOn net.now values.now ids.now from }
    ensures some { IfSome result (IsFirstOn net.now values.now ids.now) }
    ensures none { IfNone result (NoneLeadsOn net.now values.now ids.now (length ids.now)) }
{
    for rank in from..ids.len() {
        if joins(net, values, ids[rank]) {
            return Some(rank);
        }
    }
    None
}

// The potentials of all members. They spread from the root along the policy, and every member that
// is not reached is routed to the root: the lowest numbered place from a member with a potential to
// one without is taken into the policy, until there is none. A place that was passed can join only
// once the transition that it leaves gets its potential, so the search goes on from the lower of
// where it stood and the first exit of that transition.
fn route(
    alloc: Global,
    part: &Part,
    policy: &mut [PlaceId],
    ratio: Ratio,
    root: usize,
) -> Result<Vec<Option<i128>>, AllocError>
    requires inner { AreInner part.now.net.now part.now.parts.now part.now.number part.now.ids.now
        part.now.exits.now }
    requires strong { AreStrong part.now.net.now part.now.parts.now }
    requires can { CanFollow part.now.net.now part.now.parts.now part.now.number policy.old ratio
        root }
    ensures { IfOk result (λ values. AreRouted part.now.net.now part.now.parts.now part.now.number
        policy.old policy.new ratio root values.items) }
{
    let mut values = follow(alloc, part, policy, ratio, root)?;
    let mut from = 0;
    'route: while let Some(rank) = next_join(part.net, part.ids, &values, from) {
        let id = part.ids[rank];
        let member = end_of(part.net, id);
        policy[member] = id;
        values[member] = Some(offer_from(part.net, ratio, &values, id));
        from = rank.min(part.exits[member]);
    }
    Ok(values)
}

// The choices of a round: the members' places and potentials, in order of member.
fn choices_of(
    alloc: Global,
    part: &Part,
    policy: &[PlaceId],
    values: &[Option<i128>],
) -> Result<Vec<Choice>, AllocError>
    requires few { length part.now.parts.now ≤ 400 }
    requires count { length policy.now ≡ length part.now.parts.now }
    requires count_values { length values.now ≡ length part.now.parts.now }
    requires has { (t : ℕ) → IsMember part.now.parts.now part.now.number t → value_held values.now t
        ≢ None }
    ensures { IfOk result (λ choices. AreChoicesMade part.now.parts.now part.now.number (policy_of
        policy.now) values.now choices.items) }
{
    let Part { parts, number, .. } = *part;
    let mut choices = Vec::new(alloc);
    for member in 0..parts.len() {
        if parts[member] == number {
            choices.push(Choice {
                transition: TransitionId {
                    index: member as u32,
                },
                place: policy[member],
                value: values[member].unwrap(),
            })?;
        }
    }
    Ok(choices)
}

// The number of the transition at which the circuit begins.
fn root_of(net: &Net, circuit: &[PlaceId]) -> usize
    requires not_empty { 0 < length circuit.now }
    requires in_range { AreInRange net.now circuit.now }
    ensures { result ≡ first_transition_of net.now circuit.now }
{
    start_of(net, circuit[0])
}

// The round of a policy and one of its circuits: every other member is routed to the circuit,
// and gets its potential.
pub(crate) fn settle(
    alloc: Global,
    part: &Part,
    policy: &mut [PlaceId],
    ratio: Ratio,
    circuit: Vec<PlaceId>,
) -> Result<RoundState, AllocError>
    requires inner { AreInner part.now.net.now part.now.parts.now part.now.number part.now.ids.now
        part.now.exits.now }
    requires can { CanSettle part.now.net.now part.now.parts.now part.now.number policy.old ratio
        circuit.items }
    ensures { IfOk result (λ state. IsSettled part.now.net.now part.now.parts.now part.now.number
        policy.old policy.new ratio circuit.items state) }
{
    let root = root_of(part.net, &circuit);
    let values = route(alloc, part, policy, ratio, root)?;
    let choices = choices_of(alloc, part, policy, &values)?;
    let round = Round {
        ratio,
        circuit: Circuit { places: circuit },
        choices,
    };
    Ok(RoundState { round, values })
}
