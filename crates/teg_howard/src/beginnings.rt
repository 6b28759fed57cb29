//! Policies to begin with, by what an earlier answer tells.
ghost use Rattle.std.specs.Prelude.{◌≡◌, ◌≤◌, length, IfOk};
ghost use Rattle.teg_net.specs.Limits.{greatest_hold, most_place_tokens};
ghost use Rattle.teg_howard.specs.RoundStates.{HasCircuit};
ghost use Rattle.teg_howard.specs.FoundCircuits.{IsBeginning};

use crate::inside::is_inside;
use crate::policies::lowest_places;
use std::alloc::{AllocError, Global};
use teg_net::{Net, PartAnswer, Place, PlaceId, Potential, Ratio};

// The potential told of each transition, and 0 where none is told.
fn values_told(
    alloc: Global,
    count: usize,
    potentials: &[Potential],
) -> Result<Vec<i128>, AllocError>
    ensures { IfOk result (λ values. length values.items ≡ count) }
{
    let mut values = vec![in alloc; 0i128; count]?;
    for potential in potentials {
        let index = potential.transition.index();
        if index < count {
            values[index] = potential.value;
        }
    }
    Ok(values)
}

// What a place offers to its end, where its start has the value: no number is past the limits of
// the type, whatever the ratio and the value.
fn offer_at(ratio: Ratio, place: &Place, value: i128) -> i128
    requires hold { place.now.hold ≤ greatest_hold }
    requires tokens { place.now.tokens ≤ most_place_tokens }
{
    let gain = i128::from(ratio.tokens()) * i128::from(place.hold);
    let loss = i128::from(ratio.time()) * i128::from(place.tokens);
    (gain - loss).saturating_add(value)
}

// The lowest numbered place of each member, to begin with.
fn lowest_first(
    alloc: Global,
    net: &Net,
    parts: &[u32],
    part: u32,
) -> Result<Vec<PlaceId>, AllocError>
    requires { HasCircuit net.now parts.now part }
    ensures { IfOk result (λ policy. IsBeginning net.now parts.now part policy.items) }
{
    lowest_places(alloc, net, parts, part)
}

// For each member the place of greatest offer by the ratio and the values.
fn greatest_first(
    alloc: Global,
    net: &Net,
    parts: &[u32],
    part: u32,
    ratio: Ratio,
    values: &[i128],
) -> Result<Vec<PlaceId>, AllocError>
    requires circuit { HasCircuit net.now parts.now part }
    requires values { length values.now ≡ length parts.now }
    ensures { IfOk result (λ policy. IsBeginning net.now parts.now part policy.items) }
{
    let mut policy = lowest_first(alloc, net, parts, part)?;
    let mut greatest = vec![in alloc; i128::MIN; parts.len()]?;
    for (index, place) in net.places().iter().enumerate() {
        if is_inside(parts, part, place) {
            let offered = offer_at(ratio, place, values[place.from.index as usize]);
            let member = place.to.index as usize;
            if greatest[member] < offered {
                greatest[member] = offered;
                policy[member] = PlaceId {
                    index: index as u32,
                };
            }
        }
    }
    Ok(policy)
}

// The policy to begin with that an earlier answer gives.
pub(crate) fn policy_after(
    alloc: Global,
    net: &Net,
    parts: &[u32],
    part: u32,
    before: &PartAnswer,
) -> Result<Vec<PlaceId>, AllocError>
    requires { HasCircuit net.now parts.now part }
    ensures { IfOk result (λ policy. IsBeginning net.now parts.now part policy.items) }
{
    match before {
        PartAnswer::NoCircuit => lowest_first(alloc, net, parts, part),
        PartAnswer::Best {
            ratio,
            potentials,
            ..
        } => {
            let values = values_told(alloc, parts.len(), potentials)?;
            greatest_first(alloc, net, parts, part, *ratio, &values)
        }
    }
}
