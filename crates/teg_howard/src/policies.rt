//! Policies of a part: the first one, and the better one that the potentials give (policy
//! improvement).
ghost use Rattle.std.specs.Prelude.{◌≡◌, ◌≢◌, ◌<◌, ◌↔◌, ℕ, length, None, IsTrue, IfOk};
ghost use Rattle.teg_parts.specs.Components.{IsMarked};
ghost use Rattle.teg_howard.specs.InnerPlaces.{ListsPlaces};
ghost use Rattle.teg_howard.specs.FoundCircuits.{IsBar, CanImprove, IsBetterPolicy, value_held, potentials};
ghost use Rattle.policy_rounds.specs.PolicyLists.{AreLowest};

use crate::inside::{Part, is_inside};
use crate::offers::{end_of, offer_from};
use std::alloc::{AllocError, Global};
use teg_net::{Net, PlaceId, Ratio};

// For each member the lowest numbered place that enters it.
pub(crate) fn lowest_places(
    alloc: Global,
    net: &Net,
    parts: &[u32],
    part: u32,
) -> Result<Vec<PlaceId>, AllocError>
    requires { length parts.now ≡ length net.now.transitions }
    ensures { IfOk result (λ policy. AreLowest net.now parts.now part policy.items) }
{
    let places = net.places();
    let mut policy = vec![in alloc; PlaceId { index: 0 }; parts.len()]?;
    for index in (0..places.len()).rev() {
        let place = &places[index];
        if is_inside(parts, part, place) {
            policy[place.to.index as usize] = PlaceId {
                index: index as u32,
            };
        }
    }
    Ok(policy)
}

// What an offer to the member has to exceed: the greatest so far, and before that its value.
fn bar_of(values: &[Option<i128>], greatest: &[i128], changed: &[bool], member: usize) -> i128
    requires greatest { member < length greatest.now }
    requires changed { member < length changed.now }
    requires has { value_held values.now member ≢ None }
    ensures { IsBar (potentials values.now) greatest.now changed.now member result }
{
    if changed[member] {
        greatest[member]
    } else {
        values[member].unwrap()
    }
}

// Gives each member that a place improves the lowest numbered place of greatest offer, and marks
// it.
pub(crate) fn improve(
    alloc: Global,
    part: &Part,
    ratio: Ratio,
    values: &[Option<i128>],
    policy: &mut [PlaceId],
) -> Result<Vec<bool>, AllocError>
    requires inner { ListsPlaces part.now.net.now part.now.parts.now part.now.number
        part.now.ids.now }
    requires can { CanImprove part.now.net.now part.now.parts.now part.now.number ratio values.now
        policy.old }
    ensures { IfOk result (λ changed. IsBetterPolicy part.now.net.now part.now.parts.now
        part.now.number ratio values.now policy.old policy.new changed.items) }
{
    let Part {
        net,
        parts,
        ids,
        ..
    } = *part;
    let mut greatest = vec![in alloc; 0i128; parts.len()]?;
    let mut changed = vec![in alloc; false; parts.len()]?;
    for id in ids {
        let member = end_of(net, *id);
        let offered = offer_from(net, ratio, values, *id);
        if offered > bar_of(values, &greatest, &changed, member) {
            greatest[member] = offered;
            changed[member] = true;
            policy[member] = *id;
        }
    }
    Ok(changed)
}

// Whether a transition is marked.
pub(crate) fn is_any(marked: &[bool]) -> bool
    ensures { IsTrue result ↔ ((t : ℕ) × IsMarked marked.now t) }
{
    for is_marked in marked {
        if *is_marked {
            return true;
        }
    }
    false
}
