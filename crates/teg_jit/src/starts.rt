//! Where a late walk begins: at a firing whose latest date is its start.
ghost use Rattle.std.specs.Prelude.{◌≡◌, ◌<◌, length, IfNone, IfSome};
ghost use Rattle.teg_jit.specs.FirstLate.{HasDateAtStart, HasDateWhenReady, HasDateZero, IsAtStart, IsDateAt, IsWhenReady, StartsAreKept};

use crate::answers::LatestDate;
use crate::plan::Plan;
use teg_net::{Net, PlaceId, TransitionId};

// The first firing whose latest date is 0.
fn first_at_zero(plan: &Plan, width: usize) -> Option<(TransitionId, u32)>
    requires width { width ≡ plan.now.width }
    ensures none { IfNone result (HasDateZero plan.now → ⊥) }
    ensures some { IfSome result (λ at. IsDateAt plan.now at.0.index at.1 0) }
{
    for number in 1..plan.numbers() + 1 {
        for index in 0..width {
            let transition = TransitionId {
                index: index as u32,
            };
            match plan.latest(transition, number) {
                LatestDate::At { date: 0, .. } => return Some((transition, number)),
                _ => {}
            }
        }
    }
    None
}

// A firing whose latest date is the ready date of an initial token that it takes.
fn first_when_ready(net: &Net, plan: &Plan) -> Option<(TransitionId, u32)>
    requires width { plan.now.width ≡ length net.now.transitions }
    ensures none { IfNone result (HasDateWhenReady net.now plan.now → ⊥) }
    ensures some { IfSome result (λ at. IsWhenReady net.now plan.now at.0.index at.1) }
{
    for (index, place) in net.places().iter().enumerate() {
        let id = PlaceId {
            index: index as u32,
        };
        for token in 1..place.tokens.min(plan.numbers()) + 1 {
            match plan.latest(place.to, token) {
                LatestDate::At { date, .. } if date == net.ready(id, token) => {
                    return Some((place.to, token));
                }
                _ => {}
            }
        }
    }
    None
}

// A firing whose latest date is its start: 0, or the ready date of an initial token that it takes.
pub(crate) fn first_at_start(net: &Net, plan: &Plan) -> Option<(TransitionId, u32)>
    requires width { plan.now.width ≡ length net.now.transitions }
    requires kept { StartsAreKept net.now plan.now }
    ensures none { IfNone result (HasDateAtStart net.now plan.now → ⊥) }
    ensures some { IfSome result (λ at. IsAtStart net.now plan.now at.0.index at.1) }
{
    match first_when_ready(net, plan) {
        Some(at) => Some(at),
        None => first_at_zero(plan, net.transitions().len()),
    }
}
