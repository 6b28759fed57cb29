//! Walks over firings: the net unfolded over firing numbers (chapter 2).
ghost use Rattle.std.specs.Prelude.{◌≡◌, ◌≤◌, ◌↔◌, ℕ, [], ◌∷◌, IsTrue, IfNone, IfSome};
ghost use Rattle.teg_net.specs.Limits.{greatest_hold, greatest_firing_number};
ghost use Rattle.teg_net.specs.Walks.{EndsAt, IsFiring, IsStepOf, IsWalk, WalksWithin, step_time, walk_time};

use crate::entries::{PlaceId, TransitionId};
use crate::limits::GREATEST_FIRING_NUMBER;
use crate::net::Net;

/// A step of a walk.
#[derive(Clone, Copy, Debug, PartialEq, Eq)]
pub enum Step {
    /// From a firing of the place's upstream transition to the firing of its downstream transition
    /// that waits for it: the number rises by the tokens of the place.
    By(PlaceId),
    /// To the next firing of the same transition.
    Next,
}

/// A walk over firings, from a firing of a transition on.
#[derive(Debug, Drop, PartialEq, Eq)]
pub struct Walk {
    pub start: TransitionId,
    /// The number of the firing, from 1.
    pub number: u64,
    pub steps: Vec<Step>,
}

// The firing to which the step leads; none where it does not leave this transition, is no place of
// the net, or leads past the greatest number.
fn step_end(net: &Net, start: TransitionId, number: u64, step: Step) -> Option<(TransitionId, u64)>
    requires { number ≤ greatest_firing_number }
    ensures none { IfNone result ((b k : ℕ) → WalksWithin net.now start.index number (step ∷ []) b k
        → ⊥) }
    ensures end { IfSome result (λ end. WalksWithin net.now start.index number (step ∷ [])
        end.0.index end.1) }
{
    let places = net.places();
    let (end, to) = match step {
        Step::By(id) => {
            let place = places.get(id.index as usize)?;
            if place.from.index != start.index {
                return None;
            }
            (place.to, number + u64::from(place.tokens))
        }
        Step::Next => (start, number + 1),
    };
    if GREATEST_FIRING_NUMBER < to {
        return None;
    }
    Some((end, to))
}

// The firing to which the steps lead; none where they do not follow each other from this firing on,
// or pass the greatest number.
fn steps_end(
    net: &Net,
    start: TransitionId,
    number: u64,
    steps: &[Step],
) -> Option<(TransitionId, u64)>
    requires { number ≤ greatest_firing_number }
    ensures none { IfNone result ((b k : ℕ) → WalksWithin net.now start.index number steps.now b k
        → ⊥) }
    ensures end { IfSome result (λ end. WalksWithin net.now start.index number steps.now end.0.index
        end.1) }
{
    let mut at = start;
    let mut count = number;
    for step in steps {
        (at, count) = step_end(net, at, count, *step)?;
    }
    Some((at, count))
}

// Whether this is a firing of the net, with a number from 1 to the greatest one.
fn is_firing(net: &Net, transition: TransitionId, number: u64) -> bool
    ensures { IsTrue result ↔ IsFiring net.now transition.index number }
{
    (transition.index as usize) < net.transitions().len()
        && 1 <= number
        && number <= GREATEST_FIRING_NUMBER
}

/// Whether the walk starts at a firing of the net from number 1 on, each place on it leaves the
/// transition where it stands, and each firing number is at most 10^18. It takes no memory.
pub fn is_walk(net: &Net, walk: &Walk) -> bool
    ensures { IsTrue result ↔ IsWalk net.now walk.now }
{
    is_firing(net, walk.start, walk.number)
        && steps_end(net, walk.start, walk.number, &walk.steps).is_some()
}

// The holding time that the step takes.
fn step_time(net: &Net, step: Step) -> u128
    requires { IsStepOf net.now step }
    ensures value { result ≡ step_time net.now step }
    ensures most { result ≤ greatest_hold }
{
    match step {
        Step::By(id) => u128::from(net.places()[id.index as usize].hold),
        Step::Next => 0,
    }
}

/// The sum of the holding times of the places on the walk, in the user's unit. It takes no memory.
pub fn walk_time(net: &Net, walk: &Walk) -> u128
    requires { IsWalk net.now walk.now }
    ensures { result ≡ walk_time net.now walk.now.steps.items }
{
    let mut time: u128 = 0;
    for step in &walk.steps {
        time += step_time(net, *step);
    }
    time
}

/// The transition and the firing number at which the walk ends. It takes no memory.
pub fn walk_end(net: &Net, walk: &Walk) -> (TransitionId, u64)
    requires { IsWalk net.now walk.now }
    ensures end { EndsAt net.now walk.now result.0.index result.1 }
    ensures number { result.1 ≤ greatest_firing_number }
{
    steps_end(net, walk.start, walk.number, &walk.steps).unwrap()
}
