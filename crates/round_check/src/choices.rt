//! The choices of a round: what is chosen for each member, and whether that is one choice for each.
ghost use Rattle.std.specs.Prelude.{◌≡◌, ◌≢◌, ◌↔◌, ◌<◌, ℕ, All, AllPairs, IsTrue, None};
ghost use Rattle.teg_net.specs.Parts.{IsMember, ListsMembers};
ghost use Rattle.policy_rounds.specs.PolicyRounds.{choice_of_member, chosen_for, chosen_place, value_in};
ghost use Rattle.policy_rounds.specs.PolicyLists.{ListsChoices};
ghost use Rattle.round_check.specs.Checks.{AreEntered};

use crate::parts::{Part, enters, is_member};
use teg_net::{Choice, PlaceId};

// The choice for the transition, if there is one.
fn choice_for(choices: &[Choice], transition: usize) -> Option<Choice>
    ensures { result ≡ choice_of_member choices.now transition }
{
    for choice in choices {
        if choice.transition.index as usize == transition {
            return Some(*choice);
        }
    }
    None
}

// The place that is chosen for the transition, and place 0 where none is.
pub(crate) fn place_for(choices: &[Choice], transition: usize) -> PlaceId
    ensures { result ≡ chosen_place (choice_of_member choices.now transition) }
{
    match choice_for(choices, transition) {
        Some(choice) => choice.place,
        None => PlaceId { index: 0 },
    }
}

// The potential of the transition, and 0 where none is told.
pub(crate) fn value_for(choices: &[Choice], transition: usize) -> i128
    ensures { result ≡ value_in (choice_of_member choices.now transition) }
{
    match choice_for(choices, transition) {
        Some(choice) => choice.value,
        None => 0,
    }
}

// Whether the first choice is for a lower numbered transition than the second.
fn is_before(first: Choice, second: Choice) -> bool
    ensures { IsTrue result ↔ (first.transition.index < second.transition.index) }
{
    first.transition.index < second.transition.index
}

// Whether the choices stand in order of transition.
fn in_order(choices: &[Choice]) -> bool
    ensures { IsTrue result ↔ AllPairs (λ c d. c.transition.index < d.transition.index)
        choices.now }
{
    for next in 1..choices.len() {
        if !is_before(choices[next - 1], choices[next]) {
            return false;
        }
    }
    true
}

// Whether each choice is for a member of the part.
fn only_members(parts: &[u32], number: u32, choices: &[Choice]) -> bool
    ensures { IsTrue result ↔ All (λ c. IsMember parts.now number c.transition.index) choices.now }
{
    choices.iter().all(|choice| is_member(parts, number, choice.transition.index as usize))
}

// Whether the transition has a choice, if it is a member of the part.
fn has_choice(parts: &[u32], number: u32, choices: &[Choice], transition: usize) -> bool
    ensures { IsTrue result ↔ (IsMember parts.now number transition
        → choice_of_member choices.now transition ≢ None) }
{
    if !is_member(parts, number, transition) {
        return true;
    }
    choice_for(choices, transition).is_some()
}

// Whether each member has a choice.
fn all_members(parts: &[u32], number: u32, choices: &[Choice]) -> bool
    ensures { IsTrue result ↔ ((t : ℕ) → IsMember parts.now number t
        → choice_of_member choices.now t ≢ None) }
{
    for transition in 0..parts.len() {
        if !has_choice(parts, number, choices, transition) {
            return false;
        }
    }
    true
}

// Whether the choices are one for each member of the part, in order.
fn are_one_each(parts: &[u32], number: u32, choices: &[Choice]) -> bool
    ensures { IsTrue result ↔ ListsChoices parts.now number choices.now }
{
    in_order(choices) && only_members(parts, number, choices) && all_members(parts, number, choices)
}

// Whether the transitions of the choices are the members of the part, in order.
pub(crate) fn list_members(parts: &[u32], number: u32, choices: &[Choice]) -> bool
    ensures { IsTrue result ↔ ListsMembers parts.now number (chosen_for choices.now) }
{
    are_one_each(parts, number, choices)
}

// Whether each choice is of a place of the part that enters its transition.
pub(crate) fn are_entered(part: &Part, choices: &[Choice]) -> bool
    ensures { IsTrue result ↔ AreEntered part.now.net.now part.now.parts.now part.now.number
        choices.now }
{
    choices.iter().all(|choice| enters(part, choice.transition.index as usize, choice.place))
}
