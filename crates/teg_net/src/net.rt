//! The net: its three lists under the rules that they keep.
ghost use Rattle.std.specs.Prelude.{◌≡◌, ◌<◌, ◌≤◌, length};

use crate::entries::{InputList, Place, PlaceId, Transition};
use std::marker::Model;

/// A timed event graph (chapter 2) whose lists keep the rules of `IsNet`: 1 to 400 transitions and
/// at most 4,000 places with names that are distinct among transitions and among places, places
/// within their limits whose ends are transitions of the net and of which none enters an input,
/// with a ready date for each of their tokens or none,
/// and at most one list for each input transition, whose dates never fall. Two nets are equal where
/// their lists are, entry by entry and in order.
#[derive(Debug, Drop)]
pub struct Net {
    transitions: Vec<Transition>,
    places: Vec<Place>,
    inputs: Vec<InputList>,
}

impl Model for Net {
    ghost use Rattle.teg_net.specs.Nets.{NetLists, IsNet, lists_of};

    ghost Value = { NetLists };

    ghost view = { λ n. lists_of n.transitions.items n.places.items n.inputs.items };

    ghost invariant = { λ n. IsNet (lists_of n.transitions.items n.places.items n.inputs.items) };
}

impl PartialEq for Net {
    ghost use Rattle.std.specs.Cmp.{and_per, on_per};
    ghost use Rattle.std.specs.Cmp.Lexicographic.{pointwise, lists_per};
    ghost use Rattle.std.specs.Ordering.{eq_of_both, on};
    ghost use Rattle.teg_net.specs.Nets.{NetLists};
    ghost use Rattle.teg_net.specs.contracts.entries.TransitionPartialEq.TheImpl.{eq-value as transition_eq};
    ghost use Rattle.teg_net.specs.contracts.entries.TransitionPartialEq.TheImpl.Laws.{laws-law as transition_laws};
    ghost use Rattle.teg_net.specs.contracts.entries.PlacePartialEq.TheImpl.{eq-value as place_eq};
    ghost use Rattle.teg_net.specs.contracts.entries.PlacePartialEq.TheImpl.Laws.{laws-law as place_laws};
    ghost use Rattle.teg_net.specs.contracts.entries.InputListPartialEq.TheImpl.{eq-value as input_eq};
    ghost use Rattle.teg_net.specs.contracts.entries.InputListPartialEq.TheImpl.Laws.{laws-law as input_laws};

    ghost eq = { eq_of_both (on (λ (n : NetLists). n.transitions) (pointwise transition_eq.it))
        (eq_of_both (on (λ (n : NetLists). n.places) (pointwise place_eq.it))
        (on (λ (n : NetLists). n.inputs) (pointwise input_eq.it))) };

    ghost laws = { and_per (on_per (λ (n : NetLists). n.transitions) (lists_per transition_laws))
        (and_per (on_per (λ (n : NetLists). n.places) (lists_per place_laws))
        (on_per (λ (n : NetLists). n.inputs) (lists_per input_laws))) };

    fn eq(&self, other: &Net) -> bool {
        self.transitions.as_slice() == other.transitions.as_slice()
            && self.places.as_slice() == other.places.as_slice()
            && self.inputs.as_slice() == other.inputs.as_slice()
    }
}

impl Net {
    ghost use Rattle.teg_net.specs.Changes.{MayHaveTokens, with_hold, with_tokens};
    ghost use Rattle.teg_net.specs.Circuits.{place_at};
    ghost use Rattle.teg_net.specs.Limits.{greatest_hold};
    ghost use Rattle.teg_net.specs.Nets.{IsNet, lists_of};

    /// The net of these lists, which keep the rules of a net; [`Net::checked`] tests whether they
    /// do. It takes no memory.
    pub fn new(transitions: Vec<Transition>, places: Vec<Place>, inputs: Vec<InputList>) -> Net
        requires { IsNet (lists_of transitions.items places.items inputs.items) }
        ensures { result ≡ lists_of transitions.items places.items inputs.items }
    {
        Net {
            transitions,
            places,
            inputs,
        }
    }

    /// That the net keeps the rules of nets. It does nothing when it runs: it is called where a
    /// caller's own promise needs the rules.
    pub fn rules(&self)
        ensures { IsNet self.now }
    {
        let _own = self.transitions();
    }

    /// The transitions in order. It takes no memory.
    pub fn transitions(&self) -> &[Transition]
        ensures value { result.now ≡ self.now.transitions }
        ensures rules { IsNet self.now }
    {
        &self.transitions
    }

    /// The places in order. It takes no memory.
    pub fn places(&self) -> &[Place]
        ensures value { result.now ≡ self.now.places }
        ensures rules { IsNet self.now }
    {
        &self.places
    }

    /// The input lists in order. It takes no memory.
    pub fn inputs(&self) -> &[InputList]
        ensures value { result.now ≡ self.now.inputs }
        ensures rules { IsNet self.now }
    {
        &self.inputs
    }

    /// Gives the place another holding time, in the user's unit and at most 1,000,000,000; all else
    /// stays. The circuits and their tokens stay too (`holds_keep_circuits`), so that a live net
    /// stays live. It takes no memory.
    pub fn set_hold(&mut self, place: PlaceId, hold: u64)
        requires place { place.index < length self.old.places }
        requires hold { hold ≤ greatest_hold }
        ensures { self.new ≡ with_hold self.old place hold }
    {
        self.places[place.index as usize].hold = hold;
    }

    /// Gives the place another number of initial tokens, at most 1,000, and as many as it has ready
    /// dates where it has some; all else stays, its ready dates too. The net may become live, or
    /// live no more. It takes no memory.
    pub fn set_tokens(&mut self, place: PlaceId, tokens: u32)
        requires place { place.index < length self.old.places }
        requires tokens { MayHaveTokens (place_at self.old place) tokens }
        ensures { self.new ≡ with_tokens self.old place tokens }
    {
        self.places[place.index as usize].tokens = tokens;
    }
}
