//! Transitions and places by their names and by their numbers.
ghost use Rattle.std.specs.Prelude.{◌≡◌, ◌≢◌, ◌↔◌, ◌<◌, All, Option, Some, None, IfSome, IsSomeAnd, IsTrue, length, slice_get};
ghost use Rattle.teg_net.specs.Circuits.{place_at};
ghost use Rattle.teg_net.specs.Nets.{IsInput};

use crate::entries::{Place, PlaceId, Role, Transition, TransitionId};
use crate::net::Net;

impl Net {
    /// The transition of this name; none exactly where no transition has it. It takes no memory and
    /// a step a transition; [`crate::Names`] and [`crate::NameOrder`] find faster.
    pub fn find(&self, name: &str) -> Option<TransitionId>
        ensures none { (result ≡ None) ↔ All (λ t. t.name ≢ name.now) self.now.transitions }
        ensures found { IfSome result (λ id. IsSomeAnd (slice_get self.now.transitions id.index)
            (λ t. t.name ≡ name.now)) }
    {
        for (index, transition) in self.transitions().iter().enumerate() {
            if transition.name.as_str() == name {
                return Some(TransitionId {
                    index: index as u32,
                });
            }
        }
        None
    }

    /// The place of this name; none exactly where no place has it. It takes no memory, and a step a
    /// place; [`crate::Names`] finds faster.
    pub fn find_place(&self, name: &str) -> Option<PlaceId>
        ensures none { (result ≡ None) ↔ All (λ p. p.name ≢ name.now) self.now.places }
        ensures found { IfSome result (λ id. IsSomeAnd (slice_get self.now.places id.index)
            (λ p. p.name ≡ name.now)) }
    {
        for (number, place) in self.places().iter().enumerate() {
            if place.name.as_str() == name {
                return Some(PlaceId {
                    index: number as u32,
                });
            }
        }
        None
    }

    /// How many transitions the net has, 1 to 400: their numbers are those below it. It takes no
    /// memory.
    pub fn transition_count(&self) -> u32
        ensures { result ≡ length self.now.transitions }
    {
        self.transitions().len() as u32
    }

    /// How many places the net has, at most 4,000: their numbers are those below it. It takes no
    /// memory.
    pub fn place_count(&self) -> u32
        ensures { result ≡ length self.now.places }
    {
        self.places().len() as u32
    }

    /// Whether the net has a transition of this number. It takes no memory.
    pub fn contains_transition(&self, id: TransitionId) -> bool
        ensures { IsTrue result ↔ id.index < length self.now.transitions }
    {
        id.index() < self.transitions().len()
    }

    /// Whether the net has a place of this number. It takes no memory.
    pub fn contains_place(&self, id: PlaceId) -> bool
        ensures { IsTrue result ↔ id.index < length self.now.places }
    {
        id.index() < self.places().len()
    }

    /// The transition of this number. It takes no memory.
    pub fn transition(&self, id: TransitionId) -> &Transition
        requires { id.index < length self.now.transitions }
        ensures { slice_get self.now.transitions id.index ≡ Some result.now }
    {
        &self.transitions()[id.index()]
    }

    /// The place of this number. It takes no memory.
    pub fn place(&self, id: PlaceId) -> &Place
        requires { id.index < length self.now.places }
        ensures { result.now ≡ place_at self.now id }
    {
        &self.places()[id.index()]
    }

    /// Whether this is the number of an input transition of the net (chapter 2). It takes no
    /// memory.
    pub fn is_input(&self, id: TransitionId) -> bool
        ensures { IsTrue result ↔ IsInput self.now id.index }
    {
        match self.transitions().get(id.index()) {
            Some(transition) => transition.role == Role::Input,
            None => false,
        }
    }
}
