//! The transitions and places of a net by name, as a table of its own that outlives the net.
ghost use Rattle.std.specs.Prelude.{◌≡◌, ◌≢◌, ◌↔◌, All, None, IfOk, IfSome, IsSomeAnd, slice_get};
ghost use Rattle.std.specs.BTreeMap.{get_by_text};
ghost use Rattle.teg_net.specs.declared.entries.Place.{Place};
ghost use Rattle.teg_net.specs.declared.entries.Transition.{Transition};
ghost use Rattle.teg_net.specs.NameTables.{AreNamesOf, LooksUp};
ghost use Rattle.teg_net.specs.Nets.{NetLists};

use crate::entries::{PlaceId, TransitionId};
use crate::memory::OutOfMemory;
use crate::net::Net;
use std::alloc::Global;
use std::collections::BTreeMap;

/// The transitions and the places of a net by name, with names of its own: it borrows nothing, and
/// stands for the net still when its holding times or tokens change. A look-up takes as many steps
/// as the logarithm of their number. Names are kept in order, so that no name that a stranger
/// chose makes a look-up slow.
#[derive(Drop)]
pub struct Names {
    transitions: BTreeMap<String, u32>,
    places: BTreeMap<String, u32>,
}

// The numbers of the transitions by name.
fn transition_numbers(alloc: Global, net: &Net) -> Result<BTreeMap<String, u32>, OutOfMemory>
    ensures { IfOk result (λ ids. LooksUp (λ (t : Transition). t.name) net.now.transitions
        net.now.transitions (λ name. get_by_text ids name)) }
{
    let mut ids = BTreeMap::new(alloc);
    for (index, transition) in net.transitions().iter().enumerate() {
        let name = String::from_str(alloc, transition.name.as_str())?;
        ids.insert(name, index as u32)?;
    }
    Ok(ids)
}

// The numbers of the places by name.
fn place_numbers(alloc: Global, net: &Net) -> Result<BTreeMap<String, u32>, OutOfMemory>
    ensures { IfOk result (λ ids. LooksUp (λ (p : Place). p.name) net.now.places net.now.places
        (λ name. get_by_text ids name)) }
{
    let mut ids = BTreeMap::new(alloc);
    for (index, place) in net.places().iter().enumerate() {
        let name = String::from_str(alloc, place.name.as_str())?;
        ids.insert(name, index as u32)?;
    }
    Ok(ids)
}

impl Names {
    /// The names of the net's transitions and places. `OutOfMemory` comes only where no memory is
    /// found. It takes time of order m log m for m transitions and places.
    pub fn of(alloc: Global, net: &Net) -> Result<Names, OutOfMemory>
        ensures { IfOk result (AreNamesOf net.now) }
    {
        let transitions = transition_numbers(alloc, net)?;
        let places = place_numbers(alloc, net)?;
        Ok(Names {
            transitions,
            places,
        })
    }

    /// The transition of this name, as [`Net::find`] answers for each net of which these are the
    /// names: none exactly where no transition has it. It takes no memory.
    pub fn transition(&self, name: &str) -> Option<TransitionId>
        ensures none { (net : NetLists) → AreNamesOf net self.now → (result ≡ None)
            ↔ All (λ t. t.name ≢ name.now) net.transitions }
        ensures found { (net : NetLists) → AreNamesOf net self.now → IfSome result
            (λ id. IsSomeAnd (slice_get net.transitions id.index) (λ t. t.name ≡ name.now)) }
    {
        match self.transitions.get(name) {
            Some(index) => Some(TransitionId { index: *index }),
            None => None,
        }
    }

    /// The place of this name, as [`Net::find_place`] answers for each net of which these are the
    /// names: none exactly where no place has it. It takes no memory.
    pub fn place(&self, name: &str) -> Option<PlaceId>
        ensures none { (net : NetLists) → AreNamesOf net self.now → (result ≡ None)
            ↔ All (λ p. p.name ≢ name.now) net.places }
        ensures found { (net : NetLists) → AreNamesOf net self.now → IfSome result
            (λ id. IsSomeAnd (slice_get net.places id.index) (λ p. p.name ≡ name.now)) }
    {
        match self.places.get(name) {
            Some(index) => Some(PlaceId { index: *index }),
            None => None,
        }
    }
}
