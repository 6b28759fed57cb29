//! The places of each transition of a net: those that leave it, or those that enter it.
ghost use Rattle.std.specs.Prelude.{◌≡◌, ◌<◌, ◌++◌, ◌∷◌, [], IfOk, is_ok, length, replicate, slice_index_or, if◌then◌else◌};
ghost use Rattle.teg_net.specs.PlaceLists.{ArePlacesOf, place_end};

use crate::entries::{Place, PlaceId, TransitionId};
use crate::memory::OutOfMemory;
use crate::net::Net;
use std::alloc::{AllocError, Global};
use std::marker::Model;

/// Which end of a place: the transition that it leaves, or the one that it enters (chapter 2).
#[derive(Clone, Copy, Debug, PartialEq, Eq)]
pub enum PlaceEnd {
    From,
    To,
}

// The places of one transition, in order of number.
#[derive(Debug, Drop)]
struct PlaceList {
    places: Vec<PlaceId>,
}

impl Model for PlaceList {
    ghost use Rattle.std.specs.Prelude.{List};
    ghost use Rattle.teg_net.specs.declared.entries.PlaceId.{PlaceId};

    ghost Value = { List PlaceId };

    ghost view = { λ l. l.places.items };
}

impl PlaceList {
    // No places.
    fn new(alloc: Global) -> PlaceList
        ensures { result ≡ [] }
    {
        PlaceList {
            places: Vec::new(alloc),
        }
    }

    // Appends a place, or changes nothing.
    fn push(&mut self, place: PlaceId) -> Result<(), AllocError>
        ensures { self.new ≡ (if is_ok result then self.old ++ place ∷ [] else self.old) }
    {
        self.places.push(place)?;
        Ok(())
    }
}

// So many lists without places.
#[tactic(auto, using(std::proofs::lemmas::List::replicate_more))]
fn empty_lists(alloc: Global, count: usize) -> Result<Vec<PlaceList>, AllocError>
    ensures { IfOk result (λ lists. lists.items ≡ replicate count []) }
{
    let mut lists = Vec::new(alloc);
    for _index in 0..count {
        lists.push(PlaceList::new(alloc))?;
    }
    Ok(lists)
}

// The number of the transition at which the place has this end.
fn end_of(end: PlaceEnd, place: &Place) -> usize
    ensures { result ≡ (place_end end place.now).index }
{
    match end {
        PlaceEnd::From => place.from.index as usize,
        PlaceEnd::To => place.to.index as usize,
    }
}

/// Of each transition of a net the places that leave it, or those that enter it, in order of
/// number (chapter 2). It borrows nothing, and stands for the net still when its holding times or
/// tokens change. Contracts see the lists by the number of the transition.
#[derive(Debug, Drop)]
pub struct PlacesOf {
    lists: Vec<PlaceList>,
}

impl Model for PlacesOf {
    ghost use Rattle.std.specs.Prelude.{List};
    ghost use Rattle.teg_net.specs.declared.entries.PlaceId.{PlaceId};

    ghost Value = { List (List PlaceId) };

    ghost view = { λ p. p.lists.items };
}

impl PlacesOf {
    /// Of each transition of the net the places that have this end there: each of them once, in
    /// order of number, and no other. `OutOfMemory` comes only where no memory is found. It takes a
    /// step a transition and a place.
    pub fn new(alloc: Global, net: &Net, end: PlaceEnd) -> Result<PlacesOf, OutOfMemory>
        ensures { IfOk result (λ places. ArePlacesOf net.now end places) }
    {
        let mut lists = empty_lists(alloc, net.transitions().len())?;
        for (index, place) in net.places().iter().enumerate() {
            let transition = end_of(end, place);
            let id = PlaceId {
                index: index as u32,
            };
            lists[transition].push(id)?;
        }
        Ok(PlacesOf { lists })
    }

    /// How many transitions there are: those of the net. It takes no memory.
    pub fn width(&self) -> usize
        ensures { result ≡ length self.now }
    {
        self.lists.len()
    }

    /// The places of the transition. It takes no memory.
    pub fn of(&self, transition: TransitionId) -> &[PlaceId]
        requires { transition.index < length self.now }
        ensures { result.now ≡ slice_index_or self.now transition.index [] }
    {
        &self.lists[transition.index as usize].places
    }
}
