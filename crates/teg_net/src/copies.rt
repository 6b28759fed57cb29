//! Copies of the entries of a net, of the whole net, and of the net without its input lists.
ghost use Rattle.std.specs.Prelude.{◌≡◌, IfOk};
ghost use Rattle.teg_net.specs.Nets.{without_inputs};

use crate::entries::{InputList, Place, Transition};
use crate::memory::OutOfMemory;
use crate::names::Name;
use crate::net::Net;
use std::alloc::{AllocError, Global};

// The same transition once more.
fn transition_copy(alloc: Global, transition: &Transition) -> Result<Transition, AllocError>
    ensures { IfOk result (λ copy. copy ≡ transition.now) }
{
    let name = transition.name.copy(alloc)?;
    Ok(Transition {
        name,
        role: transition.role,
    })
}

// The same place once more.
fn place_copy(alloc: Global, place: &Place) -> Result<Place, AllocError>
    ensures { IfOk result (λ copy. copy ≡ place.now) }
{
    let name = place.name.copy(alloc)?;
    let ready = place.ready.copy(alloc)?;
    Ok(Place {
        name,
        from: place.from,
        to: place.to,
        hold: place.hold,
        tokens: place.tokens,
        ready,
    })
}

// The same transitions once more, in order.
fn transitions_copy(
    alloc: Global,
    transitions: &[Transition],
) -> Result<Vec<Transition>, AllocError>
    ensures { IfOk result (λ copies. copies.items ≡ transitions.now) }
{
    let mut copies = Vec::new(alloc);
    for transition in transitions {
        copies.push(transition_copy(alloc, transition)?)?;
    }
    Ok(copies)
}

// The same places once more, in order.
fn places_copy(alloc: Global, places: &[Place]) -> Result<Vec<Place>, AllocError>
    ensures { IfOk result (λ copies. copies.items ≡ places.now) }
{
    let mut copies = Vec::new(alloc);
    for place in places {
        copies.push(place_copy(alloc, place)?)?;
    }
    Ok(copies)
}

// The same input list once more.
fn input_copy(alloc: Global, list: &InputList) -> Result<InputList, AllocError>
    ensures { IfOk result (λ copy. copy ≡ list.now) }
{
    let dates = list.dates.copy(alloc)?;
    Ok(InputList {
        transition: list.transition,
        dates,
        again: list.again,
    })
}

// The same input lists once more, in order.
fn inputs_copy(alloc: Global, inputs: &[InputList]) -> Result<Vec<InputList>, AllocError>
    ensures { IfOk result (λ copies. copies.items ≡ inputs.now) }
{
    let mut copies = Vec::new(alloc);
    for list in inputs {
        copies.push(input_copy(alloc, list)?)?;
    }
    Ok(copies)
}

impl Net {
    /// The same net once more, names and lists copied. `OutOfMemory` comes only where no memory is
    /// found.
    pub fn copy(&self, alloc: Global) -> Result<Net, OutOfMemory>
        ensures { IfOk result (λ net. net ≡ self.now) }
    {
        let transitions = transitions_copy(alloc, self.transitions())?;
        let places = places_copy(alloc, self.places())?;
        let inputs = inputs_copy(alloc, self.inputs())?;
        Ok(Net::new(transitions, places, inputs))
    }

    /// The net with the same transitions and the same places, in order, ready dates with them, and
    /// no input list. `OutOfMemory` comes only where no memory is found.
    pub fn without_inputs(&self, alloc: Global) -> Result<Net, OutOfMemory>
        ensures { IfOk result (λ net. net ≡ without_inputs self.now) }
    {
        let transitions = transitions_copy(alloc, self.transitions())?;
        let places = places_copy(alloc, self.places())?;
        Ok(Net::new(transitions, places, Vec::new(alloc)))
    }
}
