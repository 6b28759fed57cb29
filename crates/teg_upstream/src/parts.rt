//! The part of a net upstream of a transition.
ghost use Rattle.std.specs.Prelude.{◌≡◌, ◌<◌, length, IfOk};
ghost use Rattle.std.specs.List.{filter};
ghost use Rattle.teg_upstream.specs.Parts.{TellsDatesOf, ends_marked, feeds_marked};

use crate::copies::{input_copy, place_copy, transitions_copy};
use crate::marks::{is_marked, marks_to};
use std::alloc::{AllocError, Global};
use teg_net::{InputList, Net, OutOfMemory, Place, TransitionId};

// The places that lead to marked transitions, in order.
fn places_to(alloc: Global, net: &Net, marks: &[bool]) -> Result<Vec<Place>, AllocError>
    ensures { IfOk result (λ kept. kept.items ≡ filter (ends_marked marks.now) net.now.places) }
{
    let mut kept = Vec::new(alloc);
    for place in net.places() {
        if is_marked(marks, place.to) {
            kept.push(place_copy(alloc, place)?)?;
        }
    }
    Ok(kept)
}

// The lists of marked inputs, in order.
fn lists_to(alloc: Global, net: &Net, marks: &[bool]) -> Result<Vec<InputList>, AllocError>
    ensures { IfOk result (λ kept. kept.items ≡ filter (feeds_marked marks.now) net.now.inputs) }
{
    let mut kept = Vec::new(alloc);
    for list in net.inputs() {
        if is_marked(marks, list.transition) {
            kept.push(input_copy(alloc, list)?)?;
        }
    }
    Ok(kept)
}

/// The net of the same transitions with those places and input lists alone from which a path leads
/// to this one: by the least dating of each of the two it has the same dates (chapter 2). Ranks of
/// the net are ranks of the part, so that a live net has a live part. `OutOfMemory` comes only
/// where no memory is found. It takes time of order `n p` at most for n transitions and p places.
pub fn part_to(alloc: Global, net: &Net, transition: TransitionId) -> Result<Net, OutOfMemory>
    requires { transition.index < length net.now.transitions }
    ensures { IfOk result (TellsDatesOf net.now transition.index) }
{
    // The net keeps its rules.
    net.rules();
    let marks = marks_to(alloc, net, transition)?;
    let transitions = transitions_copy(alloc, net.transitions())?;
    let places = places_to(alloc, net, &marks)?;
    let inputs = lists_to(alloc, net, &marks)?;
    Ok(Net::new(transitions, places, inputs))
}
