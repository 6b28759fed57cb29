//! The strong parts, each numbered by its lowest transition: what a search along the places from
//! there reaches, and what one against them reaches.
ghost use Rattle.std.specs.Prelude.{◌≡◌, ◌<◌, length, IfOk, OnOk};
ghost use Rattle.teg_parts.specs.PlacesAlong.{far_of, ArePlacesAlong};
ghost use Rattle.teg_parts.specs.BothWays.{AreBothWays};
ghost use Rattle.teg_parts.specs.Components.{AreReachedMarks, AreFound, IsRooted, HasFound, AreComponents};

use crate::numbers::numbers_of;
use crate::places_along::{PlacesAlong, far_end, places_along, push_places_along};
use std::alloc::{AllocError, Global};
use teg_net::{Net, OutOfMemory, PlaceEnd, PlaceId};

// The transition to which one comes along the place of this number, off at this end of it.
fn far_from(net: &Net, near: PlaceEnd, id: PlaceId) -> usize
    requires { id.index < length net.now.places }
    ensures value { result ≡ far_of near net.now id }
    ensures bound { result < length net.now.transitions }
{
    far_end(near, &net.places()[id.index as usize])
}

// The transitions to which a path goes from the start, marked: a place is gone along once at most.
fn led_from(
    alloc: Global,
    net: &Net,
    along: &PlacesAlong,
    start: usize,
) -> Result<Vec<bool>, AllocError>
    requires along { ArePlacesAlong net.now along.now }
    requires start { start < length net.now.transitions }
    ensures { IfOk result (λ marks. AreReachedMarks net.now along.now.near start marks.items) }
{
    let mut marks = vec![in alloc; false; net.transitions().len()]?;
    let mut agenda = Vec::new(alloc);
    marks[start] = true;
    push_places_along(net, along, start, &mut agenda)?;
    'search: while let Some(id) = agenda.pop() {
        let far = far_from(net, along.near, id);
        if !marks[far] {
            marks[far] = true;
            push_places_along(net, along, far, &mut agenda)?;
        }
    }
    Ok(marks)
}

// Gives the number to each transition that has both marks.
fn give_root(onward: &[bool], back: &[bool], found: &mut [Option<u32>], root: u32)
    requires onward { length onward.now ≡ length found.old }
    requires back { length back.now ≡ length found.old }
    ensures { IsRooted onward.now back.now root found.old found.new }
{
    for transition in 0..found.len() {
        if onward[transition] && back[transition] {
            found[transition] = Some(root);
        }
    }
}

// The places along which one may go from each transition, and those against which one may.
#[derive(Drop)]
struct BothWays {
    onward: PlacesAlong,
    back: PlacesAlong,
}

// The places of the net, both ways.
fn both_ways(alloc: Global, net: &Net) -> Result<BothWays, OutOfMemory>
    ensures { IfOk result (AreBothWays net.now) }
{
    let onward = places_along(alloc, net, PlaceEnd::From)?;
    let back = places_along(alloc, net, PlaceEnd::To)?;
    Ok(BothWays { onward, back })
}

// Numbers the part of the root, unless it has a number.
fn find_part(
    alloc: Global,
    net: &Net,
    ways: &BothWays,
    root: usize,
    found: &mut [Option<u32>],
) -> Result<(), AllocError>
    requires ways { AreBothWays net.now ways.now }
    requires root { root < length net.now.transitions }
    requires found { AreFound net.now found.old }
    ensures { OnOk result (HasFound net.now root found.old found.new) }
{
    net.rules();
    if found[root].is_some() {
        return Ok(());
    }
    let reached = led_from(alloc, net, &ways.onward, root)?;
    let reaching = led_from(alloc, net, &ways.back, root)?;
    give_root(&reached, &reaching, found, root as u32);
    Ok(())
}

// For each transition a number that it shares with exactly those that it reaches and that reach it:
// two searches for each part, each linear in places and transitions.
pub(crate) fn components(alloc: Global, net: &Net) -> Result<Vec<u32>, OutOfMemory>
    ensures { IfOk result (λ numbers. AreComponents net.now numbers.items) }
{
    let count = net.transitions().len();
    let ways = both_ways(alloc, net)?;
    let mut found = vec![in alloc; None; count]?;
    for root in 0..count {
        find_part(alloc, net, &ways, root, &mut found)?;
    }
    let numbers = numbers_of(alloc, &found)?;
    Ok(numbers)
}
