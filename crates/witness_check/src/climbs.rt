//! Numbers of transitions that rise along places: along all places, or along those without tokens.
ghost use Rattle.std.specs.Prelude.{◌≡◌, ◌≤◌, ◌<◌, ◌↔◌, IfNone, IfOk, IfSome, IsTrue, length};
ghost use Rattle.teg_net.specs.Limits.{most_transitions};
ghost use Rattle.witness_check.specs.Climbs.{AreClimbs, ClimbsOn, Counts, HasCountedCircuit, LiftsEnd, RiseAlong};

use std::alloc::{AllocError, Global};
use teg_net::{Net, Place};

// Whether the place counts.
fn counts(each: bool, place: &Place) -> bool
    ensures { IsTrue result ↔ Counts each place.now }
{
    each || place.tokens == 0
}

// Gives the end of the place the number of its start and one more, where the place counts and the
// number of its end is no greater than that of its start, and tells whether it did; none where that
// would be as many as there are numbers.
fn lift_end(each: bool, place: &Place, numbers: &mut [u32]) -> Option<bool>
    requires few { length numbers.old ≤ most_transitions }
    requires from_in { place.now.from.index < length numbers.old }
    requires to_in { place.now.to.index < length numbers.old }
    ensures { LiftsEnd each place.now numbers.old numbers.new result }
{
    if !counts(each, place) {
        return Some(false);
    }
    let start = numbers[place.from.index as usize];
    let to = place.to.index as usize;
    if start < numbers[to] {
        return Some(false);
    }
    if start as usize + 1 >= numbers.len() {
        return None;
    }
    numbers[to] = start + 1;
    Some(true)
}

// Does so at each place, and tells whether a number was lifted; none where a circuit is met.
fn lift(net: &Net, each: bool, numbers: &mut [u32]) -> Option<bool>
    requires { AreClimbs net.now each numbers.old }
    ensures { ClimbsOn net.now each numbers.old numbers.new result }
{
    let mut lifted = false;
    for (number, place) in net.places().iter().enumerate() {
        let _number = number;
        match lift_end(each, place, numbers) {
            Some(here) => lifted = lifted | here,
            None => return None,
        }
    }
    Some(lifted)
}

/// A number for each transition, which rises along each place, or, unless each counts, along each
/// without tokens; none just where the net has a circuit of such places (chapter 2). Each number is
/// that of the places of a path, and a path of as many places as there are transitions has a
/// circuit. It takes memory for the numbers, and time of the order transitions times places.
/// `AllocError` comes only where no memory is found.
pub fn rising_numbers(alloc: Global, net: &Net, each: bool) -> Result<Option<Vec<u32>>, AllocError>
    ensures rise { IfOk result (λ found. IfSome found (λ numbers. RiseAlong net.now each
        numbers.items)) }
    ensures circuit { IfOk result (λ found. IfNone found (HasCountedCircuit net.now each)) }
{
    net.rules();
    let mut numbers = vec![in alloc; 0u32; net.transitions().len()]?;
    'rise: loop {
        match lift(net, each, &mut numbers) {
            Some(lifted) => {
                if !lifted {
                    return Ok(Some(numbers));
                }
            }
            None => return Ok(None),
        }
    }
}
