//! Where circuits are told from.
ghost use Rattle.std.specs.Prelude.{◌≡◌, ◌<◌, ◌≤◌, All, IsTrue, length};
ghost use Rattle.teg_net.specs.Circuits.{AreInRange, BeginsLowest, from_of};

use teg_net::{Net, PlaceId};

// The number of the transition that the place leaves.
fn from_of(net: &Net, place: PlaceId) -> u32
    requires { place.index < length net.now.places }
    ensures { result ≡ from_of net.now place }
{
    net.places()[place.index as usize].from.index
}

// Whether none of the places leaves a lower numbered transition than this.
fn are_from(net: &Net, lowest: u32, places: &[PlaceId]) -> bool
    requires { AreInRange net.now places.now }
    ensures { IsTrue result → All (λ p. lowest ≤ from_of net.now p) places.now }
{
    for place in places {
        if from_of(net, *place) < lowest {
            return false;
        }
    }
    true
}

/// Whether the first of the places leaves the lowest numbered of the transitions that they leave: so
/// a circuit is told. A no says nothing. It takes no memory.
pub fn begins_lowest(net: &Net, places: &[PlaceId]) -> bool
    requires { AreInRange net.now places.now }
    ensures { IsTrue result → BeginsLowest net.now places.now }
{
    if places.len() == 0 {
        return true;
    }
    let first = places[0];
    are_from(net, from_of(net, first), places)
}
