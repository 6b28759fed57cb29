//! Circuits of a net, and where they begin.
ghost use Rattle.std.specs.Prelude.{◌≡◌, ◌<◌, length};
ghost use Rattle.teg_net.specs.Circuits.{IsCircuit, IsTurned, BeginsLowest, AreInRange, time_of, tokens_of};
ghost use Rattle.teg_net.specs.Paths.{IsLowestAt};

use crate::entries::PlaceId;
use crate::net::Net;

/// A circuit of the net's own places (chapter 2), as the numbers of its places in order.
/// A reported circuit begins with the place that leaves its lowest numbered transition, so that two
/// that are reported are equal where they go through the same places in the same turn.
#[derive(Debug, Drop, PartialEq, Eq)]
pub struct Circuit {
    pub places: Vec<PlaceId>,
}

// The position of a place that leaves the lowest numbered transition.
fn lowest_position(net: &Net, places: &[PlaceId]) -> usize
    requires some { 0 < length places.now }
    requires in_range { AreInRange net.now places.now }
    ensures { IsLowestAt net.now places.now result }
{
    let own = net.places();
    let mut lowest = 0;
    for (index, id) in places.iter().enumerate() {
        let best = places[lowest];
        if own[id.index as usize].from.index < own[best.index as usize].from.index {
            lowest = index;
        }
    }
    lowest
}

impl Circuit {
    /// Turns the circuit so that it begins with the place that leaves its lowest numbered
    /// transition. It takes no memory, and as many steps as it has places.
    pub fn begin_lowest(&mut self, net: &Net)
        requires { IsCircuit net.now self.old.places.items }
        ensures turned { IsTurned self.old.places.items self.new.places.items }
        ensures circuit { IsCircuit net.now self.new.places.items }
        ensures tokens { tokens_of net.now self.new.places.items
            ≡ tokens_of net.now self.old.places.items }
        ensures time { time_of net.now self.new.places.items
            ≡ time_of net.now self.old.places.items }
        ensures lowest { BeginsLowest net.now self.new.places.items }
    {
        let lowest = lowest_position(net, &self.places);
        self.places.rotate_left(lowest);
    }
}
