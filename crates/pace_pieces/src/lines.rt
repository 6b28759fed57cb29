//! The ratio of a circuit, as a line in the holding time of a place.
ghost use Rattle.std.specs.Prelude.{◌+◌, ◌*◌, ◌<◌, ◌≤◌, ◌≡◌, length, true};
ghost use Rattle.teg_net.specs.Circuits.{AreInRange, IsCircuit, IsLive};
ghost use Rattle.teg_net.specs.Limits.{greatest_hold, most_transitions};
ghost use Rattle.teg_net.specs.Ratios.{IsRatioOf};
ghost use Rattle.pace_pieces.specs.Pieces.{IsLineOf, IsShortLine, passes_of, rest_of};

use teg_net::{Circuit, Net, PlaceId, Ratio, tokens_of};

/// The ratio of a circuit as a line in the holding time of a place: at holding time `h` it is
/// `(base + passes h) / tokens`, in the user's unit for a token (chapter 2).
#[derive(Debug, Drop)]
pub struct Line {
    /// The time of the circuit without that of the place, in the user's unit.
    pub base: u64,
    /// How often the circuit passes the place: 0 or 1.
    pub passes: u64,
    /// The tokens of the circuit, at least 1.
    pub tokens: u64,
    /// The circuit.
    pub circuit: Circuit,
}

// The time of places of the net without that of one of them, and how often they pass it.
#[derive(Clone, Copy)]
pub(crate) struct Sums {
    pub(crate) rest: u64,
    pub(crate) passes: u64,
}

// Both sums over the places.
fn sums_of(net: &Net, place: PlaceId, places: &[PlaceId]) -> Sums
    requires in_range { AreInRange net.now places.now }
    requires few { length places.now ≤ most_transitions }
    ensures rest { result.rest ≡ rest_of net.now place places.now }
    ensures passes { result.passes ≡ passes_of place places.now }
{
    let own = net.places();
    let mut rest: u64 = 0;
    let mut passes: u64 = 0;
    for id in places {
        if id.index == place.index {
            passes += 1;
        } else {
            rest += own[id.index as usize].hold;
        }
    }
    Sums { rest, passes }
}

// The line of a circuit of a live net.
pub(crate) fn line_of(net: &Net, place: PlaceId, circuit: Circuit) -> Line
    requires place { place.index < length net.now.places }
    requires circuit { IsCircuit net.now circuit.places.items }
    requires live { IsLive net.now }
    ensures line { IsLineOf net.now place result }
    ensures circuit { result.circuit ≡ circuit }
{
    net.rules();
    let sums = sums_of(net, place, &circuit.places);
    let tokens = tokens_of(net, &circuit.places) as u64;
    Line {
        base: sums.rest,
        passes: sums.passes,
        tokens,
        circuit,
    }
}

impl Line {
    // The time of the circuit at a holding time of the place.
    pub(crate) fn time_at(&self, hold: u64) -> u64
        requires hold { hold ≤ greatest_hold }
        requires short { IsShortLine self.now }
        ensures { result ≡ self.now.base + self.now.passes * hold }
    {
        self.base + self.passes * hold
    }

    /// The ratio of the circuit at a holding time of the place, at most 1,000,000,000. It takes no
    /// memory.
    pub fn ratio(&self, hold: u64) -> Ratio
        requires hold { hold ≤ greatest_hold }
        requires short { IsShortLine self.now }
        ensures { IsRatioOf (self.now.base + self.now.passes * hold) self.now.tokens result }
    {
        Ratio::of(self.time_at(hold), self.tokens)
    }

    // Whether the ratio at a holding time is at least that of another line.
    pub(crate) fn is_at_least(&self, other: &Line, hold: u64) -> bool
        requires hold { hold ≤ greatest_hold }
        requires own { IsShortLine self.now }
        requires other { IsShortLine other.now }
        ensures yes { result ≡ true → (other.now.base + other.now.passes * hold) * self.now.tokens
            ≤ (self.now.base + self.now.passes * hold) * other.now.tokens }
    {
        let own = u128::from(self.time_at(hold)) * u128::from(other.tokens);
        let others = u128::from(other.time_at(hold)) * u128::from(self.tokens);
        others <= own
    }
}
