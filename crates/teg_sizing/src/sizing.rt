//! The fewest further tokens of a place.
ghost use Rattle.std.specs.Prelude.{◌<◌, length, IfOk};
ghost use Rattle.teg_net.specs.Circuits.{IsCircuit};
ghost use Rattle.teg_check.specs.Ranks.{IsRanking};
ghost use Rattle.teg_sizing.specs.ValueRounds.{IsTarget};
ghost use Rattle.teg_sizing.specs.Surpluses.{NoneIsAbove, IsBestThrough};
ghost use Rattle.teg_sizing.specs.Sizings.{IsSizing, IsTurnedLowest};

use crate::surpluses::{Through, above_apart, best_through};
use std::alloc::Global;
use teg_check::Live;
use teg_net::{Circuit, Net, OutOfMemory, PlaceId, Ratio};

/// How many more tokens a place needs, so that no circuit has a greater ratio than a target.
#[derive(Debug, Drop)]
pub enum Sizing {
    /// The least number that is enough. Where it is above 0, a circuit that passes the place and
    /// would be above the target with one token less, beginning with the place that leaves its
    /// lowest numbered transition.
    Enough {
        extra: u64,
        circuit: Option<Circuit>,
    },
    /// No number is enough, for the sake of this circuit above the target: it avoids the place or,
    /// where no such circuit is above the target, stands against a target of 0. It begins with the
    /// place that leaves its lowest numbered transition.
    Impossible {
        circuit: Circuit,
    },
}

// The circuit, told from its lowest numbered transition on.
fn lowest_first(net: &Net, places: Vec<PlaceId>) -> Circuit
    requires { IsCircuit net.now places.items }
    ensures { IsTurnedLowest net.now places.items result.places.items }
{
    let mut circuit = Circuit { places };
    circuit.begin_lowest(net);
    circuit
}

// What the best circuit that passes the place tells.
fn sizing_by(net: &Net, target: Ratio, place: PlaceId, best: Through) -> Sizing
    requires target { IsTarget target }
    requires apart { NoneIsAbove net.now target place }
    requires best { IsBestThrough net.now target place best.value best.places.items }
    ensures { IsSizing net.now target place result }
{
    if best.value <= 0 {
        return Sizing::Enough {
            extra: 0,
            circuit: None,
        };
    }
    let surplus = best.value as u64;
    let circuit = lowest_first(net, best.places);
    if target.time() == 0 {
        return Sizing::Impossible { circuit };
    }
    Sizing::Enough {
        extra: (surplus - 1) / target.time() + 1,
        circuit: Some(circuit),
    }
}

/// The fewest further tokens of a place with which no circuit of the net has a ratio of time to
/// tokens above the target, with no regard to the limit on tokens (chapters 2 and 3).
///
/// `Enough` carries the least number that is enough. Where it is above 0, a circuit through the
/// place is given for which one token less is not. `Impossible` comes exactly where no number is
/// enough, with a circuit above the target that avoids the place or, where there is none, stands
/// against a target of 0. `OutOfMemory` comes only where no memory is found. It takes time of order
/// n p for n transitions and p places, and while it runs memory of order n^2.
pub fn size(
    alloc: Global,
    net: &Net,
    _live: &Live,
    place: PlaceId,
    target: &Ratio,
) -> Result<Sizing, OutOfMemory>
    requires live { IsRanking net.now _live.now }
    requires place { place.index < length net.now.places }
    requires target { IsTarget target.now }
    ensures { IfOk result (IsSizing net.now target.now place) }
{
    let apart = above_apart(alloc, net, *target, place)?;
    if let Some(places) = apart {
        return Ok(Sizing::Impossible {
            circuit: lowest_first(net, places),
        });
    }
    let best = best_through(alloc, net, *target, place)?;
    match best {
        None => Ok(Sizing::Enough {
            extra: 0,
            circuit: None,
        }),
        Some(best) => Ok(sizing_by(net, *target, place, best)),
    }
}
