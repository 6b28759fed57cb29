//! The fewest tokens of the circuits through a place.
ghost use Rattle.std.specs.Prelude.{◌≡◌, ◌<◌, length, IfOk};
ghost use Rattle.teg_net.specs.Nets.{IsNet};
ghost use Rattle.teg_sizing.specs.Sizings.{IsSizing};
ghost use Rattle.token_bounds.specs.MostTokens.{IsHeldAlone, IsMostTokens, one_unit};

use std::alloc::Global;
use teg_check::LiveNet;
use teg_net::{Circuit, Net, OutOfMemory, PlaceId, Ratio};
use teg_sizing::{Sizing, size};

// A time that is longer than a circuit of a net has tokens.
const LONG_TIME: u64 = 1_000_000;

/// The most tokens that a place ever holds, and what shows it.
#[derive(Debug, Drop)]
pub struct MostTokens {
    /// The fewest tokens of a circuit through the place.
    pub tokens: u64,
    /// Such a circuit, told from its lowest numbered transition on.
    pub circuit: Circuit,
}

// The net with the same places, of which this one alone takes time.
fn held_alone(alloc: Global, held: &LiveNet, place: PlaceId) -> Result<LiveNet, OutOfMemory>
    requires { place.index < length held.now.places }
    ensures { IfOk result (IsHeldAlone held.now place) }
{
    let mut changed = held.copy(alloc)?;
    for index in 0..held.net().places().len() {
        let id = PlaceId {
            index: index as u32,
        };
        changed.set_hold(id, 0);
    }
    changed.set_hold(place, LONG_TIME);
    Ok(changed)
}

// What the further tokens of the place tell that takes time alone.
fn told(_held: &LiveNet, changed: &Net, place: PlaceId, sizing: Sizing) -> Option<MostTokens>
    requires place { place.index < length _held.now.places }
    requires changed { IsHeldAlone _held.now place changed.now }
    requires rules { IsNet changed.now }
    requires sizing { IsSizing changed.now one_unit place sizing }
    ensures { IsMostTokens _held.now place result }
{
    match sizing {
        Sizing::Enough {
            extra,
            circuit: Some(circuit),
        } => Some(MostTokens {
            tokens: LONG_TIME - extra,
            circuit,
        }),
        Sizing::Enough { circuit: None, .. } => None,
        Sizing::Impossible { .. } => None,
    }
}

/// The most tokens that a place of a live net ever holds: no legal run of the net, whatever it is
/// fed and however late its transitions fire, has more there (chapter 2).
///
/// It is the fewest tokens of a circuit through the place, in number as many as a buffer has to
/// have room for, and such a circuit is given. None exactly where the place lies on no circuit; such
/// a place may hold any number. That a run does reach the fewest tokens is not promised.
/// `OutOfMemory` comes only where no memory is found. It takes the time and the memory of `size` of
/// `teg_sizing`.
pub fn most_tokens(
    alloc: Global,
    held: &LiveNet,
    place: PlaceId,
) -> Result<Option<MostTokens>, OutOfMemory>
    requires { place.index < length held.now.places }
    ensures { IfOk result (IsMostTokens held.now place) }
{
    let changed = held_alone(alloc, held, place)?;
    changed.net().rules();
    let sizing = size(
        alloc,
        changed.net(),
        changed.live(),
        place,
        &Ratio::of(1, 1),
    )?;
    Ok(told(held, changed.net(), place, sizing))
}
