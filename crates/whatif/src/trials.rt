//! The pace of a net with one number of a place changed.
ghost use Rattle.std.specs.Prelude.{◌<◌, ◌≤◌, ◌+◌, length, Decides, IfOk};
ghost use Rattle.teg_net.specs.Changes.{MayHaveTokens, with_hold, with_tokens};
ghost use Rattle.teg_net.specs.Circuits.{place_at};
ghost use Rattle.teg_net.specs.Limits.{greatest_hold};
ghost use Rattle.pace_calls.specs.Paces.{IsPace, IsPaceWithCircuit};

use pace_calls::{PaceWithCircuit, bottleneck, pace, pace_from};
use std::alloc::Global;
use teg_check::LiveNet;
use teg_net::{CycleAnswer, OutOfMemory, PlaceId, Ratio};

/// The pace of the net with this holding time of the place, in the user's unit and at most
/// 1,000,000,000; none where it has no circuit (chapter 2). `OutOfMemory` comes only where no
/// memory is found. It takes the time of `split` and of `cycle`, and a copy of the net.
pub fn pace_with_hold(
    alloc: Global,
    held: &LiveNet,
    place: PlaceId,
    hold: u64,
) -> Result<Option<Ratio>, OutOfMemory>
    requires place { place.index < length held.now.places }
    requires hold { hold ≤ greatest_hold }
    ensures { IfOk result (IsPace (with_hold held.now place hold)) }
{
    let mut trial = held.copy(alloc)?;
    trial.set_hold(place, hold);
    pace(alloc, trial.net(), trial.live())
}

/// The pace of the net with this holding time of the place, as [`pace_with_hold`] tells it, by rounds
/// that begin with an earlier answer, as that on the net itself: of many trials each takes few
/// rounds. The pace is right whatever `before` tells. It takes the time of `split` and of
/// `cycle_from`, and a copy of the net.
pub fn pace_with_hold_from(
    alloc: Global,
    held: &LiveNet,
    place: PlaceId,
    hold: u64,
    before: &CycleAnswer,
) -> Result<Option<Ratio>, OutOfMemory>
    requires place { place.index < length held.now.places }
    requires hold { hold ≤ greatest_hold }
    ensures { IfOk result (IsPace (with_hold held.now place hold)) }
{
    let mut trial = held.copy(alloc)?;
    trial.set_hold(place, hold);
    pace_from(alloc, trial.net(), trial.live(), before)
}

/// The pace of the net with this holding time of the place, as [`pace_with_hold`] tells it, and a
/// circuit that then holds it up.
pub fn bottleneck_with_hold(
    alloc: Global,
    held: &LiveNet,
    place: PlaceId,
    hold: u64,
) -> Result<Option<PaceWithCircuit>, OutOfMemory>
    requires place { place.index < length held.now.places }
    requires hold { hold ≤ greatest_hold }
    ensures { IfOk result (IsPaceWithCircuit (with_hold held.now place hold)) }
{
    let mut trial = held.copy(alloc)?;
    trial.set_hold(place, hold);
    bottleneck(alloc, trial.net(), trial.live())
}

/// Whether the place may have so many more tokens, as `LiveNet::add_tokens` and
/// [`pace_with_tokens`] ask: at most 1,000 in all, and as many as it has ready dates where it has
/// some (chapter 2). It takes no memory.
pub fn may_add_tokens(held: &LiveNet, place: PlaceId, more: u32) -> bool
    requires { place.index < length held.now.places }
    ensures { Decides result (MayHaveTokens (place_at held.now place)
        ((place_at held.now place).tokens + more)) }
{
    let place = held.net().place(place);
    let tokens = u64::from(place.tokens) + u64::from(more);
    let ready = place.ready.as_slice().len() as u64;
    tokens <= 1_000 && (ready == 0 || ready == tokens)
}

/// The pace of the net with so many more tokens in the place, to at most 1,000, and as many as it
/// has ready dates where it has some; none where it has no circuit (chapter 2). `OutOfMemory` comes
/// only where no memory is found. It takes the time of `split` and of `cycle`, and a copy of the
/// net.
pub fn pace_with_tokens(
    alloc: Global,
    held: &LiveNet,
    place: PlaceId,
    more: u32,
) -> Result<Option<Ratio>, OutOfMemory>
    requires place { place.index < length held.now.places }
    requires tokens { MayHaveTokens (place_at held.now place)
        ((place_at held.now place).tokens + more) }
    ensures { IfOk result
        (IsPace (with_tokens held.now place ((place_at held.now place).tokens + more))) }
{
    let mut trial = held.copy(alloc)?;
    trial.add_tokens(place, more);
    pace(alloc, trial.net(), trial.live())
}
