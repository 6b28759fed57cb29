//! Lists of changes of a net, and its pace with each of them.
ghost use Rattle.std.specs.Prelude.{◌≡◌, All, Decides, IfOk};
ghost use Rattle.pace_calls.specs.Paces.{IsPace};
ghost use Rattle.whatif.specs.Changes.{ArePaces, MayChange, with_change};

use crate::trials::may_add_tokens;
use pace_calls::{cycle_times, pace_from};
use std::alloc::Global;
use teg_check::LiveNet;
use teg_net::{CycleAnswer, OutOfMemory, PlaceId, Ratio};

/// A change of one number of a net, to be tried.
#[derive(Clone, Copy, Debug, PartialEq, Eq)]
pub enum Change {
    /// The place has this holding time, in the user's unit and at most 1,000,000,000.
    Hold { place: PlaceId, hold: u64 },
    /// The place has so many more tokens, where it may have them ([`may_add_tokens`]).
    Tokens { place: PlaceId, more: u32 },
}

/// Whether the net may be changed so: it has the place, and the place may have this holding time or
/// so many more tokens (chapter 2). It takes no memory.
pub fn may_change(held: &LiveNet, change: Change) -> bool
    ensures { Decides result (MayChange held.now change) }
{
    match change {
        Change::Hold { place, hold } => {
            held.net().contains_place(place) && hold <= 1_000_000_000
        }
        Change::Tokens { place, more } => {
            held.net().contains_place(place) && may_add_tokens(held, place, more)
        }
    }
}

/// The net with the change, to be asked anything; the net itself stays as it is (chapter 2).
/// `OutOfMemory` comes only where no memory is found. It takes a copy of the net.
pub fn changed(alloc: Global, held: &LiveNet, change: Change) -> Result<LiveNet, OutOfMemory>
    requires { MayChange held.now change }
    ensures { IfOk result (λ trial. trial ≡ with_change held.now change) }
{
    let mut trial = held.copy(alloc)?;
    match change {
        Change::Hold { place, hold } => trial.set_hold(place, hold),
        Change::Tokens { place, more } => trial.add_tokens(place, more),
    }
    Ok(trial)
}

// The pace of the net with the change, by rounds that begin with an earlier answer.
fn pace_with_change_from(
    alloc: Global,
    held: &LiveNet,
    change: Change,
    before: &CycleAnswer,
) -> Result<Option<Ratio>, OutOfMemory>
    requires { MayChange held.now change }
    ensures { IfOk result (IsPace (with_change held.now change)) }
{
    let trial = changed(alloc, held, change)?;
    pace_from(alloc, trial.net(), trial.live(), before)
}

/// The pace of the net with each of these changes alone, one answer a change and in their order;
/// none where it has no circuit (chapter 2). The net stays as it is. `OutOfMemory` comes only where
/// no memory is found. It takes the time of `cycle_times` of `pace_calls` once, whose answer each
/// trial begins with, and for each change a copy of the net and the time of `pace_from`.
pub fn paces_with(
    alloc: Global,
    held: &LiveNet,
    changes: &[Change],
) -> Result<Vec<Option<Ratio>>, OutOfMemory>
    requires { All (MayChange held.now) changes.now }
    ensures { IfOk result (λ paces. ArePaces held.now changes.now paces.items) }
{
    let before = cycle_times(alloc, held.net(), held.live())?;
    let mut paces = Vec::new(alloc);
    for change in changes {
        let pace = pace_with_change_from(alloc, held, *change, &before)?;
        paces.push(pace)?;
    }
    Ok(paces)
}
