//! Places that are held less, and which of them makes the net quickest.
ghost use Rattle.std.specs.Prelude.{◌-◌, ◌<◌, ◌≤◌, ◌≡◌, ◌↔◌, length, All, IfOk, IsTrue};
ghost use Rattle.teg_net.specs.Circuits.{place_at};
ghost use Rattle.teg_net.specs.Limits.{greatest_hold};
ghost use Rattle.pace_calls.specs.Paces.{IsPace};
ghost use Rattle.whatif.specs.Cuts.{IsAtMostPace, IsBestCut, IsBetterOf, with_cut};

use crate::trials::{pace_with_hold, pace_with_hold_from};
use pace_calls::cycle_times;
use std::alloc::Global;
use std::cmp::Ordering;
use teg_check::LiveNet;
use teg_net::{CycleAnswer, OutOfMemory, PlaceId, Ratio};

/// A place that is held less.
#[derive(Clone, Copy, Debug, PartialEq, Eq)]
pub struct Cut {
    /// The place.
    pub place: PlaceId,
    /// By so much, in the user's unit, down to 0 at most.
    pub less: u64,
}

/// A cut and the pace of the net with it.
#[derive(Clone, Copy, Debug, PartialEq, Eq)]
pub struct BestCut {
    /// The cut.
    pub cut: Cut,
    /// The pace; none where the net has no circuit.
    pub pace: Option<Ratio>,
}

// The holding time of the place of the cut with it.
fn hold_with_cut(held: &LiveNet, cut: Cut) -> u64
    requires { cut.place.index < length held.now.places }
    ensures hold { result ≡ (place_at held.now cut.place).hold - cut.less }
    ensures limit { result ≤ greatest_hold }
{
    held.net().rules();
    let hold = held.net().place(cut.place).hold;
    hold.saturating_sub(cut.less)
}

/// The pace of the net with the cut; none where it has no circuit (chapter 2). `OutOfMemory` comes
/// only where no memory is found. It takes the time of [`pace_with_hold`].
pub fn pace_with_cut(alloc: Global, held: &LiveNet, cut: Cut) -> Result<Option<Ratio>, OutOfMemory>
    requires { cut.place.index < length held.now.places }
    ensures { IfOk result (IsPace (with_cut held.now cut)) }
{
    pace_with_hold(alloc, held, cut.place, hold_with_cut(held, cut))
}

/// The pace of the net with the cut, as [`pace_with_cut`] tells it, by rounds that begin with an
/// earlier answer, as that on the net itself. It takes the time of [`pace_with_hold_from`].
pub fn pace_with_cut_from(
    alloc: Global,
    held: &LiveNet,
    cut: Cut,
    before: &CycleAnswer,
) -> Result<Option<Ratio>, OutOfMemory>
    requires { cut.place.index < length held.now.places }
    ensures { IfOk result (IsPace (with_cut held.now cut)) }
{
    pace_with_hold_from(alloc, held, cut.place, hold_with_cut(held, cut), before)
}

// Whether the first pace is at most the second.
fn is_at_most(first: Option<Ratio>, second: Option<Ratio>) -> bool
    ensures { IsTrue result ↔ IsAtMostPace first second }
{
    match (first, second) {
        (None, _) => true,
        (Some(_), None) => false,
        (Some(first), Some(second)) => first.compare(&second) != Ordering::Greater,
    }
}

// The cut of lower pace; of two with the same the first.
fn better(best: Option<BestCut>, new: BestCut) -> BestCut
    ensures { IsBetterOf best new result }
{
    match best {
        None => new,
        Some(best) => {
            if is_at_most(best.pace, new.pace) {
                best
            } else {
                new
            }
        }
    }
}

/// A cut of the list with which the net is quickest, with the pace that it
/// then has; none where the list is empty (chapter 2). The net stays as it is. `OutOfMemory` comes
/// only where no memory is found. It takes the time of `cycle_times` of `pace_calls` once, whose
/// answer each trial begins with, and that of [`pace_with_cut_from`] for each cut.
pub fn best_of(alloc: Global, held: &LiveNet, cuts: &[Cut]) -> Result<Option<BestCut>, OutOfMemory>
    requires cuts { All (λ c. c.place.index < length held.now.places) cuts.now }
    ensures { IfOk result (IsBestCut held.now cuts.now) }
{
    let before = cycle_times(alloc, held.net(), held.live())?;
    let mut best: Option<BestCut> = None;
    for cut in cuts {
        let pace = pace_with_cut_from(alloc, held, *cut, &before)?;
        best = Some(better(best, BestCut { cut: *cut, pace }));
    }
    Ok(best)
}
