//! The number past which the dates of a net go on by steps.
ghost use Rattle.teg_net.specs.Certificates.{IsCertificate};
ghost use Rattle.teg_check.specs.Ranks.{IsRanking};
ghost use Rattle.teg_parts.specs.Partitions.{AreParts};
ghost use Rattle.teg_bound.specs.PeriodicBounds.{IsRightBound};

use crate::numbers::bound_number;
use crate::readings::{has_input, has_late_token};
use teg_certificates::best_ratio;
use teg_check::Live;
use teg_net::{CycleAnswer, Net};
use teg_parts::Parts;

/// How soon the least dates of a net go on by steps, or why no bound is told.
#[derive(Clone, Copy, Debug, PartialEq, Eq)]
pub enum BoundAnswer {
    /// Past this number they do; it is below 10^24.
    Bound { number: u128 },
    /// Some transition is an input.
    HasInputs,
    /// The net has no place.
    NoPlace,
    /// Some transition does not reach some other by a path.
    NotStrong,
    /// Some token is ready only after 0.
    ReadyDates,
}

/// A number past which the least dates of a net go on by steps (chapter 3, cyclicity).
///
/// Let n be the number of transitions, H the greatest hold, M the greater of 1 and the greatest
/// number of tokens, and a/b the greatest ratio in lowest terms. With T = (n - 1) M, C = n M and
/// P = (n - 1) H the number is T + C (b P + a (T + C)) + 1, and 0 where a is 0. The number of the
/// shortest settled form of the least dating is at most it, and the form's period divides each
/// common multiple, so the least one, of the tokens of any choice of critical circuits, one through
/// each critical transition.
///
/// In this order: `HasInputs` comes exactly where some transition is an input; `NoPlace` where the
/// net has no place; `NotStrong` where some transition does not reach some other; `ReadyDates`
/// where some ready date is above 0. The answer on cycle times is any certificate of the net. It
/// takes no memory, and time linear in the size of the net.
pub fn settling_bound(net: &Net, _live: &Live, parts: &Parts, answer: &CycleAnswer) -> BoundAnswer
    requires live { IsRanking net.now _live.now }
    requires parts { AreParts net.now parts.now }
    requires certificate { IsCertificate net.now answer.now }
    ensures { IsRightBound net.now result }
{
    if has_input(net) {
        return BoundAnswer::HasInputs;
    }
    if net.places().is_empty() {
        return BoundAnswer::NoPlace;
    }
    if parts.count() > 1 {
        return BoundAnswer::NotStrong;
    }
    if has_late_token(net) {
        return BoundAnswer::ReadyDates;
    }
    let Some(ratio) = best_ratio(answer) else {
        unreachable!()
    };
    BoundAnswer::Bound {
        number: bound_number(net, ratio),
    }
}
