//! The laws of growth. Each is a function that does nothing when it runs: its contract is the law.
ghost use Rattle.growth_laws.specs.CertifiedLines.{CertificatesDrawLines};
ghost use Rattle.growth_laws.specs.DateLines.{PotentialsBoundDates, StartsHaveLines};
ghost use Rattle.growth_laws.specs.Growth.{DatesGrowBySlopes, SlopesAreOne, SlopesExist};

use periodic_laws::least_datings_repeat;

/// Potentials bound dates: in a live net take potentials of a set of transitions that only places
/// from the set enter, and that none of these exceeds at a ratio `a / b`, and a constant `c`; where
/// `b` times each start is at most `c` plus the potential plus `a` for each number, so is `b` times
/// each least date, so that no date of the set rises by more than the ratio in the long run
/// (chapter 3).
///
/// Where no input is kept waiting there is such a constant: `b` times the greatest ready date that a
/// net file may have, and as much as the potentials are below 0 (`starts`). The places into the set have to come from it: a
/// transition behind a slower one that is left out comes later than its own line.
pub fn potentials_bound_dates()
    ensures bound { PotentialsBoundDates }
    ensures starts { StartsHaveLines }
{}

/// A certificate draws such lines: of a set that only places from it enter, at a ratio that no part
/// of it exceeds, the potentials of its parts, brought to that ratio, rounded down, and lifted
/// enough from part to part, are potentials of the whole set (chapter 3).
pub fn certificates_draw_lines()
    ensures { CertificatesDrawLines }
{}

/// The cycle time is the growth rate: in a live net a transition that no input with an ended list
/// reaches has one slope `a / b`, the greatest of 0, of the ratios of the circuits from which a
/// path leads to it, and of gap over `every` of the inputs that reach it; and `b x(t, k)` stays
/// between `a k - c` and `a k + d` for two bounds `c` and `d`, so that `x(t, k) / k` tends to `a /
/// b` (chapter 3).
///
/// Past the end of a list that reaches it the dates are `Never`. The net has to be live: a circuit
/// without tokens leaves a slope of any size, or none. That the slope is one (`one`) is said of
/// slopes alone, without dates: so it asks of the rules of a net only that no list goes on by the
/// date of no firing, which would be as steep as one likes.
pub fn dates_grow_by_slopes()
    ensures growth { DatesGrowBySlopes }
    ensures exist { SlopesExist }
    ensures one { SlopesAreOne }
{
    least_datings_repeat();
}
