//! The laws of walk times. Each is a function that does nothing when it runs: its contract is the
//! law.
ghost use Rattle.walk_times.specs.WalkTimes.{TransferLimitsAreTold, TransfersAreOne, WalkTimesSettle};

use periodic_laws::systems_settle;

/// In every live net the greatest times of walks from the first firing of an input have a shortest
/// settled form: so `transfer` of `teg_settle` has an answer within some limit (chapter 3).
pub fn walk_times_settle()
    ensures { WalkTimesSettle }
{
    systems_settle();
}

/// The greatest times of walks from an input have no two shortest settled forms, and one is longer
/// than each limit that every form of them exceeds (chapter 3).
pub fn transfers_are_one()
    ensures one { TransfersAreOne }
    ensures limits { TransferLimitsAreTold }
{}
