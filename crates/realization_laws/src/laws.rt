//! The laws of realization. Each is a function that does nothing when it runs: its contract is the
//! law.
ghost use Rattle.realization_laws.specs.Realizations.{SeriesAreRealized, TransfersArePeriodic};

use teg_check::ranked_nets_are_live;
use walk_times::walk_times_settle;

/// Realization: every causal periodic series has the greatest times of walks of a live net, from
/// the first firing of one transition to each firing of another (chapters 5 and 6). The net has as
/// many places, tokens and holding times as it takes, also beyond the limits of a net file. A
/// causal series has no value below 0: no walk takes less time than none.
///
/// The net has three transitions: a place from the first to the last for each value before the
/// series repeats, a transition that goes round once in each period, and a place from it to the
/// last for each value of the first period. Names and roles are free.
pub fn series_are_realized()
    ensures { SeriesAreRealized }
{
    ranked_nets_are_live();
}

/// And transfers are nothing else: that of each live net from an input to a transition is a causal
/// periodic series (chapters 5 and 6). In a net that is not live there may be none: around a
/// circuit without tokens walks to one firing take any time.
pub fn transfers_are_periodic()
    ensures { TransfersArePeriodic }
{
    walk_times_settle();
}
