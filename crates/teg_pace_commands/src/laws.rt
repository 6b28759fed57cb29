//! The laws of what is told of circuits: of a net without one, and of the rounds behind the cycle
//! times. Each is a function that does nothing when it runs: its contract is the law.
ghost use Rattle.teg_pace_commands.specs.SpecialCases.{NoCircuitIsTold, RoundsFollowTimes};

use teg_howard::policy_runs_are_one;
use teg_parts::parts_are_one;

/// The law that of a net without a circuit `cycle` tells just that, with the rounds or without. It
/// does nothing when it runs.
pub fn no_circuit_is_told()
    ensures { NoCircuitIsTold }
{}

/// The law that of a live net `cycle` with the rounds writes what it writes without them, and then
/// the rounds. It does nothing when it runs.
pub fn rounds_follow_times()
    ensures { RoundsFollowTimes }
{
    // That a net has one split into parts, and each part one run of policy iteration.
    parts_are_one();
    policy_runs_are_one();
}
