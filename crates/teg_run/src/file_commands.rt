//! The commands on a net and a second file.
ghost use Rattle.std.specs.Prelude.{◌≡◌, is_ok};
ghost use Rattle.teg_outcome.specs.CommandOutcomes.{Tells, outcome_of};
ghost use Rattle.teg_outside.specs.Monitors.{lines_by};
ghost use Rattle.teg_request.specs.Requests.{second_of};
ghost use Rattle.teg_run.specs.Says.{SaysFiles};
ghost use Rattle.teg_run.specs.ShownFirings.{ShowsFiles};

use std::alloc::Global;
use teg_check::LiveNet;
use teg_commands::tell_forever;
use teg_date_commands::tell_timetable;
use teg_files::FileBytes;
use teg_net::OutOfMemory;
use teg_outcome::CommandOutcome;
use teg_outside::Monitor;
use teg_plan_commands::{tell_jit, tell_replay};
use teg_report::Which;
use teg_request::FileCommand;

/// What the second file of the command is for.
pub fn second_of(command: &FileCommand) -> Which
    ensures { result ≡ second_of command.now }
{
    match command {
        FileCommand::Jit => Which::Due,
        FileCommand::Replay => Which::Log,
        FileCommand::Forever => Which::Due,
        FileCommand::Timetable { .. } => Which::Timetable,
    }
}

/// What the command comes to on a live net and the bytes of its second file. The monitors are shown
/// just the accepted firings of a log.
pub fn of_files(
    alloc: Global,
    command: FileCommand,
    net: &LiveNet,
    file: &FileBytes,
    monitors: &mut [Box<dyn Monitor>],
) -> Result<CommandOutcome, OutOfMemory>
    ensures says { Tells (SaysFiles command (lines_by line_text monitors.old) net.now file.now)
        (outcome_of result) }
    ensures shown { ShowsFiles command net.now file.now (lines_by line_text monitors.old)
        (lines_by line_text monitors.new) (is_ok result) }
{
    match command {
        FileCommand::Jit => tell_jit(alloc, net, file.as_slice()),
        FileCommand::Replay => tell_replay(alloc, net, file.as_slice(), monitors),
        FileCommand::Forever => tell_forever(alloc, net, file.as_slice()),
        FileCommand::Timetable { period, limit } => {
            tell_timetable(alloc, net, period, file.as_slice(), limit)
        }
    }
}
