//! A live net as a file of the second version.
ghost use Rattle.teg_net_commands.specs.Migrate.{SaysMigrate};
ghost use Rattle.teg_outcome.specs.CommandOutcomes.{Tells, outcome_of};

use std::alloc::Global;
use teg_check::LiveNet;
use teg_net::OutOfMemory;
use teg_outcome::{CommandOutcome, Verdict};
use teg_reader::write_net;

/// A live net as a file of the second version, without durations. It takes time of order of the
/// size of the file that is written.
pub fn tell_migrate(alloc: Global, net: &LiveNet) -> Result<CommandOutcome, OutOfMemory>
    ensures { Tells (SaysMigrate net.now) (outcome_of result) }
{
    let text = write_net(alloc, net.net())?;
    let verdict = Verdict::Done;
    Ok(CommandOutcome { verdict, text })
}
