//! The size of a live net.
ghost use Rattle.teg_net_commands.specs.Check.{SaysCheck};
ghost use Rattle.teg_outcome.specs.CommandOutcomes.{Tells, outcome_of};

use std::alloc::Global;
use teg_check::LiveNet;
use teg_net::OutOfMemory;
use teg_outcome::{CommandOutcome, Verdict};
use teg_report::{Answer, report};

/// That a net is live, and how many transitions and places it has (chapter 2).
pub fn tell_check(alloc: Global, net: &LiveNet) -> Result<CommandOutcome, OutOfMemory>
    ensures { Tells (SaysCheck net.now) (outcome_of result) }
{
    let net = net.net();
    let answer = Answer::Live {
        transitions: net.transitions().len() as u32,
        places: net.places().len() as u32,
    };
    let text = report(alloc, None, &answer)?;
    let verdict = Verdict::Done;
    Ok(CommandOutcome { verdict, text })
}
