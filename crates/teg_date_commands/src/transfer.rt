//! The times from the inputs of a live net to its outputs.
ghost use Rattle.std.specs.Prelude.{Some};
ghost use Rattle.teg_outcome.specs.CommandOutcomes.{Tells, outcome_of};
ghost use Rattle.teg_date_commands.specs.CommandDates.{SaysTooLong};
ghost use Rattle.teg_date_commands.specs.Transfer.{SaysTransfer};
ghost use Rattle.teg_settle.specs.LimitRefusals.{IsRightSettleRefusal};
ghost use Rattle.teg_transfer.specs.TimesFromInputs.{TimesSettlePast};

use std::alloc::Global;
use teg_check::LiveNet;
use teg_net::OutOfMemory;
use teg_outcome::{CommandOutcome, Limit, Verdict};
use teg_report::{Answer, report};
use teg_settle::SettleRefusal;
use teg_transfer::transfer_text;

// That the times from an input settle past the limit.
fn tell_too_long(
    alloc: Global,
    net: &LiveNet,
    limit: u32,
    refusal: SettleRefusal,
) -> Result<CommandOutcome, OutOfMemory>
    requires { IsRightSettleRefusal (TimesSettlePast net.now limit) limit refusal }
    ensures { Tells (SaysTooLong (TimesSettlePast net.now) (Some limit)) (outcome_of result) }
{
    match refusal {
        SettleRefusal::TooLong { limit } => {
            let text = report(alloc, None, &Answer::TooLong { limit })?;
            let verdict = Verdict::TooLong;
            Ok(CommandOutcome { verdict, text })
        }
        SettleRefusal::OutOfMemory => Err(OutOfMemory),
    }
}

/// The greatest times of walks from the first firing of each input of a live net to the firings of
/// each output, as the shortest settled form over all transitions (chapter 5); or that such a form
/// is longer than the limit. It takes the time of the search for a form for each input but those
/// from which all places are held so much longer than from one before, to the same transitions and
/// with the same tokens: there each date is one of that input, moved.
pub fn tell_transfer(
    alloc: Global,
    net: &LiveNet,
    limit: Limit,
) -> Result<CommandOutcome, OutOfMemory>
    ensures { Tells (SaysTransfer limit net.now) (outcome_of result) }
{
    let limit = limit.get() as u32;
    match transfer_text(alloc, net, limit) {
        Ok(text) => {
            let verdict = Verdict::Done;
            Ok(CommandOutcome { verdict, text })
        }
        Err(refusal) => tell_too_long(alloc, net, limit, refusal),
    }
}
