//! How the work on a request ends, before anything is written.
ghost use Rattle.std.specs.Prelude.{◌≡◌};
ghost use Rattle.teg_files.specs.Endings.{ending_of};
ghost use Rattle.teg_outcome.specs.CommandOutcomes.{outcome_of};
ghost use Rattle.teg_files.specs.CallMeanings.{ended};

use crate::status::{Status, status_of};
use teg_net::OutOfMemory;
use teg_outcome::CommandOutcome;

/// How the work on a request ends.
#[derive(Drop)]
pub enum Ending {
    /// With this status and the whole of its text.
    Whole { status: Status, text: Vec<u8> },
    /// For want of memory.
    Lost,
}

/// The ending of a request whose command has this outcome.
pub fn closed(outcome: Result<CommandOutcome, OutOfMemory>) -> Ending
    ensures { ended result ≡ ending_of (outcome_of outcome) }
{
    match outcome {
        Ok(outcome) => Ending::Whole {
            status: status_of(outcome.verdict),
            text: outcome.text,
        },
        Err(_) => Ending::Lost,
    }
}
