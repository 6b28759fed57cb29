//! The replay of a log.
ghost use Rattle.std.specs.Prelude.{◌<◌, ◌^◌, ◌≡◌, length, IfOk, IfSome, Some};
ghost use Rattle.teg_due.specs.RowRules.{IsLogOf};
ghost use Rattle.teg_outside.specs.Monitors.{lines_by};
ghost use Rattle.teg_replay.specs.RefusedFirings.{IsFailure, NamesPlaceOf};
ghost use Rattle.teg_replay.specs.RunsAndLeastDates.{AcceptsLegalRuns, AcceptsEarliestRuns};
ghost use Rattle.teg_replay.specs.Replays.{Replays};

use crate::game::Game;
use crate::refusal::FireRefusal;
use crate::replayed::{Refused, Replayed};
use crate::watching::show_each;
use std::alloc::Global;
use teg_due::LogRow;
use teg_net::{Net, OutOfMemory};
use teg_outside::Monitor;

// The answer where a row is refused.
fn refused(row: &LogRow, accepted: u64, why: FireRefusal) -> Result<Replayed, OutOfMemory>
    ensures told { IfOk result
        (λ replayed. replayed ≡ record {
          accepted = accepted;
          refused = Some (record { row = row.now.row; why = why });
        }) }
    ensures failed { IfOk result (λ _. IsFailure why) }
{
    match why {
        FireRefusal::OutOfMemory => Err(OutOfMemory),
        FireRefusal::Illegal { .. }
        | FireRefusal::BackInTime { .. }
        | FireRefusal::BeforeRelease { .. } => Ok(Replayed {
            accepted,
            refused: Some(Refused { row: row.row, why }),
        }),
    }
}

/// Fires the rows in order up to the first that is refused, and shows each accepted firing to every
/// monitor, in order, once (chapter 2, the token game). It answers how many were accepted, and the
/// refused row with the first way in which it fails.
///
/// There are fewer than 2^40 rows, each of a transition of the net and with a date of at most
/// 10^18, in the user's unit of time. `OutOfMemory` comes only where no memory is found; the
/// monitors have then seen the firings of some first rows. It takes time of the order of the log
/// and, for each row, of the monitors and of the places into its transition, past the first 1,000
/// firings of that of one place only for each upstream transition and number of tokens; and, once,
/// a step for each transition and number of tokens up to 1,000.
pub fn replay(
    alloc: Global,
    net: &Net,
    log: &[LogRow],
    monitors: &mut [Box<dyn Monitor>],
) -> Result<Replayed, OutOfMemory>
    requires few { length log.now < 2 ^ 40 }
    requires rows { IsLogOf net.now log.now }
    ensures replayed { Replays net.now log.now (lines_by line_text monitors.old)
        (lines_by line_text monitors.new) result }
    ensures named { IfOk result (λ replayed. IfSome replayed.refused
        (λ refused. NamesPlaceOf net.now refused.why)) }
    ensures legal { IfOk result (λ replayed. AcceptsLegalRuns net.now log.now replayed) }
    ensures earliest { IfOk result (λ replayed. AcceptsEarliestRuns net.now log.now replayed) }
{
    let Ok(mut game) = Game::new(alloc, net) else {
        return Err(OutOfMemory);
    };
    let mut accepted = 0;
    for row in log {
        match game.fire(alloc, net, row.transition, row.date) {
            Ok(firing) => {
                show_each(monitors, firing);
                accepted += 1;
            }
            Err(why) => return refused(row, accepted, why),
        }
    }
    Ok(Replayed {
        accepted,
        refused: None,
    })
}
