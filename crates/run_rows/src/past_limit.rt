//! That jumps show each settled form to be longer than a limit, without the rows up to there.
ghost use Rattle.std.specs.Prelude.{◌≤◌, IfOk, IsTrue};
ghost use Rattle.teg_check.specs.Ranks.{IsRanking};
ghost use Rattle.teg_net.specs.Limits.{greatest_firing_number};
ghost use Rattle.settled_laws.specs.SettledForms.{NetSettlesPast};
ghost use Rattle.run_rows.specs.LeastRuns.{AreRowsPast};
ghost use Rattle.run_rows.specs.ReadRuns.{IsJumpRun};
ghost use Rattle.run_rows.specs.RoomyRuns.{end_of};

use crate::extent::Extent;
use crate::last_turn::LastTurn;
use crate::late::late_place;
use crate::past::GREATEST;
use crate::ranked::{RankedNet, most_tokens};
use crate::reached::Reached;
use crate::runs::{EvenRun, RunRows};
use crate::stretches::next_stretch;
use date_rows::{PlaceOrder, Rows};
use std::alloc::Global;
use teg_check::Live;
use teg_net::{Net, OutOfMemory};

// Past this number no jump is looked at.
const FAR: u64 = 500_000_000_000_000_000;

// How many numbers of the limit there are for a row.
const NUMBERS_A_ROW: u64 = 64;

// Whether the jump past these rows is longer than the limit, and a token comes late behind it.
fn shows_late(ranked: &RankedNet<'_>, rows: &Rows, after: u64, run: &EvenRun, limit: u64) -> bool
    requires rows { AreRowsPast ranked.now.net.now after rows.now }
    requires jump { IsJumpRun ranked.now.net.now ranked.now.most after rows.now run.now }
    requires few { end_of run.now ≤ greatest_firing_number }
    ensures { IsTrue result → NetSettlesPast ranked.now.net.now limit }
{
    // The net keeps its rules.
    ranked.net.rules();
    let last = &LastTurn {
        of: *ranked,
        rows,
        after,
        run,
    };
    (run.turns - 1) * run.turn + ranked.most >= limit && late_place(last, run.turns)
}

/// Whether jumps show that each settled form of the least dating of a live net, with its ready
/// dates and its input lists, is longer than a limit (chapter 3): a jump passes as many numbers,
/// and behind it a token comes late, so that one circuit overtakes another. Rows are made of some
/// numbers alone, one for each 64 of the limit and twice as many as a place has tokens; where these
/// show no such jump the form may be longer all the same. `OutOfMemory` comes only where no memory
/// is found.
pub fn settles_past(alloc: Global, net: &Net, live: &Live, limit: u32) -> Result<bool, OutOfMemory>
    requires stands { IsRanking net.now live.now }
    ensures { IfOk result (λ yes. IsTrue yes → NetSettlesPast net.now limit) }
{
    let order = PlaceOrder::new(alloc, net, live)?;
    let most = most_tokens(net);
    let ranked = &RankedNet { net, live, most };
    let asked = u64::from(limit);
    let runs = RunRows::new(alloc);
    let mut reached = Reached {
        runs,
        after: 0,
        all: false,
    };
    let mut room = asked / NUMBERS_A_ROW + 2 * most + 16;
    while reached.after < FAR && room > 0 {
        let number = GREATEST;
        let found = next_stretch(alloc, ranked, &order, &reached, Extent { number, room })?;
        let rows = found.rows;
        match found.jump {
            None => return Ok(false),
            Some(run) => {
                if shows_late(ranked, &rows, reached.after, &run, asked) {
                    return Ok(true);
                }
                room = room.saturating_sub(rows.count());
                reached = reached.past(alloc, ranked, &rows, run)?;
            }
        }
    }
    Ok(false)
}
