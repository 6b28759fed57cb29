//! Runs up to a number, and those that go on from them.
ghost use Rattle.std.specs.Prelude.{◌≡◌, ◌+◌, ◌≤◌, IfOk};
ghost use Rattle.teg_net.specs.Limits.{greatest_firing_number};
ghost use Rattle.run_rows.specs.LeastRuns.{AreRowsPast};
ghost use Rattle.run_rows.specs.ReadRuns.{IsJumpRun, IsLeastRun};
ghost use Rattle.run_rows.specs.RoomyRuns.{end_of};
ghost use Rattle.run_rows.specs.Stretches.{AreReached};

use crate::columns::columns;
use crate::ranked::RankedNet;
use crate::runs::{EvenRun, RunRows};
use date_rows::Rows;
use std::alloc::{AllocError, Global};
use teg_net::Net;

// Runs up to the number `after`, and whether all of them are kept: else there is the last one.
#[derive(Drop)]
pub(crate) struct Reached {
    pub(crate) runs: RunRows,
    pub(crate) after: u64,
    pub(crate) all: bool,
}

// The rows as a run of one turn.
pub(crate) fn run_of_rows(
    alloc: Global,
    net: &Net,
    rows: &Rows,
    after: u64,
) -> Result<EvenRun, AllocError>
    requires rows { AreRowsPast net.now after rows.now }
    requires some { 1 ≤ rows.now.count }
    requires few { after + rows.now.count ≤ greatest_firing_number }
    ensures { IfOk result (IsLeastRun net.now after (after + rows.now.count)) }
{
    let turn = rows.count();
    let dates = columns(alloc, net, rows, 1, turn)?;
    Ok(EvenRun {
        first: after + 1,
        turn,
        turns: 1,
        dates,
        steps: Vec::new(alloc),
    })
}

impl Reached {
    // The runs with these rows and the jump after them, or, where they are not all kept, the jump
    // alone: it has as many numbers as a place may have tokens, so rows go on from it.
    pub(crate) fn past(
        self,
        alloc: Global,
        ranked: &RankedNet<'_>,
        rows: &Rows,
        run: EvenRun,
    ) -> Result<Reached, AllocError>
        requires reached { AreReached ranked.now.net.now ranked.now.most self }
        requires rows { AreRowsPast ranked.now.net.now self.after rows.now }
        requires jump { IsJumpRun ranked.now.net.now ranked.now.most self.after rows.now run }
        requires few { end_of run ≤ greatest_firing_number }
        ensures reached { IfOk result (AreReached ranked.now.net.now ranked.now.most) }
        ensures end { IfOk result (λ reached. reached.after ≡ end_of run) }
        ensures all { IfOk result (λ reached. reached.all ≡ self.all) }
    {
        let after = run.end();
        let all = self.all;
        if all {
            let made = run_of_rows(alloc, ranked.net, rows, self.after)?;
            let runs = self.runs.with(made)?.with(run)?;
            Ok(Reached { runs, after, all })
        } else {
            let runs = RunRows::new(alloc).with(run)?;
            Ok(Reached { runs, after, all })
        }
    }
}
