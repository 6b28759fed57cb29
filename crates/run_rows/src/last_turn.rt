//! The last turn of rows, as a run whose steps tell how the rows may go on.
ghost use Rattle.std.specs.Prelude.{◌≡◌, ◌+◌, ◌≤◌, length};
ghost use Rattle.teg_net.specs.Limits.{greatest_firing_number};
ghost use Rattle.run_rows.specs.DatedRows.{StayWithin, StayWithin-prop};

use crate::ranked::RankedNet;
use crate::runs::EvenRun;
use date_rows::Rows;

// The rows of a net past a number, and a run that begins with the last turn of them: before its
// last two turns the rows have as many numbers as a place may have tokens.
#[derive(Clone, Copy, Drop)]
pub(crate) struct LastTurn<'a> {
    pub(crate) of: RankedNet<'a>,
    pub(crate) rows: &'a Rows,
    pub(crate) after: u64,
    pub(crate) run: &'a EvenRun,
    ghost width: { rows.now.width ≡ length of.net.now.transitions },
    ghost within: { StayWithin rows.now } by { StayWithin-prop rows.now },
    ghost few: { after + rows.now.count ≤ greatest_firing_number },
    ghost some: { 1 ≤ run.now.turn },
    ghost first: { run.now.first + run.now.turn ≡ after + rows.now.count + 1 },
    ghost fits: { of.most + run.now.turn + run.now.turn ≤ rows.now.count },
}
