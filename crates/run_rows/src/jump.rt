//! A jump: the turn in which the last rows move, and for how many turns more they do.
ghost use Rattle.std.specs.Prelude.{◌+◌, ◌*◌, ◌≤◌, IfOk, IfSome};
ghost use Rattle.teg_net.specs.Limits.{greatest_firing_number};
ghost use Rattle.run_rows.specs.LeastRuns.{AreRowsPast};
ghost use Rattle.run_rows.specs.ReadRuns.{GoesOnFor, IsJumpRun};
ghost use Rattle.run_rows.specs.RoomyRuns.{end_of};

use crate::columns::last_turn;
use crate::in_time::turns_left;
use crate::last_turn::LastTurn;
use crate::ranked::RankedNet;
use crate::runs::EvenRun;
use crate::turn::{lists_go_on, moves, seeming_turn};
use date_rows::Rows;
use std::alloc::Global;
use teg_net::OutOfMemory;

// For how many turns more, up to a number, the rows move by the steps of their last turn, if they
// did so in two turns and as many numbers as a place may have tokens, and go on for as many.
fn turns_more(last: &LastTurn<'_>, number: u64) -> Option<u64>
    requires { last.now.after + last.now.rows.now.count ≤ number }
    ensures more { IfSome result (GoesOnFor last.now.of.net.now last.now.of.most last.now.after
        last.now.rows.now last.now.run.now) }
    ensures up_to { IfSome result (λ turns. last.now.after + last.now.rows.now.count
        + turns * last.now.run.now.turn ≤ number) }
{
    let net = last.of.net;
    let run = last.run;
    let turn = run.turn;
    let most = last.of.most;
    let count = last.rows.count();
    let before = count - turn - turn;
    if !lists_go_on(net, turn, last.after + before) || !moves(last, before - most + 1) {
        return None;
    }
    let turns = turns_left(last, (number - last.after - count) / turn);
    if turns < 2 || turns * turn < most {
        return None;
    }
    Some(turns)
}

// The last turn of the rows and for how many turns more its dates move as they did, up to a number,
// if they do so for two turns and for as many numbers as a place may have tokens.
pub(crate) fn jump(
    alloc: Global,
    ranked: &RankedNet<'_>,
    rows: &Rows,
    after: u64,
    number: u64,
) -> Result<Option<EvenRun>, OutOfMemory>
    requires rows { AreRowsPast ranked.now.net.now after rows.now }
    requires before { after + rows.now.count ≤ number }
    requires number { number ≤ greatest_firing_number }
    ensures jump { IfOk result (λ jump. IfSome jump (IsJumpRun ranked.now.net.now ranked.now.most
        after rows.now)) }
    ensures up_to { IfOk result (λ jump. IfSome jump (λ run. end_of run ≤ number)) }
{
    // The net keeps its rules.
    ranked.net.rules();
    let turn = match seeming_turn(ranked.net, rows, after, ranked.most) {
        None => return Ok(None),
        Some(turn) => turn,
    };
    let run = last_turn(alloc, ranked.net, rows, after, turn)?;
    let last = &LastTurn {
        of: *ranked,
        rows,
        after,
        run: &run,
    };
    match turns_more(last, number) {
        None => Ok(None),
        Some(turns) => Ok(Some(run.lasting(turns + 1))),
    }
}
