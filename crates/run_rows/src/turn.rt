//! In which turns the last rows move, each number of a turn by a step of its own.
ghost use Rattle.std.specs.Prelude.{ℕ, ◌≡◌, ◌+◌, ◌-◌, ◌*◌, ◌<◌, ◌≤◌, All, IfSome, IsTrue, length};
ghost use Rattle.dioid.specs.Dates.{move};
ghost use Rattle.teg_net.specs.Limits.{greatest_firing_number};
ghost use Rattle.jump_laws.specs.ListedJumps.{GoesOnInTurns};
ghost use Rattle.run_rows.specs.ReadRuns.{MovesInRows};

use crate::columns::step_between;
use crate::last_turn::LastTurn;
use date_rows::Rows;
use dioid::Date;
use teg_net::{InputList, Net, TransitionId};

// Whether the step leads from one date to the other.
fn is_moved(early: Date, step: i128, late: Date) -> bool
    ensures { IsTrue result → late ≡ move step early }
{
    match (early, late) {
        (Date::Early, Date::Early) | (Date::Never, Date::Never) => true,
        (Date::At(early), Date::At(late)) => match early.checked_add(step) {
            Some(sum) => sum == late,
            None => false,
        },
        _ => false,
    }
}

// Whether the dates of the transition move from this number of the rows on in a turn by the steps
// of the run.
fn moves_one(last: &LastTurn<'_>, transition: TransitionId, from: u64) -> bool
    requires transition { transition.index < last.now.rows.now.width }
    requires from { 1 ≤ from }
    ensures { IsTrue result → MovesInRows last.now.after last.now.rows.now last.now.run.now from
        transition.index }
{
    let rows = last.rows;
    let run = last.run;
    let turn = run.turn;
    for number in from..rows.count() - turn + 1 {
        let step = run.step(transition, last.after + number);
        let late = rows.date(transition, number + turn);
        if !is_moved(rows.date(transition, number), step, late) {
            return false;
        }
    }
    true
}

// Whether those of all transitions do.
pub(crate) fn moves(last: &LastTurn<'_>, from: u64) -> bool
    requires { 1 ≤ from }
    ensures { IsTrue result → (t : ℕ) → t < length last.now.of.net.now.transitions
        → MovesInRows last.now.after last.now.rows.now last.now.run.now from t }
{
    for index in 0..last.of.net.transitions().len() {
        let id = TransitionId {
            index: index as u32,
        };
        if !moves_one(last, id, from) {
            return false;
        }
    }
    true
}

// Whether the list is left by this number and goes on in whole laps in each turn.
fn list_goes_on(list: &InputList, turn: u64, after: u64) -> bool
    ensures { IsTrue result → GoesOnInTurns turn after list.now }
{
    let laps = match list.again {
        None => true,
        Some(again) => {
            let every = u64::from(again.every);
            every > 0 && turn / every * every == turn
        }
    };
    laps && list.dates.as_slice().len() as u64 <= after
}

// Whether each list does.
pub(crate) fn lists_go_on(net: &Net, turn: u64, after: u64) -> bool
    ensures { IsTrue result → All (GoesOnInTurns turn after) net.now.inputs }
{
    for list in net.inputs() {
        if !list_goes_on(list, turn, after) {
            return false;
        }
    }
    true
}

// Whether the dates of the transition so many numbers before the last and fewer moved in the last
// turn as in the one before.
fn moves_alike(rows: &Rows, transition: TransitionId, turn: u64, most: u64) -> bool
    requires transition { transition.index < rows.now.width }
    requires fits { most + turn + turn ≤ rows.now.count }
{
    let last = rows.count();
    for back in 0..most {
        let late = rows.date(transition, last - back);
        let middle = rows.date(transition, last - back - turn);
        let early = rows.date(transition, last - back - turn - turn);
        let step = step_between(middle, late);
        if !is_moved(early, step, middle) || !is_moved(middle, step, late) {
            return false;
        }
    }
    true
}

// Whether those of the transition of this number did.
fn moves_there(net: &Net, rows: &Rows, index: usize, turn: u64, most: u64) -> bool
    requires width { rows.now.width ≡ length net.now.transitions }
    requires fits { most + turn + turn ≤ rows.now.count }
{
    if index >= net.transitions().len() {
        return false;
    }
    let id = TransitionId {
        index: index as u32,
    };
    moves_alike(rows, id, turn, most)
}

// The first transition whose dates did not, if there is one.
fn first_apart(net: &Net, rows: &Rows, turn: u64, most: u64) -> Option<usize>
    requires width { rows.now.width ≡ length net.now.transitions }
    requires fits { most + turn + turn ≤ rows.now.count }
{
    for index in 0..net.transitions().len() {
        if !moves_there(net, rows, index, turn, most) {
            return Some(index);
        }
    }
    None
}

// The least turn in which the last rows seem to move: twice the turn and so many numbers as a place
// may have tokens are looked at. What it finds is seen to be one by `moves`.
pub(crate) fn seeming_turn(net: &Net, rows: &Rows, after: u64, most: u64) -> Option<u64>
    requires width { rows.now.width ≡ length net.now.transitions }
    requires few { after + rows.now.count ≤ greatest_firing_number }
    ensures some { IfSome result (λ turn. 1 ≤ turn) }
    ensures fits { IfSome result (λ turn. most + turn + turn ≤ rows.now.count) }
{
    let count = rows.count();
    if count < most {
        return None;
    }
    let mut witness = 0;
    for turn in 1..(count - most) / 2 + 1 {
        if moves_there(net, rows, witness, turn, most)
            && lists_go_on(net, turn, after + count - turn - turn)
        {
            match first_apart(net, rows, turn, most) {
                Some(index) => {
                    witness = index;
                }
                None => return Some(turn),
            }
        }
    }
    None
}
