//! Whether a token comes late so many turns after the last one of rows.
ghost use Rattle.std.specs.Prelude.{◌≡◌, ◌+ℤ◌, ◌*ℤ◌, ◌≤◌, All, IfSome, IsTrue, pos};
ghost use Rattle.dioid.specs.declared.dates.Date.TheVariants.{At};
ghost use Rattle.run_rows.specs.TurnsLeft.{InTimeFor, IsPlaceInTime, IsWayIn, IsWayInTime};

use crate::in_time::{Way, way_of};
use crate::last_turn::LastTurn;
use date_rows::DateCell;
use dioid::Date;

// The number so many steps on, if it is in range.
fn moved_by(number: i128, step: i128, turns: u64) -> Option<i128>
    ensures { IfSome result (λ moved. moved ≡ number +ℤ (pos turns *ℤ step)) }
{
    match i128::from(turns).checked_mul(step) {
        Some(all) => number.checked_add(all),
        None => None,
    }
}

// Whether the first number, so many of its steps on, is seen to be past the second, as many of its
// own on.
fn is_past(token: i128, token_step: i128, date: i128, step: i128, turns: u64) -> bool
    requires { 1 ≤ turns }
    ensures { IsTrue result → InTimeFor turns token_step step (At token) (At date) → ⊥ }
{
    match (
        moved_by(token, token_step, turns),
        moved_by(date, step, turns),
    ) {
        (Some(token), Some(date)) => token > date,
        _ => false,
    }
}

// So for dates.
fn comes_late(token: Date, token_step: i128, date: Date, step: i128, turns: u64) -> bool
    requires { 1 ≤ turns }
    ensures { IsTrue result → InTimeFor turns token_step step token date → ⊥ }
{
    match (token, date) {
        (Date::At(token), Date::At(date)) => is_past(token, token_step, date, step, turns),
        _ => false,
    }
}

// Whether the token of the place does at some number of the last turn.
fn late_way(last: &LastTurn<'_>, way: Way, turns: u64) -> bool
    requires way { IsWayIn last.now.rows.now last.now.run.now.turn way }
    requires some { 1 ≤ turns }
    ensures { IsTrue result → IsWayInTime turns last.now.after last.now.rows.now last.now.run.now
        way.from.index
        way.to.index way.tokens way.hold → ⊥ }
{
    let rows = last.rows;
    let run = last.run;
    let count = rows.count();
    for number in count - run.turn + 1..count + 1 {
        let before = number - way.tokens;
        let token = rows.date(way.from, before).delayed(way.hold);
        let token_step = run.step(way.from, last.after + before);
        let step = run.step(way.to, last.after + number);
        if comes_late(token, token_step, rows.date(way.to, number), step, turns) {
            return true;
        }
    }
    false
}

// Whether the token of some place does.
pub(crate) fn late_place(last: &LastTurn<'_>, turns: u64) -> bool
    requires { 1 ≤ turns }
    ensures { IsTrue result → All (IsPlaceInTime turns last.now.after last.now.rows.now
        last.now.run.now) last.now.of.net.now.places → ⊥ }
{
    for place in last.of.net.places() {
        if late_way(last, way_of(place), turns) {
            return true;
        }
    }
    false
}
