//! The last turn of rows, read off as a run.
ghost use Rattle.std.specs.Prelude.{◌≡◌, ◌+◌, ◌-◌, ◌*◌, ◌<◌, ◌≤◌, [], length, map, IfOk};
ghost use Rattle.teg_net.specs.Limits.{greatest_firing_number};
ghost use Rattle.run_rows.specs.LeastRuns.{AreRowsPast};
ghost use Rattle.run_rows.specs.ReadRuns.{AreColumns, IsColumn, IsLastTurn};

use crate::runs::EvenRun;
use date_rows::Rows;
use dioid::Date;
use std::alloc::{AllocError, Global};
use teg_net::{Net, TransitionId};

// The dates of the transition from this number of the rows on, so many.
fn column(
    alloc: Global,
    rows: &Rows,
    transition: TransitionId,
    first: u64,
    count: u64,
) -> Result<Vec<Date>, AllocError>
    requires transition { transition.index < rows.now.width }
    requires first { 1 ≤ first }
    requires last { first + count ≤ rows.now.count + 1 }
    ensures { IfOk result (λ dates. IsColumn rows.now transition.index first count dates.items) }
{
    // The rows keep their limits.
    let _count = rows.count();
    let mut dates = Vec::new(alloc);
    for place in 0..count {
        dates.push(rows.date(transition, first + place))?;
    }
    Ok(dates)
}

// Those of each transition.
pub(crate) fn columns(
    alloc: Global,
    net: &Net,
    rows: &Rows,
    first: u64,
    count: u64,
) -> Result<Vec<Vec<Date>>, AllocError>
    requires width { rows.now.width ≡ length net.now.transitions }
    requires first { 1 ≤ first }
    requires last { first + count ≤ rows.now.count + 1 }
    ensures { IfOk result (λ columns. AreColumns rows.now first count
        (map (λ r. r.items) columns.items)) }
{
    let mut columns = Vec::new(alloc);
    for index in 0..net.transitions().len() {
        let id = TransitionId {
            index: index as u32,
        };
        let dates = column(alloc, rows, id, first, count)?;
        columns.push(dates)?;
    }
    Ok(columns)
}

// By what a date moves to another, 0 where that is no number.
pub(crate) fn step_between(early: Date, late: Date) -> i128 {
    match (early, late) {
        (Date::At(early), Date::At(late)) => match late.checked_sub(early) {
            Some(step) => step,
            None => 0,
        },
        _ => 0,
    }
}

// By what the dates of the last turn of a transition moved in it.
fn steps_of(
    alloc: Global,
    rows: &Rows,
    transition: TransitionId,
    turn: u64,
) -> Result<Vec<i128>, AllocError>
    requires transition { transition.index < rows.now.width }
    requires some { 1 ≤ turn }
    requires fits { turn + turn ≤ rows.now.count }
{
    // The rows keep their limits.
    let first = rows.count() - turn + 1;
    let mut steps = Vec::new(alloc);
    for place in 0..turn {
        let number = first + place;
        let early = rows.date(transition, number - turn);
        steps.push(step_between(early, rows.date(transition, number)))?;
    }
    Ok(steps)
}

// Those of each transition.
fn all_steps(alloc: Global, net: &Net, rows: &Rows, turn: u64) -> Result<Vec<Vec<i128>>, AllocError>
    requires width { rows.now.width ≡ length net.now.transitions }
    requires some { 1 ≤ turn }
    requires fits { turn + turn ≤ rows.now.count }
{
    let mut steps = Vec::new(alloc);
    for index in 0..net.transitions().len() {
        let id = TransitionId {
            index: index as u32,
        };
        let own = steps_of(alloc, rows, id, turn)?;
        steps.push(own)?;
    }
    Ok(steps)
}

// The last turn of the rows as a run, with the steps by which its dates moved.
pub(crate) fn last_turn(
    alloc: Global,
    net: &Net,
    rows: &Rows,
    after: u64,
    turn: u64,
) -> Result<EvenRun, AllocError>
    requires rows { AreRowsPast net.now after rows.now }
    requires few { after + rows.now.count ≤ greatest_firing_number }
    requires some { 1 ≤ turn }
    requires fits { turn + turn ≤ rows.now.count }
    ensures last { IfOk result (IsLastTurn after rows.now) }
    ensures turn { IfOk result (λ last. last.turn ≡ turn) }
{
    let first = rows.count() - turn + 1;
    let steps = all_steps(alloc, net, rows, turn)?;
    let dates = columns(alloc, net, rows, first, turn)?;
    Ok(EvenRun {
        first: after + first,
        turn,
        turns: 1,
        dates,
        steps,
    })
}
