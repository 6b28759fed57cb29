//! The number and the period of the shortest form of a strongly connected net, by two streams of
//! its rows: in memory that does not grow.
ghost use Rattle.std.specs.Prelude.{ℕ, ◌≡◌, ◌+◌, ◌*◌, ◌<◌, ◌≤◌, ◌^◌, Decides, IfOk, MatchOption};
ghost use Rattle.periodic_laws.specs.teg_model.DateBounds.{IsDateWithin};
ghost use Rattle.periodic_laws.specs.settled_laws.DateDifferences.{between};
ghost use Rattle.teg_check.specs.Ranks.{IsRanking};
ghost use Rattle.teg_net.specs.Limits.{greatest_firing_number};
ghost use Rattle.date_rows.specs.Streams.{rows_given, rows_kept};
ghost use Rattle.teg_bound.specs.MadeRows.{AreMadeOf};
ghost use Rattle.teg_bound.specs.PeriodicBounds.{HasPlacesAlone, EachReachesEach};
ghost use Rattle.teg_bound.specs.ReturningRows.{AreAbreast, AreRowsMoved, AreTwoStreams, HasFormWithin, IsMovedFrom, IsOnePart, IsReturn, IsReturned, IsRowMoved, IsShortestRepetition, NoneComeAgain, back_step};

use crate::made_rows::{MadeRows, make_row, make_rows, no_rows};
use crate::readings::most_tokens;
use dioid::Date;
use periodic_laws::{least_datings_repeat, live_nets_settle};
use std::alloc::Global;
use teg_check::Live;
use teg_net::{Net, OutOfMemory, TransitionId};

// Where so many rows have not come again, no further ones are made: a century does not make them.
const MOST_MADE: u64 = 100_000_000_000_000_000;

/// From when on the dates of a net are periodic: the number and the period of the shortest settled
/// form of its least dating.
#[derive(Clone, Copy, Debug, Drop)]
pub struct SettledNumbers {
    /// The number past which the dates go on by steps, 0 or more.
    pub after: u64,
    /// In how many numbers they do, at least 1.
    pub period: u64,
}

// The last number of rows that come again first after this period, all moved by this step.
#[derive(Clone, Copy, Drop)]
pub(crate) struct Returned {
    pub(crate) last: u64,
    pub(crate) period: u64,
    pub(crate) step: i128,
}

// The step from one date to the other, 0 where one of them is no number.
pub(crate) fn step_between(early: Date, late: Date) -> i128
    requires early { IsDateWithin (2 ^ 126) early }
    requires late { IsDateWithin (2 ^ 126) late }
    ensures { result ≡ between early late }
{
    match (early, late) {
        (Date::At(early), Date::At(late)) => late - early,
        _ => 0,
    }
}

// The step from the last date of the first transition in the one stream to that in the other.
fn step_to(net: &Net, early: &MadeRows, late: &MadeRows) -> i128
    requires streams { AreTwoStreams net.now early.now late.now }
    requires part { IsOnePart net.now }
    ensures { result ≡ back_step early.now late.now }
{
    // The net keeps its rules.
    net.rules();
    let first = TransitionId { index: 0 };
    step_between(early.stream.back(first, 1), late.stream.back(first, 1))
}

// Whether the step leads from the row so many back in the one stream to that in the other.
fn is_row_moved(net: &Net, early: &MadeRows, late: &MadeRows, step: i128, behind: u64) -> bool
    requires streams { AreTwoStreams net.now early.now late.now }
    requires some { 1 ≤ behind }
    requires kept { behind ≤ rows_kept early.now.stream.last }
    ensures { Decides result (IsRowMoved net.now early.now late.now step behind) }
{
    for index in 0..net.transitions().len() {
        let id = TransitionId {
            index: index as u32,
        };
        if step_between(early.stream.back(id, behind), late.stream.back(id, behind)) != step {
            return false;
        }
    }
    true
}

// The first of the rows that the one stream keeps, by how far back it stands, in which it does not;
// none, if it does so in all.
fn first_apart(net: &Net, early: &MadeRows, late: &MadeRows, step: i128) -> Option<u64>
    requires streams { AreTwoStreams net.now early.now late.now }
    ensures { MatchOption result (AreRowsMoved net.now early.now late.now step)
        (λ _. AreRowsMoved net.now early.now late.now step → ⊥) }
{
    for behind in 1..early.stream.kept() + 1 {
        if !is_row_moved(net, early, late, step, behind) {
            return Some(behind);
        }
    }
    None
}

// Such a row: the one that was apart before, if it is again, as it mostly is, or the first.
fn apart(net: &Net, early: &MadeRows, late: &MadeRows, step: i128, before: u64) -> Option<u64>
    requires streams { AreTwoStreams net.now early.now late.now }
    ensures { MatchOption result (AreRowsMoved net.now early.now late.now step)
        (λ _. AreRowsMoved net.now early.now late.now step → ⊥) }
{
    if before >= 1
        && before <= early.stream.kept()
        && !is_row_moved(net, early, late, step, before)
    {
        return Some(before);
    }
    first_apart(net, early, late, step)
}

// The period after which the last rows of the one stream first come again in the other, which
// stands where it does and goes on to twice its number at most.
fn return_in(net: &Net, early: &MadeRows, late: &mut MadeRows) -> Option<Returned>
    requires streams { AreAbreast net.now early.now late.old }
    requires part { IsOnePart net.now }
    requires few { 2 * rows_given early.now.stream ≤ greatest_firing_number }
    ensures found { MatchOption result (NoneComeAgain net.now early.now) (IsReturn net.now
        early.now.stream.last.reach) }
    ensures made { AreMadeOf net.now late.new }
    ensures few { rows_given late.new.stream ≤ 2 * rows_given early.now.stream }
{
    let last = early.stream.number();
    let mut before = 1;
    for period in 1..last + 1 {
        make_row(net, late);
        let step = step_to(net, early, late);
        match apart(net, early, late, step, before) {
            Some(behind) => {
                before = behind;
            }
            None => return Some(Returned { last, period, step }),
        }
    }
    None
}

// The last number, the period and the step of rows that come again: there are some within `enough`.
fn first_return(alloc: Global, net: &Net, live: &Live) -> Result<Returned, OutOfMemory>
    ghost enough: { ℕ }
    requires stands { IsRanking net.now live.now }
    requires part { IsOnePart net.now }
    requires exists { HasFormWithin net.now enough }
    ensures { IfOk result (IsReturned net.now) }
{
    let mut early = no_rows(alloc, net, live)?;
    let mut late = no_rows(alloc, net, live)?;
    let mut last = u64::from(most_tokens(net)) + 8;
    'search: loop {
        make_rows(net, &mut early, last);
        make_rows(net, &mut late, last);
        match return_in(net, &early, &mut late) {
            Some(found) => return Ok(found),
            None => {}
        }
        if last > MOST_MADE {
            return Err(OutOfMemory);
        }
        last = 2 * last;
    }
}

// The least number past which the dates go on so: two streams as far apart as the period tell it.
fn moved_from(alloc: Global, net: &Net, live: &Live, found: Returned) -> Result<u64, OutOfMemory>
    requires stands { IsRanking net.now live.now }
    requires part { IsOnePart net.now }
    requires returned { IsReturned net.now found }
    ensures { IfOk result (IsMovedFrom net.now found) }
{
    let mut early = no_rows(alloc, net, live)?;
    let mut late = no_rows(alloc, net, live)?;
    make_rows(net, &mut late, found.period);
    let mut after = 0;
    for number in 1..found.last + 1 {
        make_row(net, &mut early);
        make_row(net, &mut late);
        if !is_row_moved(net, &early, &late, found.step, 1) {
            after = number;
        }
    }
    Ok(after)
}

// The number and the period of the shortest form by two streams, in memory that does not grow.
pub(crate) fn numbers_by_streams(
    alloc: Global,
    net: &Net,
    live: &Live,
) -> Result<SettledNumbers, OutOfMemory>
    requires stands { IsRanking net.now live.now }
    requires alone { HasPlacesAlone net.now }
    requires strong { EachReachesEach net.now }
    ensures { IfOk result (IsShortestRepetition net.now) }
{
    live_nets_settle();
    least_datings_repeat();
    // The net keeps its rules.
    net.rules();
    let found = first_return(alloc, net, live)?;
    let after = moved_from(alloc, net, live, found)?;
    let period = found.period;
    Ok(SettledNumbers { after, period })
}
