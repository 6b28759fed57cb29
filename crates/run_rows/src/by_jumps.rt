//! Dates by rows and jumps: rows from a number on, the turns in which they go on, and so forth.
ghost use Rattle.std.specs.Prelude.{◌≡◌, ◌<◌, ◌≤◌, IfOk, IfSome, length};
ghost use Rattle.teg_check.specs.Ranks.{IsRanking};
ghost use Rattle.teg_net.specs.Limits.{greatest_firing_number, most_rows};
ghost use Rattle.teg_model.specs.Datings.{listed_releases, system_of};
ghost use Rattle.date_rows.specs.KeptRows.{AreLeastRows};
ghost use Rattle.run_rows.specs.LeastRuns.{AreLeastRuns, IsDateOfLeast};
ghost use Rattle.run_rows.specs.Stretches.{AreReached, IsAhead};

use crate::extent::Extent;
use crate::jump::jump;
use crate::ranked::{RankedNet, most_tokens};
use crate::reached::{Reached, run_of_rows};
use crate::runs::RunRows;
use crate::stretches::next_stretch;
use date_rows::{PlaceOrder, Rows};
use dioid::Date;
use std::alloc::Global;
use teg_check::Live;
use teg_net::{Net, OutOfMemory, TransitionId};

// No more rows than so many are made from one number on: no memory holds them.
const MOST_ROWS: u64 = 20_000_000_000_000;

// How many numbers have to be jumped over for one row more.
const NUMBERS_A_ROW: u64 = 32;

// Runs up to a number and the rows past it.
#[derive(Drop)]
struct Ahead {
    reached: Reached,
    rows: Rows,
}

// How many rows may still be made, of so many, where these were made and so many numbers passed.
fn room_left(room: u64, made: u64, passed: u64) -> u64
    ensures some { 1 ≤ result }
    ensures few { result ≤ most_rows }
{
    let left = room.saturating_sub(made).min(MOST_ROWS);
    (left + passed / NUMBERS_A_ROW).min(MOST_ROWS).max(1)
}

// The dates from these runs on up to a number, by runs and by rows past the last of them: as far as
// so many rows lead, and a row more for so many numbers jumped over.
fn go_on(
    alloc: Global,
    ranked: &RankedNet<'_>,
    from: Reached,
    extent: Extent,
) -> Result<Ahead, OutOfMemory>
    requires reached { AreReached ranked.now.net.now ranked.now.most from }
    requires before { from.after ≤ extent.number }
    ensures ahead { IfOk result (IsAhead ranked.now.net.now ranked.now.most extent.number) }
    ensures all { IfOk result (λ ahead. ahead.reached.all ≡ from.all) }
{
    let order = PlaceOrder::new(alloc, ranked.net, ranked.live)?;
    let number = extent.number;
    let mut reached = from;
    let mut room = extent.room;
    while reached.after < number {
        let found = next_stretch(alloc, ranked, &order, &reached, Extent { number, room })?;
        let rows = found.rows;
        match found.jump {
            None => return Ok(Ahead { reached, rows }),
            Some(run) => {
                room = room_left(room, rows.count(), run.end() - reached.after);
                reached = reached.past(alloc, ranked, &rows, run)?;
            }
        }
    }
    let rows = Rows::new(alloc, ranked.net);
    Ok(Ahead { reached, rows })
}

impl Ahead {
    // The date of this number by the runs and the rows, if they go so far.
    fn date(&self, ranked: &RankedNet<'_>, transition: TransitionId, number: u64) -> Option<Date>
        requires ahead { IsAhead ranked.now.net.now ranked.now.most number self.now }
        requires transition { transition.index < length ranked.now.net.now.transitions }
        requires first { 1 ≤ number }
        ensures { IfSome result (IsDateOfLeast ranked.now.net.now transition.index number) }
    {
        // The net keeps its rules.
        ranked.net.rules();
        let after = self.reached.after;
        if number <= after {
            return Some(self.reached.runs.date(transition, number));
        }
        let row = number - after;
        if row <= self.rows.count() {
            return Some(self.rows.date(transition, row));
        }
        None
    }
}

/// The date, in the user's unit, of the firing of this number, from 1 to 10^18, of a transition of
/// a live net, by its least dating, with its ready dates and its input lists (chapters 2 and 3).
/// Rows are made only near the numbers at which one circuit overtakes another, each in time of
/// order `n + p` for n transitions and p places: so what it takes depends on how often that is, and
/// hardly on the number. `OutOfMemory` comes where no memory is found, and past
/// 20,000,000,000,000 rows, which no memory holds, and one more for each 32 numbers that are jumped
/// over.
pub fn date_by_jumps(
    alloc: Global,
    net: &Net,
    live: &Live,
    transition: TransitionId,
    number: u64,
) -> Result<Date, OutOfMemory>
    requires stands { IsRanking net.now live.now }
    requires transition { transition.index < length net.now.transitions }
    requires first { 1 ≤ number }
    requires last { number ≤ greatest_firing_number }
    ensures { IfOk result (IsDateOfLeast net.now transition.index number) }
{
    let most = most_tokens(net);
    let ranked = &RankedNet { net, live, most };
    let runs = RunRows::new(alloc);
    let start = Reached {
        runs,
        after: 0,
        all: false,
    };
    let room = MOST_ROWS;
    let ahead = go_on(alloc, ranked, start, Extent { number, room })?;
    match ahead.date(ranked, transition, number) {
        Some(date) => Ok(date),
        None => Err(OutOfMemory),
    }
}

/// The same by jumps from these rows of the least dating on, if their last ones move by turns. So
/// many rows more are made at most, and one for each 32 numbers that are jumped over; where they do
/// not lead to the number there is no date, as where the rows do not jump: then the settled form is
/// to be asked.
pub fn date_past_rows(
    alloc: Global,
    net: &Net,
    live: &Live,
    rows: &Rows,
    transition: TransitionId,
    number: u64,
) -> Result<Option<Date>, OutOfMemory>
    requires stands { IsRanking net.now live.now }
    requires rows { AreLeastRows net.now (system_of net.now (listed_releases net.now)) rows.now }
    requires some { 1 ≤ rows.now.count }
    requires past { rows.now.count < number }
    requires transition { transition.index < length net.now.transitions }
    requires last { number ≤ greatest_firing_number }
    ensures { IfOk result (λ date. IfSome date (IsDateOfLeast net.now transition.index number)) }
{
    // The net keeps its rules.
    net.rules();
    let most = most_tokens(net);
    let ranked = &RankedNet { net, live, most };
    match jump(alloc, ranked, rows, 0, number)? {
        None => Ok(None),
        Some(run) => {
            let room = rows.count();
            let runs = RunRows::new(alloc);
            let start = Reached {
                runs,
                after: 0,
                all: false,
            };
            let reached = start.past(alloc, ranked, rows, run)?;
            let ahead = go_on(alloc, ranked, reached, Extent { number, room })?;
            Ok(ahead.date(ranked, transition, number))
        }
    }
}

/// The dates of all firings up to this number, at most 10^18, of a live net, by its least dating,
/// with its ready dates and its input lists (chapters 2 and 3), as rows and runs, which are kept.
/// What it takes else, and what it refuses, is as for [`date_by_jumps`].
pub fn dates_by_jumps(
    alloc: Global,
    net: &Net,
    live: &Live,
    number: u64,
) -> Result<RunRows, OutOfMemory>
    requires stands { IsRanking net.now live.now }
    requires last { number ≤ greatest_firing_number }
    ensures { IfOk result (λ rows. AreLeastRuns net.now number rows.runs) }
{
    match dates_by_few_rows(alloc, net, live, number, MOST_ROWS)? {
        Some(rows) => Ok(rows),
        None => Err(OutOfMemory),
    }
}

/// The same by so many rows at most, and one more for each 32 numbers that are jumped over; where
/// these do not lead to the number there are no dates. `OutOfMemory` comes only where no memory is
/// found.
pub fn dates_by_few_rows(
    alloc: Global,
    net: &Net,
    live: &Live,
    number: u64,
    rows: u64,
) -> Result<Option<RunRows>, OutOfMemory>
    requires stands { IsRanking net.now live.now }
    requires last { number ≤ greatest_firing_number }
    requires some { 1 ≤ rows }
    requires few { rows ≤ most_rows }
    ensures { IfOk result (λ rows. IfSome rows (λ rows. AreLeastRuns net.now number rows.runs)) }
{
    let most = most_tokens(net);
    let ranked = &RankedNet { net, live, most };
    let runs = RunRows::new(alloc);
    let start = Reached {
        runs,
        after: 0,
        all: true,
    };
    let room = rows;
    let ahead = go_on(alloc, ranked, start, Extent { number, room })?;
    let reached = ahead.reached;
    if number <= reached.after {
        return Ok(Some(reached.runs));
    }
    if ahead.rows.count() < number - reached.after {
        return Ok(None);
    }
    let made = run_of_rows(alloc, net, &ahead.rows, reached.after)?;
    Ok(Some(reached.runs.with(made)?))
}
