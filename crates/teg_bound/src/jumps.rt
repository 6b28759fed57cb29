//! The number and the period of the shortest form of a strongly connected net by jumps: rows are
//! made only near the numbers at which one circuit overtakes another.
ghost use Rattle.std.specs.Prelude.{◌≡◌, ◌+◌, ◌-◌, ◌<◌, ◌≤◌, Decides, IfOk, IfSome, IsTrue, MatchOption};
ghost use Rattle.teg_check.specs.Ranks.{IsRanking};
ghost use Rattle.teg_net.specs.Limits.{greatest_firing_number};
ghost use Rattle.teg_bound.specs.JumpedRows.{AreFirstMoved, AreMovedPast, AreNumbersMoved, IsNumberMoved};
ghost use Rattle.teg_bound.specs.PeriodicBounds.{EachReachesEach, HasPlacesAlone};
ghost use Rattle.teg_bound.specs.ReturningRows.{IsOnePart, IsShortestRepetition};

use crate::readings::most_tokens;
use crate::two_streams::{Returned, SettledNumbers, numbers_by_streams, step_between};
use own_periods::own_numbers;
use periodic_laws::live_nets_settle;
use run_rows::{RunRows, dates_by_few_rows};
use std::alloc::Global;
use teg_check::Live;
use teg_net::{Net, OutOfMemory, TransitionId};

// Up to which number runs are asked for: a century does not make so many rows.
const ASKED: u64 = 100_000_000_000_000_000;

// At which number the period is looked for.
const LAST: u64 = 50_000_000_000_000_000;

// The greatest period that is looked for there.
const MOST_PERIOD: u64 = 1_000_000;

// How many rows are made for the runs, beside one for each 32 numbers that are jumped over.
const MOST_ROWS: u64 = 8_192;

// Whether the step leads from each date of this number to that a period later.
fn is_number_moved(net: &Net, rows: &RunRows, number: u64, period: u64, step: i128) -> bool
    requires number { number ≤ greatest_firing_number }
    requires period { period ≤ greatest_firing_number }
    ensures { Decides result (IsNumberMoved net.now rows.now.runs period step number) }
{
    for index in 0..net.transitions().len() {
        let id = TransitionId {
            index: index as u32,
        };
        if step_between(rows.date(id, number), rows.date(id, number + period)) != step {
            return false;
        }
    }
    true
}

// The first of so many numbers past this one at which it does not; none, if it does at all.
fn first_apart(
    net: &Net,
    rows: &RunRows,
    from: u64,
    most: u64,
    period: u64,
    step: i128,
) -> Option<u64>
    requires last { from + most ≤ greatest_firing_number }
    requires period { period ≤ greatest_firing_number }
    ensures apart { MatchOption result (AreNumbersMoved net.now rows.now.runs period step most from)
        (λ _. AreNumbersMoved net.now rows.now.runs period step most from → ⊥) }
    ensures past { IfSome result (λ number. from < number) }
    ensures within { IfSome result (λ number. number ≤ from + most) }
{
    for number in from + 1..from + most + 1 {
        if !is_number_moved(net, rows, number, period, step) {
            return Some(number);
        }
    }
    None
}

// Such a number: the one that was apart before, if it is again, as it mostly is, or the first.
fn apart(
    net: &Net,
    rows: &RunRows,
    last: u64,
    most: u64,
    period: u64,
    step: i128,
    before: u64,
) -> Option<u64>
    requires long { most ≤ last }
    requires last { last ≤ greatest_firing_number }
    requires period { period ≤ greatest_firing_number }
    ensures { MatchOption result (AreNumbersMoved net.now rows.now.runs period step most
        (last - most))
        (λ _. AreNumbersMoved net.now rows.now.runs period step most (last - most) → ⊥) }
{
    let from = last - most;
    if before > from && before <= last && !is_number_moved(net, rows, before, period, step) {
        return Some(before);
    }
    first_apart(net, rows, from, most, period, step)
}

// The least period after which so many numbers up to the last come again, all moved by one step, if
// there is a short one.
fn period_at(net: &Net, rows: &RunRows, last: u64, most: u64) -> Option<Returned>
    requires long { most ≤ last }
    requires last { last + 1000000 ≤ greatest_firing_number }
    ensures last { IfSome result (λ found. found.last ≡ last) }
    ensures first { IfSome result (AreFirstMoved net.now rows.now.runs most) }
{
    let first = TransitionId { index: 0 };
    let mut before = last;
    for period in 1..MOST_PERIOD + 1 {
        let step = step_between(rows.date(first, last), rows.date(first, last + period));
        match apart(net, rows, last, most, period, step, before) {
            Some(number) => {
                before = number;
            }
            None => return Some(Returned { last, period, step }),
        }
    }
    None
}

// A number past which dates seem to go on so: 0, or one at which they do not, before one at which
// they do.
fn seeming_start(net: &Net, rows: &RunRows, found: Returned) -> u64
    requires last { found.last ≤ greatest_firing_number }
    requires period { found.period ≤ greatest_firing_number }
    ensures { result ≤ found.last }
{
    let mut low = 0;
    let mut high = found.last;
    'halves: while low < high {
        let middle = low + (high - low) / 2;
        if is_number_moved(net, rows, middle + 1, found.period, found.step) {
            high = middle;
        } else {
            low = middle + 1;
        }
    }
    low
}

// Whether this is no number, or one at which the step does not lead so.
fn begins_at(net: &Net, rows: &RunRows, from: u64, period: u64, step: i128) -> bool
    requires from { from ≤ greatest_firing_number }
    requires period { period ≤ greatest_firing_number }
    ensures { IsTrue result → 1 ≤ from → IsNumberMoved net.now rows.now.runs period step from → ⊥ }
{
    from == 0 || !is_number_moved(net, rows, from, period, step)
}

// The number past which dates go on so, if the search comes upon it: so many past it do, and it
// does not.
fn moved_past(net: &Net, rows: &RunRows, most: u64, found: Returned) -> Option<u64>
    requires last { found.last ≤ greatest_firing_number }
    requires most { most ≤ greatest_firing_number }
    requires period { found.period ≤ greatest_firing_number }
    ensures { IfSome result (AreMovedPast net.now rows.now.runs most found) }
{
    let (period, step) = (found.period, found.step);
    let mut from = seeming_start(net, rows, found);
    'climb: while from + most <= found.last {
        match first_apart(net, rows, from, most, period, step) {
            Some(number) => {
                from = number;
            }
            None => {
                return if begins_at(net, rows, from, period, step) {
                    Some(from)
                } else {
                    None
                };
            }
        }
    }
    None
}

// The number and the period by runs, if few rows tell them.
fn numbers_by_jumps(
    alloc: Global,
    net: &Net,
    live: &Live,
) -> Result<Option<SettledNumbers>, OutOfMemory>
    requires stands { IsRanking net.now live.now }
    requires part { IsOnePart net.now }
    ensures { IfOk result (λ found. IfSome found (IsShortestRepetition net.now)) }
{
    live_nets_settle();
    // The net keeps its rules.
    net.rules();
    let rows = match dates_by_few_rows(alloc, net, live, ASKED, MOST_ROWS)? {
        None => return Ok(None),
        Some(rows) => rows,
    };
    let most = u64::from(most_tokens(net));
    let found = match period_at(net, &rows, LAST, most) {
        None => return Ok(None),
        Some(found) => found,
    };
    match moved_past(net, &rows, most, found) {
        None => Ok(None),
        Some(after) => {
            let period = found.period;
            Ok(Some(SettledNumbers { after, period }))
        }
    }
}

// The number and the period by the own periods of the transitions, if these tell them, or else by
// two streams.
fn numbers_by_rows(alloc: Global, net: &Net, live: &Live) -> Result<SettledNumbers, OutOfMemory>
    requires stands { IsRanking net.now live.now }
    requires alone { HasPlacesAlone net.now }
    requires strong { EachReachesEach net.now }
    ensures { IfOk result (IsShortestRepetition net.now) }
{
    live_nets_settle();
    // The net keeps its rules.
    net.rules();
    match own_numbers(alloc, net, live)? {
        Some(found) => {
            let (after, period) = (found.after, found.period);
            Ok(SettledNumbers { after, period })
        }
        None => numbers_by_streams(alloc, net, live),
    }
}

/// The number and the period of the shortest settled form of a live net without inputs, in which
/// each transition reaches each (chapter 3, cyclicity), for nets that settle late. Rows are made
/// only near the numbers at which one circuit overtakes another, 8,192 at most and one for each 32
/// numbers that are jumped over, and these are kept: so where rates nearly agree it takes little
/// time however late the net settles. Where so few rows tell no form, as where periods are long, it
/// is asked of the periods of the transitions in the first 10,000 rows ([`own_periods`]). Where
/// these tell none either, no rows are kept but the last of two streams, as many of each as a place has tokens, at most 1,000,
/// in memory of 64 bytes for each of them and of the transitions. For a settling length l and
/// places of at most m tokens it then takes time of order `p log p + (l + m) (n + p)` for n
/// transitions and p places, and that of the comparisons of these rows, most of which end at the
/// first row. `OutOfMemory` comes where no memory is found, and past 10^17 rows, which no machine
/// makes.
pub fn settled_numbers(alloc: Global, net: &Net, live: &Live) -> Result<SettledNumbers, OutOfMemory>
    requires stands { IsRanking net.now live.now }
    requires alone { HasPlacesAlone net.now }
    requires strong { EachReachesEach net.now }
    ensures { IfOk result (IsShortestRepetition net.now) }
{
    match numbers_by_jumps(alloc, net, live)? {
        Some(found) => Ok(found),
        None => numbers_by_rows(alloc, net, live),
    }
}
