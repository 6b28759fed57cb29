//! The number and the period of the shortest form of a net whose transitions go on by periods of
//! their own: the period is their least common multiple, however long that is.
ghost use Rattle.std.specs.Prelude.{ℕ, ◌≡◌, ◌+◌, ◌<◌, ◌≤◌, ◌⊎◌, IfOk, IfSome, IsTrue, length};
ghost use Rattle.teg_check.specs.Ranks.{IsRanking};
ghost use Rattle.teg_net.specs.Nets.{IsInput};
ghost use Rattle.date_rows.specs.DateTables.{HasLeastDates};
ghost use Rattle.own_period_laws.specs.OwnForms.{IsLeastCommon};
ghost use Rattle.own_periods.specs.OwnNumbers.{AreLeastNumbers};
ghost use Rattle.own_periods.specs.OwnRows.{GoOnInRows, IsLatestStart, IsLeastMultiple, IsOwn, IsStart, period_in};

use crate::meets::all_met;
use crate::own_rows::OwnRows;
use crate::periods::{DatesOf, OwnPeriod, is_moved, own_periods};
use crate::slack::{all_keep_slack, have_one_pace};
use date_rows::first_dates;
use std::alloc::{AllocError, Global};
use teg_check::Live;
use teg_net::{Net, OutOfMemory, TransitionId};

// How many rows are made.
const ROWS: u32 = 10_000;

// Past which number dates come again.
const FROM: u64 = 4_000;

/// From when on the dates of a net are periodic: the number and the period of its least dating's
/// shortest form.
#[derive(Clone, Copy, Debug, Drop)]
pub struct OwnNumbers {
    /// The number past which the dates go on by steps, 0 or more.
    pub after: u64,
    /// In how many numbers they do, at least 1.
    pub period: u64,
}

// The least number past which the dates of the transition go on by its period.
fn own_start(of: DatesOf<'_>, own: OwnPeriod) -> u64
    requires { IsOwn of.rows.now of.transition.index own }
    ensures { IsStart of.entry.rows.now of.entry.transition.index own result }
{
    let mut after = 0;
    for number in 1..FROM + 1 {
        if !is_moved(of, number, own) {
            after = number;
        }
    }
    after
}

// The later of two numbers.
fn later(a: u64, b: u64) -> u64
    ensures first { a ≤ result }
    ensures second { b ≤ result }
    ensures which { (result ≡ a) ⊎ (result ≡ b) }
{
    if a < b { b } else { a }
}

// The least past which those of all do.
fn latest_start(of: &OwnRows<'_>) -> u64
    ensures { IsLatestStart of.now.rows.now of.now.owns.now (length of.now.owns.now) result }
{
    // The table keeps its limits.
    let _count = of.rows.count();
    let mut after = 0;
    for index in 0..of.owns.len() {
        let dates = DatesOf {
            rows: of.rows,
            transition: TransitionId {
                index: index as u32,
            },
        };
        after = later(after, own_start(dates, of.owns[index]));
    }
    after
}

// The least common multiple of two numbers, if it is below 2^64.
fn least_multiple(a: u64, b: u64) -> Option<u64>
    requires first { 1 ≤ a }
    requires second { 1 ≤ b }
    ensures { IfSome result (IsLeastMultiple a b) }
{
    let mut whole = a;
    'multiples: for times in 0..b {
        if whole % b == 0 {
            return Some(whole);
        }
        whole = whole.checked_add(a)?;
    }
    None
}

// That of all periods.
fn whole_period(of: &OwnRows<'_>) -> Option<u64>
    ensures { IfSome result (IsLeastCommon (length of.now.owns.now) (period_in of.now.owns.now)) }
{
    let mut whole = 1;
    for own in of.owns {
        whole = least_multiple(whole, own.period)?;
    }
    Some(whole)
}

// Whether the rows tell that all transitions go on by their periods.
fn go_on(alloc: Global, of: &OwnRows<'_>) -> Result<bool, AllocError>
    ensures { IfOk result (λ go. IsTrue go
        → GoOnInRows of.now.net.now of.now.rows.now of.now.pace of.now.owns.now) }
{
    if !have_one_pace(of) {
        return Ok(false);
    }
    if !all_keep_slack(of) {
        return Ok(false);
    }
    let met = all_met(alloc, of)?;
    Ok(met)
}

// The number and the period, if the rows and the periods of the transitions tell them.
fn told_numbers(
    alloc: Global,
    of: &OwnRows<'_>,
    _live: &Live,
) -> Result<Option<OwnNumbers>, OutOfMemory>
    requires stands { IsRanking of.now.net.now _live.now }
    requires alone { (t : ℕ) → IsInput of.now.net.now t → ⊥ }
    requires least { HasLeastDates of.now.net.now of.now.rows.now }
    ensures { IfOk result (λ found. IfSome found (AreLeastNumbers of.now.net.now)) }
{
    // The net keeps its rules.
    of.net.rules();
    let go = go_on(alloc, of)?;
    if !go {
        return Ok(None);
    }
    match whole_period(of) {
        None => Ok(None),
        Some(period) => {
            let after = latest_start(of);
            Ok(Some(OwnNumbers { after, period }))
        }
    }
}

/// The number and the period of the shortest settled form of a live net without inputs that has a
/// transition (chapter 3, cyclicity), if its first 10,000 rows tell it: each transition goes on
/// from number 4,000 at the latest by a period of at most 4,000 of its own, and the period of the
/// net is their least common multiple, below 2^64. `None` says nothing. It takes memory for the
/// rows, 32 MB for 400 transitions, and time of order `r (n + p)` for r rows, n transitions and p
/// places; where a transition has many places, a firing is asked of those that lead on by its
/// period. `OutOfMemory` comes only where no memory is found.
pub fn own_numbers(alloc: Global, net: &Net, live: &Live) -> Result<Option<OwnNumbers>, OutOfMemory>
    requires stands { IsRanking net.now live.now }
    requires alone { (t : ℕ) → IsInput net.now t → ⊥ }
    requires some { 0 < length net.now.transitions }
    ensures { IfOk result (λ found. IfSome found (AreLeastNumbers net.now)) }
{
    // The net keeps its rules.
    net.rules();
    let rows = first_dates(alloc, net, live, ROWS)?;
    match own_periods(alloc, &rows)? {
        None => Ok(None),
        Some(owns) => {
            let owns = owns.as_slice();
            let of = OwnRows {
                net,
                rows: &rows,
                owns,
                pace: owns[0],
            };
            told_numbers(alloc, &of, live)
        }
    }
}
