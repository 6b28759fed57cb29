//! Whether each place keeps its slack wherever numbers of its two ends meet, each of a period of
//! its own.
ghost use Rattle.std.specs.Prelude.{ℕ, pos, ◌≡◌, ◌+◌, ◌-ℤ◌, ◌*ℤ◌, ◌%◌, ◌^◌, ◌<◌, ◌≤◌, ◌≤ℤ◌, ◌⊎◌, All, IsTrue};
ghost use Rattle.std.specs.Int.{IsGcd};
ghost use Rattle.std.specs.Int.RustNames.{unsigned_abs};
ghost use Rattle.own_period_laws.specs.OwnPeriods.{place_worth};
ghost use Rattle.own_periods.specs.OwnRows.{IsAtPace, IsInTime, IsPace, IsPlaceIn, KeepsOwnSlack, worth_past};

use crate::own_rows::{OwnRows, Rests};
use crate::periods::{DatesOf, OwnPeriod, instant};
use teg_net::{Place, TransitionId};

// Past which number dates are worth so much.
const FIRST: u64 = 5_001;

// So many times the number.
fn times(count: u64, by: i128) -> i128
    requires count { count ≤ 10000 }
    requires by { unsigned_abs by ≤ 2 ^ 81 }
    ensures value { result ≡ pos count *ℤ by }
    ensures small { unsigned_abs result ≤ 2 ^ 96 }
{
    count as i128 * by
}

// What a date of a number is worth at the pace.
fn worth_of(pace: OwnPeriod, date: i128, number: u64) -> i128
    requires date { unsigned_abs date ≤ 2 ^ 80 }
    requires number { number ≤ 10000 }
    requires pace { IsPace pace }
    ensures value { result ≡ (pos pace.period *ℤ date) -ℤ (pos number *ℤ pace.step) }
    ensures small { unsigned_abs result ≤ 2 ^ 100 }
{
    times(pace.period, date) - times(number, pace.step)
}

// What the date of number `at` past 5,000 is worth at the pace.
fn worth_past(of: &OwnRows<'_>, transition: TransitionId, at: u64) -> i128
    requires transition { transition.index < of.now.rows.now.width }
    requires at { at < 4000 }
    ensures value { result ≡ worth_past of.now.rows.now of.now.pace transition.index at }
    ensures small { unsigned_abs result ≤ 2 ^ 100 }
{
    let number = FIRST + at;
    let dates = DatesOf {
        rows: of.rows,
        transition,
    };
    worth_of(of.pace, instant(dates, number), number)
}

// What a place adds to that.
fn place_worth(pace: OwnPeriod, place: &Place) -> i128
    requires hold { place.now.hold ≤ 1000000000 }
    requires tokens { place.now.tokens ≤ 1000 }
    requires pace { IsPace pace }
    ensures value { result ≡ place_worth pace.period pace.step place.now }
    ensures small { unsigned_abs result ≤ 2 ^ 100 }
{
    pace.period as i128 * place.hold as i128 - place.tokens as i128 * pace.step
}

// Of two numbers past 5,000 that of the date that is worth least.
fn lesser(of: &OwnRows<'_>, transition: TransitionId, a: u64, b: u64) -> u64
    requires transition { transition.index < of.now.rows.now.width }
    requires first { a < 4000 }
    requires second { b < 4000 }
    ensures first { worth_past of.now.rows.now of.now.pace transition.index result ≤ℤ worth_past
        of.now.rows.now of.now.pace transition.index a }
    ensures second { worth_past of.now.rows.now of.now.pace transition.index result ≤ℤ worth_past
        of.now.rows.now of.now.pace transition.index b }
    ensures which { (result ≡ a) ⊎ (result ≡ b) }
{
    if worth_past(of, transition, b) < worth_past(of, transition, a) {
        b
    } else {
        a
    }
}

// The number of the date of a period that is worth least, of those with this rest.
fn least_at(of: &OwnRows<'_>, transition: TransitionId, which: Rests) -> u64
    requires { transition.index < of.now.rows.now.width }
    ensures within { result < which.period }
    ensures least { (a : ℕ) → a < which.period → a % which.apart ≡ which.rest → worth_past
        of.now.rows.now of.now.pace transition.index result ≤ℤ worth_past of.now.rows.now
        of.now.pace transition.index a }
{
    let mut best = which.rest;
    let mut at = which.rest;
    'rests: while at < which.period {
        best = lesser(of, transition, best, at);
        at += which.apart;
    }
    best
}

// Of two numbers past 5,000 that of the date that is worth most.
fn greater(of: &OwnRows<'_>, transition: TransitionId, a: u64, b: u64) -> u64
    requires transition { transition.index < of.now.rows.now.width }
    requires first { a < 4000 }
    requires second { b < 4000 }
    ensures first { worth_past of.now.rows.now of.now.pace transition.index a ≤ℤ worth_past
        of.now.rows.now of.now.pace transition.index result }
    ensures second { worth_past of.now.rows.now of.now.pace transition.index b ≤ℤ worth_past
        of.now.rows.now of.now.pace transition.index result }
    ensures which { (result ≡ a) ⊎ (result ≡ b) }
{
    if worth_past(of, transition, a) < worth_past(of, transition, b) {
        b
    } else {
        a
    }
}

// The number of the date of a period that is worth most, of those with this rest.
fn greatest_at(of: &OwnRows<'_>, transition: TransitionId, which: Rests) -> u64
    requires { transition.index < of.now.rows.now.width }
    ensures within { result < which.period }
    ensures greatest { (a : ℕ) → a < which.period → a % which.apart ≡ which.rest → worth_past
        of.now.rows.now of.now.pace transition.index a ≤ℤ worth_past of.now.rows.now of.now.pace
        transition.index result }
{
    let mut best = which.rest;
    let mut at = which.rest;
    'rests: while at < which.period {
        best = greater(of, transition, best, at);
        at += which.apart;
    }
    best
}

// Whether the token of the place is there in time at two numbers that meet.
fn is_in_time(of: &OwnRows<'_>, place: &Place, a: u64, b: u64) -> bool
    requires place { IsPlaceIn of.now.rows.now place.now }
    requires ends { a < 4000 }
    requires starts { b < 4000 }
    ensures { IsTrue result → IsInTime of.now.rows.now of.now.pace place.now a b }
{
    let start = worth_past(of, place.from, b);
    let end = worth_past(of, place.to, a);
    let sum = start + place_worth(of.pace, place);
    if end < sum {
        return false;
    }
    true
}

// The greatest common divisor.
fn common_divisor(a: u64, b: u64) -> u64
    ensures { IsGcd a b result }
{
    let mut x = a;
    let mut y = b;
    while y != 0 {
        let rest = x % y;
        x = y;
        y = rest;
    }
    x
}

// Whether the place keeps its slack wherever numbers of these rests meet.
fn keeps_slack_at(of: &OwnRows<'_>, place: &Place, starts: Rests, ends: Rests) -> bool
    requires { IsPlaceIn of.now.rows.now place.now }
    ensures { IsTrue result → (a b : ℕ) → a < ends.period → b < starts.period
        → b % starts.apart ≡ starts.rest → a % ends.apart ≡ ends.rest
        → IsInTime of.now.rows.now of.now.pace place.now a b }
{
    let least = least_at(of, place.to, ends);
    let greatest = greatest_at(of, place.from, starts);
    is_in_time(of, place, least, greatest)
}

// Whether it does wherever numbers meet.
fn keeps_slack(of: &OwnRows<'_>, place: &Place) -> bool
    requires { IsPlaceIn of.now.rows.now place.now }
    ensures { IsTrue result → KeepsOwnSlack of.now.rows.now of.now.pace of.now.owns.now place.now }
{
    let starts = of.owns[place.from.index()].period;
    let ends = of.owns[place.to.index()].period;
    let apart = common_divisor(starts, ends);
    for rest in 0..apart {
        let first = Rests {
            period: starts,
            apart,
            rest,
        };
        let met = Rests {
            period: ends,
            apart,
            rest: (rest + u64::from(place.tokens)) % apart,
        };
        if !keeps_slack_at(of, place, first, met) {
            return false;
        }
    }
    true
}

// Whether each place does.
pub(crate) fn all_keep_slack(of: &OwnRows<'_>) -> bool
    ensures { IsTrue result → All (KeepsOwnSlack of.now.rows.now of.now.pace of.now.owns.now)
        of.now.net.now.places }
{
    // The net keeps its rules.
    of.net.rules();
    for place in of.net.places() {
        if !keeps_slack(of, place) {
            return false;
        }
    }
    true
}

// Whether the period goes on at the pace.
fn is_at_pace(pace: OwnPeriod, own: OwnPeriod) -> bool
    requires pace { IsPace pace }
    requires own { IsPace own }
    ensures { IsTrue result → IsAtPace pace own }
{
    pace.period as i128 * own.step == own.period as i128 * pace.step
}

// Whether each does.
pub(crate) fn have_one_pace(of: &OwnRows<'_>) -> bool
    ensures { IsTrue result → All (IsAtPace of.now.pace) of.now.owns.now }
{
    for own in of.owns {
        if !is_at_pace(of.pace, *own) {
            return false;
        }
    }
    true
}
