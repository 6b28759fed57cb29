//! Whether rows tell the shortest settled form of the least dating of a live net (chapter 3).
ghost use Rattle.std.specs.Prelude.{ℤ, ◌%◌, ◌+◌, ◌≡◌, ◌≤◌, ◌<◌, ◌↔◌, All, IfOk, IsTrue, length};
ghost use Rattle.dioid.specs.Dates.{move};
ghost use Rattle.teg_net.specs.Circuits.{IsLive};
ghost use Rattle.teg_model.specs.DateBounds.{IsDateWithin, greatest_least_date};
ghost use Rattle.settled_laws.specs.SettledForms.{IsSettledFormOf};
ghost use Rattle.settled_certificates.specs.SettledRows.{SettlesAs, form_by_rows};
ghost use Rattle.settled_certificates.specs.ShortestRows.{AreShortestRows, GoOnBy, IsLeastNumber, IsLeastPeriod, MovesBy};
ghost use Rattle.settled_certificates.specs.StepsLeft.{IsLeft};
ghost use Rattle.settled_certificates.specs.ToldForms.{step_told};
ghost use Rattle.dating_certificates.specs.ToldRows.{date_told};

use crate::settled::check_settled;
use crate::told_form::FormTest;
use dating_certificates::{ToldRows, rows_of};
use dioid::Date;
use std::alloc::Global;
use teg_net::{Net, OutOfMemory};

// The steps by which dates may move: any, one, or none.
#[derive(Clone, Copy)]
enum StepsLeft {
    Any,
    One(i128),
    Nothing,
}

// The steps that lead from the first date to the second.
fn steps_between(date: Date, other: Date) -> StepsLeft
    requires date { IsDateWithin greatest_least_date date }
    requires other { IsDateWithin greatest_least_date other }
    ensures { (step : ℤ) → (IsLeft result step ↔ (other ≡ move step date)) }
{
    match (date, other) {
        (Date::Early, Date::Early) | (Date::Never, Date::Never) => StepsLeft::Any,
        (Date::At(first), Date::At(second)) => StepsLeft::One(second - first),
        _ => StepsLeft::Nothing,
    }
}

// The steps that are left by both.
fn left_by_both(left: StepsLeft, other: StepsLeft) -> StepsLeft
    ensures { (step : ℤ) → (IsLeft result step ↔ (IsLeft left step × IsLeft other step)) }
{
    match (left, other) {
        (StepsLeft::Any, _) => other,
        (_, StepsLeft::Any) => left,
        (StepsLeft::One(first), StepsLeft::One(second)) => {
            if first == second {
                left
            } else {
                StepsLeft::Nothing
            }
        }
        _ => StepsLeft::Nothing,
    }
}

// Whether a step is left.
fn has_step(left: StepsLeft) -> bool
    ensures { IsTrue result ↔ ((step : ℤ) × IsLeft left step) }
{
    match left {
        StepsLeft::Any => true,
        StepsLeft::One(_) => true,
        StepsLeft::Nothing => false,
    }
}

// A number, and a period past it.
#[derive(Clone, Copy)]
struct Span {
    after: u64,
    period: u64,
}

// The steps by which the dates of the transition move in so many numbers, in the period.
fn steps_of_row(told: &ToldRows<'_>, span: Span, transition: usize, by: u64) -> StepsLeft
    requires transition { transition < length told.now.net.transitions }
    requires room { span.after + span.period + by ≤ told.now.numbers }
    requires few { told.now.numbers ≤ 100000000000000000 }
    requires within { All (IsDateWithin greatest_least_date) told.now.dates }
    ensures { (step : ℤ) → (IsLeft result step ↔ MovesBy (date_told told.now transition)
        span.after span.period by step) }
{
    let mut left = StepsLeft::Any;
    for number in span.after + 1..span.after + span.period + 1 {
        let late = told.date(transition, number + by);
        left = left_by_both(left, steps_between(told.date(transition, number), late));
    }
    left
}

// Whether the dates of each transition move so by some step.
fn go_on_by(told: &ToldRows<'_>, span: Span, by: u64) -> bool
    requires room { span.after + span.period + by ≤ told.now.numbers }
    requires few { told.now.numbers ≤ 100000000000000000 }
    requires within { All (IsDateWithin greatest_least_date) told.now.dates }
    ensures { IsTrue result ↔ GoOnBy (length told.now.net.transitions) (date_told told.now)
        span.after span.period by }
{
    for index in 0..told.width() {
        if !has_step(steps_of_row(told, span, index, by)) {
            return false;
        }
    }
    true
}

// Whether the number divides the period, and the dates go on by it.
fn divides_and_goes_on(told: &ToldRows<'_>, span: Span, by: u64) -> bool
    requires some { 1 ≤ by }
    requires room { span.after + span.period + by ≤ told.now.numbers }
    requires few { told.now.numbers ≤ 100000000000000000 }
    requires within { All (IsDateWithin greatest_least_date) told.now.dates }
    ensures { IsTrue result ↔ ((span.period % by ≡ 0) × GoOnBy
        (length told.now.net.transitions) (date_told told.now) span.after span.period by) }
{
    span.period % by == 0 && go_on_by(told, span, by)
}

// Whether by no smaller number that divides the period the dates go on.
fn is_least_period(told: &ToldRows<'_>, span: Span) -> bool
    requires room { span.after + span.period + span.period ≤ told.now.numbers }
    requires few { told.now.numbers ≤ 100000000000000000 }
    requires within { All (IsDateWithin greatest_least_date) told.now.dates }
    ensures { IsTrue result ↔ IsLeastPeriod (length told.now.net.transitions) (date_told told.now)
        span.after span.period }
{
    for by in 1..span.period {
        if divides_and_goes_on(told, span, by) {
            return false;
        }
    }
    true
}

// Whether the number is 0, or the dates at it do not go on by the steps.
fn is_least_number(test: &FormTest<'_>) -> bool
    ensures { IsTrue result ↔ IsLeastNumber (length test.now.told.net.transitions)
        (date_told test.now.told) test.now.after test.now.period (step_told test.now) }
{
    let (after, _) = test.numbers();
    after == 0 || !test.moves_at(after)
}

// Whether neither the number nor the period can be less.
fn is_shortest(told: &ToldRows<'_>, test: &FormTest<'_>, span: Span) -> bool
    requires room { span.after + span.period + span.period ≤ told.now.numbers }
    requires few { told.now.numbers ≤ 100000000000000000 }
    requires within { All (IsDateWithin greatest_least_date) told.now.dates }
    ensures { IsTrue result ↔ (IsLeastNumber (length test.now.told.net.transitions)
        (date_told test.now.told) test.now.after test.now.period (step_told test.now)
        × IsLeastPeriod (length told.now.net.transitions) (date_told told.now) span.after
        span.period) }
{
    is_least_number(test) && is_least_period(told, span)
}

/// Whether the dates, in the user's unit, are rows that show how the least dating of the net goes on,
/// as [`check_settled`] tells, and neither the number nor the period can be less (chapter 3): the
/// number is 0, or the row at it does not go on by the steps; and by no smaller number that divides
/// the period do the dates of each transition move by a step of its own, in the first period past
/// the number.
///
/// It says yes just where all this is so (`exact`). In a live net, where it says yes, the form that
/// the rows tell stands for the least dating, as there (`settled`), and it is the settled form of the
/// net (`shortest`): its number and its period are the least of all by which the least dating goes
/// on. It takes memory for one row, and time of order `n + p` a
/// row for n transitions and p places, of the length of the input lists, and for each number that
/// divides the period of order `n` a row of one period.
pub fn check_shortest(
    alloc: Global,
    net: &Net,
    after: u64,
    period: u64,
    dates: &[Date],
    steps: &[i128],
) -> Result<bool, OutOfMemory>
    ensures exact { IfOk result (λ yes. IsTrue yes ↔ AreShortestRows net.now after period dates.now
        steps.now) }
    ensures settled { IsLive net.now → IfOk result (λ yes. IsTrue yes → SettlesAs net.now after
        period dates.now steps.now) }
    ensures shortest { IsLive net.now → IfOk result (λ yes. IsTrue yes → IsSettledFormOf net.now
        (form_by_rows (length net.now.transitions) dates.now after period steps.now)) }
{
    net.rules();
    if !check_settled(alloc, net, after, period, dates, steps)? {
        return Ok(false);
    }
    let Some(rows) = rows_of(net, dates) else {
        return Ok(false);
    };
    let told = ToldRows::new(net, rows, dates);
    let test = FormTest::new(&told, after, period, steps);
    let span = Span { after, period };
    Ok(is_shortest(&told, &test, span))
}
