//! The sum and the minimum of two series, shift by shift.
ghost use Rattle.std.specs.Prelude.{◌≡◌, ◌≤◌, ◌<◌, ◌*◌, ◌-ℤ◌, ◌<ℤ◌, IfOk};
ghost use Rattle.series_laws.specs.declared.plans.Slopes.TheVariants.{First};
ghost use Rattle.series_laws.specs.SeriesForms.{value_at, table, HasValues};
ghost use Rattle.series_form.specs.NumberBounds.{IsSeries};
ghost use Rattle.series_form.specs.SeriesAnswers.{AnswersOf, AnswersForm};
ghost use Rattle.series_form.specs.Leads.{IsGaining};
ghost use Rattle.series_laws.specs.Pointwise.{sum_at, least_at};
ghost use Rattle.series_laws.specs.Needs.{need_of, crossing, slopes_of, periods_behind, period_with, sum_plan, least_plan, form_sum, form_least};
ghost use Rattle.series_form.specs.SeriesLimits.{greatest_reach, greatest_height};

use crate::forms::{Series, SeriesRefused, shortest};
use crate::leads::greatest_lead;
use crate::plans::{common_period, common_start, compare_slopes, gains_for, lead_gain, tail};
use dioid::Date;
use series_laws::{NeedPlan, Slopes};
use std::alloc::{AllocError, Global};

// From where the first series, of the greater slope, has the greater values: past the starts of
// both, the common periods in which it makes up the greatest lead of the other.
fn crossing_of(first: &Series, second: &Series) -> u128
    requires { slopes_of first.now second.now ≡ First }
    ensures value { result ≡ crossing first.now second.now }
    ensures bound { result ≤ greatest_reach }
{
    let from = common_start(first, second);
    match (tail(first), tail(second)) {
        (Date::At(_), Date::At(_)) => from as u128 + shifts_behind(first, second),
        _ => from as u128,
    }
}

// The shifts in which the first series makes up the greatest lead of the second.
fn shifts_behind(first: &Series, second: &Series) -> u128
    requires { IsGaining first.now second.now }
    ensures value { result ≡ periods_behind first.now second.now * period_with first.now
        second.now }
    ensures bound { result ≤ greatest_height }
{
    let shifts = common_period(first, second);
    let lead = greatest_lead(first, second);
    let periods = gains_for(lead, lead_gain(first, second));
    periods * shifts as u128
}

/// From where the sum repeats: with equal slopes past both starts by the common period, else past
/// the crossing by the period of the greater slope. Its need is `from + turn`, in shifts. Takes no
/// memory, and time of the order of the two periods. For the operations of `series_ops`.
pub fn plan_of_sum(first: &Series, second: &Series) -> NeedPlan
    ensures value { result ≡ sum_plan first.now second.now }
    ensures bound { result.from ≤ greatest_reach }
    ensures left { IsSeries first.now }
    ensures right { IsSeries second.now }
{
    match compare_slopes(first, second) {
        Slopes::Equal => NeedPlan {
            from: common_start(first, second) as u128,
            turn: common_period(first, second),
        },
        Slopes::First => NeedPlan {
            from: crossing_of(first, second),
            turn: first.period(),
        },
        Slopes::Second => NeedPlan {
            from: crossing_of(second, first),
            turn: second.period(),
        },
    }
}

// From where the minimum repeats: as the sum, but by the period of the lesser slope.
fn plan_of_least(first: &Series, second: &Series) -> NeedPlan
    ensures value { result ≡ least_plan first.now second.now }
    ensures bound { result.from ≤ greatest_reach }
    ensures left { IsSeries first.now }
    ensures right { IsSeries second.now }
{
    match compare_slopes(first, second) {
        Slopes::Equal => NeedPlan {
            from: common_start(first, second) as u128,
            turn: common_period(first, second),
        },
        Slopes::First => NeedPlan {
            from: crossing_of(first, second),
            turn: second.period(),
        },
        Slopes::Second => NeedPlan {
            from: crossing_of(second, first),
            turn: first.period(),
        },
    }
}

/// The greater value at a shift of at most 20,000. Takes no memory. For the operations of
/// `series_ops`.
pub fn later_at(first: &Series, second: &Series, shift: usize) -> Date
    requires { shift ≤ 20000 }
    ensures { result ≡ sum_at (value_at first.now) (value_at second.now) shift }
{
    first.at(shift as u64).later(second.at(shift as u64))
}

// The lesser value at a shift.
fn earlier_at(first: &Series, second: &Series, shift: usize) -> Date
    requires { shift ≤ 20000 }
    ensures { result ≡ least_at (value_at first.now) (value_at second.now) shift }
{
    first.at(shift as u64).earlier(second.at(shift as u64))
}

/// The first `count` values of the sum, at most 20,000, at the shifts 0, 1, .. Refuses for want of
/// memory alone. For the operations of `series_ops`.
pub fn sum_values(
    alloc: Global,
    first: &Series,
    second: &Series,
    count: usize,
) -> Result<Vec<Date>, AllocError>
    requires { count ≤ 20000 }
    ensures { IfOk result (λ values. values.items ≡ table
        (sum_at (value_at first.now) (value_at second.now)) count) }
{
    let mut values = Vec::new(alloc);
    for shift in 0..count {
        values.push(later_at(first, second, shift))?;
    }
    Ok(values)
}

// The first values of the minimum.
fn least_values(
    alloc: Global,
    first: &Series,
    second: &Series,
    count: usize,
) -> Result<Vec<Date>, AllocError>
    requires { count ≤ 20000 }
    ensures { IfOk result (λ values. values.items ≡ table
        (least_at (value_at first.now) (value_at second.now)) count) }
{
    let mut values = Vec::new(alloc);
    for shift in 0..count {
        values.push(earlier_at(first, second, shift))?;
    }
    Ok(values)
}

/// The pointwise greater of two series (chapter 5). TooLong exactly where its need exceeds 20,000:
/// with equal slopes the later start and the common period; with one slope greater and both tails
/// numbers the crossing and the period of that series; else the later start and the period of the
/// greater slope. Where not, TooGreat exactly where a number of the result has a magnitude above
/// 10^18. `OutOfMemory` comes only where no memory is found. It takes time of the order of the need
/// and of the two periods.
pub fn sum(alloc: Global, first: &Series, second: &Series) -> Result<Series, SeriesRefused>
    ensures answer { AnswersOf (λ r. HasValues r (sum_at (value_at first.now)
        (value_at second.now))) (need_of (sum_plan first.now second.now))
        (need_of (sum_plan first.now second.now)) result }
    ensures model { AnswersForm (need_of (sum_plan first.now second.now))
        (form_sum first.now second.now) result }
    ensures left { IsSeries first.now }
    ensures right { IsSeries second.now }
{
    let plan = plan_of_sum(first, second);
    let need = plan.from + plan.turn as u128;
    if need > 20_000 {
        return Err(SeriesRefused::TooLong { need });
    }
    match sum_values(alloc, first, second, need as usize) {
        Ok(values) => shortest(values, plan.turn, later_at(first, second, need as usize)),
        Err(_) => Err(SeriesRefused::OutOfMemory),
    }
}

/// The pointwise lesser of two series (chapter 5). TooLong exactly where its need exceeds 20,000:
/// as for the sum, with the period of the lesser slope. Where not, TooGreat exactly where a number
/// of the result has a magnitude above 10^18. `OutOfMemory` comes only where no memory is found. It
/// takes time of the order of the need and of the two periods.
pub fn least(alloc: Global, first: &Series, second: &Series) -> Result<Series, SeriesRefused>
    ensures answer { AnswersOf (λ r. HasValues r (least_at (value_at first.now)
        (value_at second.now))) (need_of (least_plan first.now second.now))
        (need_of (least_plan first.now second.now)) result }
    ensures model { AnswersForm (need_of (least_plan first.now second.now))
        (form_least first.now second.now) result }
    ensures left { IsSeries first.now }
    ensures right { IsSeries second.now }
{
    let plan = plan_of_least(first, second);
    let need = plan.from + plan.turn as u128;
    if need > 20_000 {
        return Err(SeriesRefused::TooLong { need });
    }
    match least_values(alloc, first, second, need as usize) {
        Ok(values) => shortest(values, plan.turn, earlier_at(first, second, need as usize)),
        Err(_) => Err(SeriesRefused::OutOfMemory),
    }
}
