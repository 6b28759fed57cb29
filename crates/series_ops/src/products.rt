//! The product of two series.
ghost use Rattle.std.specs.Prelude.{◌≡◌, ◌≤◌, ◌<◌, ◌+◌, ◌-◌, ◌*◌, IfOk, pos, ◌<ℤ◌, ◌-ℤ◌};
ghost use Rattle.std.specs.Int.RustNames.{unsigned_abs};
ghost use Rattle.dioid.specs.declared.dates.Date.TheVariants.{Early, Never};
ghost use Rattle.series_laws.specs.declared.plans.Slopes.TheVariants.{First};
ghost use Rattle.series_laws.specs.Periodic.{times};
ghost use Rattle.series_laws.specs.SeriesForms.{size_of, repeat_start, value_at, table, HasValues};
ghost use Rattle.series_form.specs.NumberBounds.{IsSeries};
ghost use Rattle.series_form.specs.SeriesAnswers.{AnswersOf, AnswersForm};
ghost use Rattle.series_laws.specs.Needs.{plan, need_of, period_with, rise_of, fall_of, tail_of, slopes_of};
ghost use Rattle.series_laws.specs.Product.{product_at};
ghost use Rattle.series_laws.specs.ProductNeeds.{lifts_of, waits_of, product_first, product_plan, form_product};
ghost use Rattle.series_form.specs.SeriesLimits.{most_covering_shifts, greatest_value, greatest_moderate, greatest_reach, most_waits};

use crate::cells::collected;
use crate::core_sums::CoreSums;
use crate::tables::{ended, first_values};
use dioid::Date;
use series_form::{
    NeedPlan, Series, SeriesRefused, Slopes, common_period, compare_slopes, gain_over, gains_for,
    lead_gain, start, tail,
};
use std::alloc::{AllocError, Global};

// The common periods that cover the list of the first series.
fn lifts(first: &Series, second: &Series) -> usize
    ensures value { result ≡ lifts_of first.now second.now }
    ensures bound { result ≤ 20000 }
    ensures covers { result * period_with first.now second.now ≤ most_covering_shifts }
{
    let shifts = common_period(first, second);
    (first.values().len() + (shifts - 1)) / shifts
}

// What the second series gains on the lifts.
fn gain_on_lifts(first: &Series, second: &Series) -> i128
    ensures value { result ≡ times (lifts_of first.now second.now) (fall_of first.now second.now) }
    ensures bound { unsigned_abs result ≤ greatest_moderate }
{
    let lifts = lifts(first, second);
    let gain = gain_over(second, common_period(first, second));
    lifts as i128 * gain
}

// The common periods after which the first series, of the greater slope, has gained what the
// second gains on them and on the lifts.
fn waits(first: &Series, second: &Series) -> u128
    requires { pos 0 <ℤ (rise_of first.now second.now -ℤ fall_of first.now second.now) }
    ensures value { result ≡ waits_of first.now second.now }
    ensures bound { result ≤ most_waits }
{
    gains_for(gain_on_lifts(first, second), lead_gain(first, second))
}

// The shifts that the first list, those of the second before its period, and the lifts take.
fn lifted(first: &Series, second: &Series) -> u128
    ensures value { result ≡ size_of first.now + repeat_start second.now
        + lifts_of first.now second.now * period_with first.now second.now }
    ensures bound { result ≤ greatest_value }
{
    let begun = (first.values().len() + start(second)) as u128;
    let covers = lifts(first, second) * common_period(first, second);
    begun + covers as u128
}

// From where the product of two series whose tails are numbers repeats, the first slope greater.
fn plan_past_waits(first: &Series, second: &Series) -> NeedPlan
    requires { pos 0 <ℤ (rise_of first.now second.now -ℤ fall_of first.now second.now) }
    ensures value { result ≡ plan (size_of first.now + repeat_start second.now
        + (lifts_of first.now second.now * period_with first.now second.now
        + waits_of first.now second.now * period_with first.now second.now)) first.now.period }
    ensures bound { result.from ≤ greatest_reach }
{
    let waited = waits(first, second) * common_period(first, second) as u128;
    NeedPlan {
        from: lifted(first, second) + waited,
        turn: first.period(),
    }
}

// From where the product repeats where the first slope is greater and the second tail not Early.
fn plan_of_steeper(first: &Series, second: &Series) -> NeedPlan
    requires slopes { slopes_of first.now second.now ≡ First }
    requires tail { tail_of second.now ≡ Early → ⊥ }
    ensures value { result ≡ product_first first.now second.now }
    ensures bound { result.from ≤ greatest_reach }
{
    match tail(second) {
        Date::At(_) => match tail(first) {
            Date::At(_) => plan_past_waits(first, second),
            Date::Never => NeedPlan {
                from: lifted(first, second),
                turn: 1,
            },
            Date::Early => NeedPlan { from: 0, turn: 1 },
        },
        _ => NeedPlan { from: 0, turn: 1 },
    }
}

// From where the product repeats, and by how many shifts.
fn plan_of_product(first: &Series, second: &Series) -> NeedPlan
    ensures value { result ≡ product_plan first.now second.now }
    ensures bound { result.from ≤ greatest_reach }
    ensures left { IsSeries first.now }
    ensures right { IsSeries second.now }
{
    match (tail(first), tail(second)) {
        (Date::Early, _) | (_, Date::Early) => NeedPlan { from: 0, turn: 1 },
        _ => match compare_slopes(first, second) {
            Slopes::Equal => {
                let shifts = common_period(first, second);
                NeedPlan {
                    from: (start(first) + start(second) + shifts) as u128,
                    turn: shifts,
                }
            }
            Slopes::First => plan_of_steeper(first, second),
            Slopes::Second => plan_of_steeper(second, first),
        },
    }
}

// The first values of the product, by the core of the first series. The work is their number times
// the places of that core, or its jumps where these are few.
fn values_by_first(
    alloc: Global,
    first: &Series,
    second: &Series,
    count: usize,
) -> Result<Vec<Date>, AllocError>
    requires { count ≤ 20001 }
    ensures { IfOk result (λ values. values.items ≡ table
        (product_at (value_at first.now) (value_at second.now)) count) }
{
    let values = first_values(alloc, second, count)?;
    let seconds = collected(alloc, values.as_slice())?;
    let sums = CoreSums::new(alloc, first, seconds)?;
    sums.values(alloc, count)
}

// The first values of the product, by the shorter list.
pub(crate) fn product_values(
    alloc: Global,
    first: &Series,
    second: &Series,
    count: usize,
) -> Result<Vec<Date>, AllocError>
    requires { count ≤ 20001 }
    ensures { IfOk result (λ values. values.items ≡ table
        (product_at (value_at first.now) (value_at second.now)) count) }
{
    if second.values().len() < first.values().len() {
        values_by_first(alloc, second, first, count)
    } else {
        values_by_first(alloc, first, second, count)
    }
}

/// The product of two series (chapter 5): at each shift k the greatest sum of a value of the first
/// at i and one of the second at k - i. TooLong exactly where its need exceeds 20,000; where not,
/// TooGreat exactly where a number of the result has a magnitude above 10^18. `OutOfMemory` comes
/// only where no memory is found. It takes time of the order of the need times the length of the
/// shorter list at most, and less where that list goes on by equal steps in few pieces, seldom
/// rises, or rises by a gain in so many shifts everywhere and by more at few places.
pub fn product(alloc: Global, first: &Series, second: &Series) -> Result<Series, SeriesRefused>
    ensures answer { AnswersOf (λ r. HasValues r (product_at (value_at first.now)
        (value_at second.now))) (need_of (product_plan first.now second.now))
        (need_of (product_plan first.now second.now)) result }
    ensures model { AnswersForm (need_of (product_plan first.now second.now))
        (form_product first.now second.now) result }
    ensures left { IsSeries first.now }
    ensures right { IsSeries second.now }
{
    let plan = plan_of_product(first, second);
    let need = plan.from + plan.turn as u128;
    if need > 20_000 {
        return Err(SeriesRefused::TooLong { need });
    }
    match product_values(alloc, first, second, need as usize + 1) {
        Ok(values) => ended(values, plan.turn),
        Err(_) => Err(SeriesRefused::OutOfMemory),
    }
}
