//! The residual of one series by another.
ghost use Rattle.std.specs.Prelude.{◌≡◌, ◌≤◌, ◌<◌, ◌+◌, ◌-◌, ℕ, IfOk, length};
ghost use Rattle.dioid.specs.declared.dates.Date.TheVariants.{Early};
ghost use Rattle.dioid.specs.Dates.{date_left};
ghost use Rattle.series_laws.specs.declared.plans.Slopes.TheVariants.{First};
ghost use Rattle.series_laws.specs.SeriesForms.{size_of, value_at, table};
ghost use Rattle.series_form.specs.NumberBounds.{IsMagnitudeUpTo, IsSeries};
ghost use Rattle.series_form.specs.SeriesAnswers.{AnswersOf, AnswersForm};
ghost use Rattle.series_laws.specs.Needs.{need_of};
ghost use Rattle.series_laws.specs.Residual.{IsLeftAt};
ghost use Rattle.series_laws.specs.ProductNeeds.{offsets_of, left_over, OffsetsDecide, residual_at, long_left, short_left, left_plan, form_left};
ghost use Rattle.series_form.specs.SeriesLimits.{most_covering_shifts, greatest_listed};
ghost use Rattle.series_ops.specs.LeftPlans.{divided_forms};

use crate::cells::{conjugate, conjugates_back};
use crate::core_sums::CoreSums;
use crate::tables::{ended, first_values, repeated};
use dioid::Date;
use series_form::{
    NeedPlan, Series, SeriesRefused, Slopes, common_period, common_start, compare_slopes, start,
    tail,
};
use std::alloc::{AllocError, Global};
use std::marker::Model;

// The offsets that decide a residual.
fn offsets(first: &Series, second: &Series) -> usize
    ensures value { result ≡ offsets_of first.now second.now }
    ensures bound { result ≤ most_covering_shifts }
{
    common_start(first, second) + common_period(first, second)
}

// The plan where the offsets decide how long the list is.
fn plan_by_offsets(first: &Series, second: &Series) -> NeedPlan
    ensures value { result ≡ long_left first.now second.now }
    ensures bound { result.from ≤ most_covering_shifts }
{
    let offsets = offsets(first, second);
    let size = second.values().len();
    let longer = if size < offsets { offsets } else { size };
    NeedPlan {
        from: (longer - second.period()) as u128,
        turn: second.period(),
    }
}

// The plan where the list is as long as that of the second series.
fn plan_by_second(first: &Series, second: &Series) -> NeedPlan
    ensures value { result ≡ short_left first.now second.now }
    ensures bound { result.from ≤ most_covering_shifts }
{
    NeedPlan {
        from: start(second) as u128,
        turn: second.period(),
    }
}

// From where the residual repeats, by the period of the second series.
fn plan_of_left(first: &Series, second: &Series) -> NeedPlan
    ensures value { result ≡ left_plan first.now second.now }
    ensures bound { result.from ≤ most_covering_shifts }
    ensures left { IsSeries first.now }
    ensures right { IsSeries second.now }
{
    match (tail(first), tail(second)) {
        (Date::At(_), Date::At(_)) => match compare_slopes(first, second) {
            Slopes::First => plan_by_second(first, second),
            _ => plan_by_offsets(first, second),
        },
        (Date::Never, Date::Never) => plan_by_offsets(first, second),
        _ => plan_by_second(first, second),
    }
}

// The greatest date whose sum with the first is at most the second.
fn subtracted(first: Date, second: Date) -> Date
    requires first { IsMagnitudeUpTo greatest_listed first }
    requires second { IsMagnitudeUpTo greatest_listed second }
    ensures { result ≡ date_left first second }
{
    match (first, second) {
        (Date::Early, _) | (Date::Never, Date::Never) => Date::Never,
        (Date::At(first), Date::At(second)) => Date::At(second - first),
        (Date::At(_), second) => second,
        (Date::Never, _) => Date::Early,
    }
}

// The plan of a residual where the offsets decide. A residual is the conjugate of the sum with the
// conjugate: so it is found by the greatest sums of the first series with the first values of the
// second, conjugated and in reverse. Contracts see the two series.
#[derive(Drop)]
struct LeftPlan<'a> {
    second: &'a Series,
    sums: CoreSums<'a>,
    size: usize,
}

impl<'a> Model for LeftPlan<'a> {
    ghost use Rattle.series_ops.specs.LeftPlans.{DividedForms, IsLeftPlan, divided_forms};

    ghost Value = { DividedForms };

    ghost view = { λ p. divided_forms p.sums.form p.second.now };

    ghost invariant = { λ p. IsLeftPlan p.sums p.second.now p.size };
}

impl<'a> LeftPlan<'a> {
    // The plan of two series. The work of a value grows with the places of the core of the first
    // series, or with its jumps where these are few.
    fn new(alloc: Global, first: &'a Series, second: &'a Series) -> Result<LeftPlan<'a>, AllocError>
        requires decide { OffsetsDecide first.now second.now }
        requires few { offsets_of first.now second.now ≤ 40000 }
        ensures { IfOk result (λ plan. plan ≡ divided_forms first.now second.now) }
    {
        let size = second.values().len() + offsets(first, second);
        let list = first_values(alloc, second, size)?;
        let ends = conjugates_back(alloc, list.as_slice())?;
        let sums = CoreSums::new(alloc, first, ends)?;
        let _series = first.period();
        Ok(LeftPlan { second, sums, size })
    }

    // The residual at a shift of the second list.
    fn listed_at(&self, shift: usize) -> Date
        requires { shift < size_of self.now.second }
        ensures { result ≡ left_over self.now.first self.now.second shift }
    {
        conjugate(self.sums.at(self.size - 1 - shift))
    }

    // One more value: past the list of the second series by its period.
    fn next(&self, values: &[Date]) -> Date
        requires values { values.now ≡ table (left_over self.now.first self.now.second)
            (length values.now) }
        requires count { length values.now ≤ 20000 }
        ensures { result ≡ left_over self.now.first self.now.second (length values.now) }
    {
        let shift = values.len();
        let second = self.second;
        if shift < second.values().len() {
            return self.listed_at(shift);
        }
        subtracted(Date::At(-second.step()), values[shift - second.period()])
    }

    // The first values.
    fn values(&self, alloc: Global, count: usize) -> Result<Vec<Date>, AllocError>
        requires { count ≤ 20001 }
        ensures { IfOk result (λ values. values.items ≡ table
            (left_over self.now.first self.now.second) count) }
    {
        let mut values = Vec::with_capacity(alloc, count)?;
        for _shift in 0..count {
            let next = self.next(values.as_slice());
            values.push(next)?;
        }
        Ok(values)
    }
}

// The first values of the residual.
fn left_values(
    alloc: Global,
    first: &Series,
    second: &Series,
    count: usize,
) -> Result<Vec<Date>, AllocError>
    requires short { need_of (left_plan first.now second.now) ≤ 20000 }
    requires count { count ≤ 20001 }
    ensures { IfOk result (λ values. values.items ≡ table (residual_at first.now second.now)
        count) }
{
    match (tail(first), compare_slopes(first, second)) {
        (Date::Early, _) => repeated(alloc, Date::Never, count),
        (_, Slopes::First) => repeated(alloc, Date::Early, count),
        _ => {
            let plan = LeftPlan::new(alloc, first, second)?;
            plan.values(alloc, count)
        }
    }
}

/// The residual of the second series by the first (chapter 5): at each shift k the greatest date
/// that is at most each residual of the second at k + i by the first at i, which is Early where
/// these fall without bound. TooLong exactly where its need exceeds 20,000; where not, TooGreat
/// exactly where a number of the result has a magnitude above 10^18. `OutOfMemory` comes only where
/// no memory is found. It takes time of the order of the lengths of the two lists, multiplied, at
/// most, and less where the first list goes on by equal steps in few pieces, seldom rises, or rises
/// by a gain in so many shifts everywhere and by more at few places.
pub fn left(alloc: Global, first: &Series, second: &Series) -> Result<Series, SeriesRefused>
    ensures answer { AnswersOf (λ r. (k : ℕ) → IsLeftAt (value_at first.now) (value_at second.now) k
        (value_at r k)) (need_of (left_plan first.now second.now))
        (need_of (left_plan first.now second.now)) result }
    ensures model { AnswersForm (need_of (left_plan first.now second.now))
        (form_left first.now second.now) result }
    ensures left { IsSeries first.now }
    ensures right { IsSeries second.now }
{
    let plan = plan_of_left(first, second);
    let need = plan.from + plan.turn as u128;
    if need > 20_000 {
        return Err(SeriesRefused::TooLong { need });
    }
    match left_values(alloc, first, second, need as usize + 1) {
        Ok(values) => ended(values, plan.turn),
        Err(_) => Err(SeriesRefused::OutOfMemory),
    }
}
