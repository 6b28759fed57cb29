//! The star of a series: its need, and its values by their first parts.
ghost use Rattle.std.specs.Prelude.{◌≡◌, ◌≤◌, ◌<◌, ◌+◌, ◌-◌, ℕ, IfOk, pos};
ghost use Rattle.dioid.specs.declared.dates.Date.TheVariants.{At, Never};
ghost use Rattle.series_laws.specs.Periodic.{times};
ghost use Rattle.series_laws.specs.SeriesForms.{size_of, value_at, table, HasValues, monomial_at};
ghost use Rattle.series_form.specs.NumberBounds.{IsSeries};
ghost use Rattle.series_laws.specs.Pointwise.{sum_at};
ghost use Rattle.series_laws.specs.Needs.{need_of, sum_plan};
ghost use Rattle.series_form.specs.declared.forms.SeriesRefused.{SeriesRefused};
ghost use Rattle.dioid.specs.DateOrder.{Le};
ghost use Rattle.series_form.specs.SeriesAnswers.{AnswersOf, AnswersForm};
ghost use Rattle.series_laws.specs.ProductNeeds.{at_least, star_plan, carried_of, star_need, star_carried, form_star};
ghost use Rattle.series_ops.specs.ListFunctions.{later_part};
ghost use Rattle.series_laws.specs.StarOf.{parts_star, above_zero, IsStarOf};
ghost use Rattle.series_form.specs.SeriesLimits.{greatest_star_need};

use crate::anchors::Parts;
use crate::beginnings::{greatest_begun, nothing_begun, renewed};
use crate::cells::{Cells, dates_of};
use crate::splits::{Span, Tail};
use crate::tables::ended;
use dioid::Date;
use series_form::{
    NeedPlan, Series, SeriesRefused, canonical_part, later_at, plan_of_sum, start, sum_values,
};
use std::alloc::{AllocError, Global};

// A plan that has at least this need.
fn raised(need: usize, own: NeedPlan) -> NeedPlan
    ensures { result ≡ at_least need own }
{
    let rest = if need < own.turn { 0 } else { need - own.turn };
    let rest = rest as u128;
    NeedPlan {
        from: if own.from < rest { rest } else { own.from },
        turn: own.turn,
    }
}

// The values of a series from shift 1 on, as many as its list has.
fn later_values(alloc: Global, series: &Series) -> Result<Cells, AllocError>
    ensures { IfOk result (λ values. values ≡ table (later_part (value_at series.now))
        (size_of series.now)) }
{
    let mut values = Cells::new(alloc);
    for shift in 0..series.values().len() {
        values.push(series.at((shift + 1) as u64))?;
    }
    Ok(values)
}

// The star over lists of parts at the shifts up to `need`, by the values from shift 1 on and the
// sums whose first part is in their tail. The work is the need times the number of those values, or
// where these have few pieces the need times the number of pieces.
fn star_by(
    alloc: Global,
    first: &Series,
    rest: &Cells,
    need: usize,
) -> Result<Vec<Date>, AllocError>
    requires rest { rest.now ≡ table (later_part (value_at first.now)) (size_of first.now) }
    requires need { need ≤ 20000 }
    ensures { IfOk result (λ values. values.items ≡ table (parts_star (value_at first.now))
        (need + 1)) }
{
    let tail = Tail::new(rest, first.period(), first.step());
    let span = Span {
        from: 0,
        count: start(first),
        period: first.period(),
    };
    let mut cells = Cells::new(alloc);
    let mut tails = Vec::new(alloc);
    let mut begun = nothing_begun(alloc);
    cells.push(Date::At(0))?;
    for shift in 0..need {
        let more = renewed(alloc, begun, rest, &cells, span)?;
        begun = more;
        let last = tail.next_sum(&cells, tails.as_slice(), &[]);
        tails.push(last)?;
        let best = greatest_begun(&begun, rest, &cells, shift, span.count).later(last);
        let next = Date::At(0).later(best);
        cells.push(next)?;
    }
    dates_of(alloc, &cells, need + 1)
}

// The same, which finds the values from shift 1 on first.
fn star_list(alloc: Global, first: &Series, need: usize) -> Result<Vec<Date>, AllocError>
    requires need { need ≤ 20000 }
    ensures { IfOk result (λ values. values.items ≡ table (parts_star (value_at first.now))
        (need + 1)) }
{
    let rest = later_values(alloc, first)?;
    star_by(alloc, first, &rest, need)
}

// From where the star repeats, by the sum with the monomial of shift 1 and date 0 and its plan.
fn plan_with(first: &Series, one: &Series, plan: NeedPlan, mut values: Vec<Date>) -> NeedPlan
    requires left { IsSeries first.now }
    requires right { IsSeries one.now }
    requires one { HasValues one.now (monomial_at 1 (pos 0)) }
    requires plan { plan ≡ sum_plan first.now one.now }
    requires short { need_of plan ≤ 20000 }
    requires values { values.items ≡ table (sum_at (value_at first.now) (value_at one.now))
        (need_of plan) }
    ensures value { result ≡ star_plan first.now }
    ensures bound { result.from ≤ greatest_star_need }
{
    let need = plan.from as usize + plan.turn;
    let next = later_at(first, one, need);
    let shape = canonical_part(values.as_slice(), plan.turn, next);
    values.truncate(shape.size);
    let parts = Parts {
        values: values.as_slice(),
        period: shape.period,
        step: shape.step,
    };
    raised(need, parts.plan())
}

// The star of a series whose first value is not above 0, with the monomial of shift 1 and date 0.
fn star_with(alloc: Global, first: &Series, one: &Series) -> Result<Series, SeriesRefused>
    requires low { Le (value_at first.now 0) (At (pos 0)) }
    requires one { HasValues one.now (monomial_at 1 (pos 0)) }
    ensures { AnswersOf (λ r. HasValues r (parts_star (value_at first.now)))
        (need_of (star_plan first.now)) (carried_of first.now) result }
{
    let plan = plan_of_sum(first, one);
    let need = plan.from + plan.turn as u128;
    if need > 20_000 {
        return Err(SeriesRefused::TooLong { need });
    }
    match sum_values(alloc, first, one, need as usize) {
        Ok(values) => {
            let plan = plan_with(first, one, plan, values);
            let need = plan.from + plan.turn as u128;
            if need > 20_000 {
                return Err(SeriesRefused::TooLong { need });
            }
            match star_list(alloc, first, need as usize) {
                Ok(values) => ended(values, plan.turn),
                Err(_) => Err(SeriesRefused::OutOfMemory),
            }
        }
        Err(_) => Err(SeriesRefused::OutOfMemory),
    }
}

// Whether a date is above 0.
fn is_above_zero(date: Date) -> bool
    ensures { result ≡ above_zero date }
{
    match date {
        Date::Early => false,
        Date::At(time) => time > 0,
        Date::Never => true,
    }
}

/// The star of a series (chapter 5): at each shift k the greatest sum of values over lists of
/// positive parts that add up to k, at least 0; Never everywhere where the first value is above 0.
/// TooLong exactly where its need exceeds 20,000; it carries the need of the sum with the monomial
/// of shift 1 and date 0 where that exceeds 20,000 itself. Where it does not come, TooGreat comes
/// exactly where a number of the result has a magnitude above 10^18. `OutOfMemory` comes only where
/// no memory is found. It takes time of the order of the need times the length of the list at most,
/// and less where that goes on by equal steps in few pieces or seldom rises.
pub fn star(alloc: Global, first: &Series) -> Result<Series, SeriesRefused>
    ensures answer { AnswersOf (λ r. (k : ℕ) → IsStarOf (value_at first.now) k (value_at r k))
        (star_need first.now) (star_carried first.now) result }
    ensures model { AnswersForm (star_need first.now) (form_star first.now) result }
    ensures operand { IsSeries first.now }
{
    if is_above_zero(first.at(0)) {
        return Series::constant(alloc, Date::Never);
    }
    match Series::monomial(alloc, 1, 0) {
        Ok(one) => star_with(alloc, first, &one),
        Err(_) => Err(SeriesRefused::OutOfMemory),
    }
}
