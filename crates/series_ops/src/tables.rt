//! First values of a series, and the series of a list.
ghost use Rattle.std.specs.Prelude.{◌≡◌, ◌≤◌, ◌<◌, ◌-◌, IfOk, length};
ghost use Rattle.series_laws.specs.SeriesForms.{value_at, table};
ghost use Rattle.series_form.specs.NumberBounds.{IsSeries};
ghost use Rattle.series_form.specs.SeriesAnswers.{IsBeginning, IsShortestSeries, form_before};
ghost use Rattle.series_ops.specs.ListFunctions.{all_but_last, last_value};

use dioid::Date;
use series_form::{Series, SeriesRefused, shortest};
use std::alloc::{AllocError, Global};

// The first values of a series.
pub(crate) fn first_values(
    alloc: Global,
    series: &Series,
    count: usize,
) -> Result<Vec<Date>, AllocError>
    requires { count ≤ 60001 }
    ensures values { IfOk result (λ values. values.items ≡ table (value_at series.now) count) }
    ensures series { IfOk result (λ values. IsSeries series.now) }
{
    let _period = series.period();
    let mut values = Vec::with_capacity(alloc, count)?;
    for shift in 0..count {
        values.push(series.at(shift as u64))?;
    }
    Ok(values)
}

// The one date, `count` times.
pub(crate) fn repeated(alloc: Global, date: Date, count: usize) -> Result<Vec<Date>, AllocError>
    ensures { IfOk result (λ values. values.items ≡ table (λ _. date) count) }
{
    let mut values = Vec::with_capacity(alloc, count)?;
    for _place in 0..count {
        values.push(date)?;
    }
    Ok(values)
}

// The series of a list whose last value is the one after the list of its form.
pub(crate) fn ended(mut values: Vec<Date>, turn: usize) -> Result<Series, SeriesRefused>
    requires some { 0 < length values.items }
    requires beginning { IsBeginning (all_but_last values.items) turn (last_value values.items) }
    ensures { IsShortestSeries (value_at (form_before (all_but_last values.items) turn
        (last_value values.items))) result }
{
    let last = values.len() - 1;
    let next = values[last];
    values.truncate(last);
    shortest(values, turn, next)
}
