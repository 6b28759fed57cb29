//! The series of the due dates of a row, and of the times of walks from an input to its transition.
ghost use Rattle.std.specs.Prelude.{◌≡◌, ◌<◌, ◌≤◌, Ok, length, map, pos, IfOk};
ghost use Rattle.dioid.specs.declared.dates.Date.TheVariants.{At};
ghost use Rattle.series_form.specs.SeriesAnswers.{AnswersOf};
ghost use Rattle.forever_laws.specs.series_laws.SeriesForms.{HasValues, value_at};
ghost use Rattle.forever_laws.specs.series_laws.Periodic.{Rising};
ghost use Rattle.forever_laws.specs.settled_laws.SettledForms.{row_of};
ghost use Rattle.forever_laws.specs.SeriesColumns.{IsDueSeries, IsWalkSeries};
ghost use Rattle.teg_forever.specs.Alike.{told_form};
ghost use Rattle.teg_forever.specs.InputAnswers.{FitsIfMade};
ghost use Rattle.teg_forever.specs.LateFirings.{IsGoingRow};

use crate::asked::InputRows;
use dioid::Date;
use endless_due::EndlessRow;
use forever_laws::{forms_are_series, series_fit};
use series_form::{Series, SeriesRefused};
use series_ops::Gain;
use std::alloc::{AllocError, Global};
use teg_net::{OutOfMemory, TransitionId};
use walks_by_ends::InputTimes;

// The listed dates.
fn listed(alloc: Global, dates: &[u64]) -> Result<Vec<Date>, AllocError>
    ensures { IfOk result (λ list. list.items ≡ map (λ d. At (pos d)) dates.now) }
{
    dates
        .iter()
        .map(|date| Date::At(*date as i128))
        .collect(alloc)
}

// The gain of a series that fits.
fn gain_of(made: Result<Series, SeriesRefused>) -> Result<Gain, OutOfMemory>
    requires { FitsIfMade made }
    ensures { IfOk result (λ gain. made ≡ Ok gain.series) }
{
    match made {
        Ok(series) => Ok(Gain { series }),
        Err(SeriesRefused::OutOfMemory) => Err(OutOfMemory),
        Err(_) => unreachable!(),
    }
}

// The due series of a row.
pub(crate) fn due_gain(alloc: Global, row: &EndlessRow) -> Result<Gain, OutOfMemory>
    requires { IsGoingRow row.now }
    ensures { IfOk result (λ gain. IsDueSeries row.now gain.series) }
{
    forms_are_series();
    series_fit();
    let list = listed(alloc, row.dates.as_slice())?;
    gain_of(Series::from_list(alloc, list.as_slice(), row.every as usize, row.gap as i128))
}

// The series of the dates that a form tells of a transition.
fn told_series(
    alloc: Global,
    settled: &InputTimes<'_>,
    transition: TransitionId,
) -> Result<Series, SeriesRefused>
    requires transition { transition.index < length settled.now.rows }
    requires some { 0 < settled.now.period }
    requires fits { settled.now.period ≤ length (row_of settled.now transition.index) }
    requires rising { Rising (value_at (told_form settled.now transition.index)) }
    ensures { AnswersOf (λ r. HasValues r (value_at (told_form settled.now transition.index)))
        (length (row_of settled.now transition.index))
        (length (row_of settled.now transition.index)) result }
{
    let row = match settled.row(alloc, transition) {
        Ok(row) => row,
        Err(_) => return Err(SeriesRefused::OutOfMemory),
    };
    Series::from_list(
        alloc,
        row.as_slice(),
        settled.period() as usize,
        settled.step(transition),
    )
}

// The series of the times of walks from the input to a transition.
pub(crate) fn walk_gain(
    alloc: Global,
    asked: &InputRows<'_>,
    transition: TransitionId,
) -> Result<Gain, OutOfMemory>
    requires { transition.index < length asked.now.net.transitions }
    ensures { IfOk result (λ gain. IsWalkSeries asked.now.net asked.now.input.index transition.index
        gain.series) }
{
    forms_are_series();
    series_fit();
    gain_of(told_series(alloc, asked.settled(), transition))
}
