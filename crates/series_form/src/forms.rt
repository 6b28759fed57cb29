//! Series, and the calls that make and read them.
ghost use Rattle.std.specs.Prelude.{◌≡◌, ◌≤◌, ◌<◌, ◌+◌, ℕ, [], ◌∷◌, IfOk};
ghost use Rattle.series_laws.specs.SeriesForms.{form_with, table, monomial_at, value_at};
ghost use Rattle.series_laws.specs.Periodic.{Rising};
ghost use Rattle.series_form.specs.PeriodicLists.{IsPeriodicList};
ghost use Rattle.series_form.specs.SeriesAnswers.{IsBeginning, IsShortestSeries, form_before};
ghost use Rattle.series_form.specs.SeriesLimits.{greatest_value};

use crate::shorten::{PeriodicList, step_before};
use crate::values::{same_values, value_of};
use dioid::Date;
use std::alloc::{AllocError, Global};
use std::marker::Model;
use thiserror::Error;

/// A causal series in its canonical form: the least period, and with it the shortest list (chapter
/// 5). Shifts count from 0, and values are dates in the user's unit. The list has at most 20,000
/// values, and no number passes a magnitude of 10^18.
#[derive(Drop)]
pub struct Series {
    pub(crate) values: Vec<Date>,
    pub(crate) period: usize,
    pub(crate) step: i128,
}

/// Why there is no series to answer.
#[derive(Clone, Copy, Debug, PartialEq, Eq, Drop, Error)]
pub enum SeriesRefused {
    /// The operation's need, in shifts, is above 20,000.
    #[error("series needs {need}")]
    TooLong { need: u128 },
    /// The first number of the canonical form with a magnitude above 10^18: values by shift, and
    /// the step last.
    #[error("number {value}")]
    TooGreat { value: i128 },
    /// No memory was found.
    #[error("out of memory")]
    OutOfMemory,
}

impl Model for Series {
    ghost use Rattle.series_laws.specs.SeriesForms.{Form};
    ghost use Rattle.series_form.specs.NumberBounds.{IsSeries};

    ghost Value = { Form };

    ghost view = { λ s. record { values = s.values.items; period = s.period; step = s.step } };

    ghost invariant = { λ s. IsSeries
        (record { values = s.values.items; period = s.period; step = s.step }) };
}

impl Series {
    ghost use Rattle.std.specs.Prelude.{◌≡◌, ◌≤◌, ◌<◌, ◌+◌, ◌↔◌, ℕ, IsTrue, IfOk, length};
    ghost use Rattle.std.specs.Int.RustNames.{unsigned_abs};
    ghost use Rattle.series_laws.specs.SeriesForms.{value_at, form_with, HasValues, monomial_at};
    ghost use Rattle.series_laws.specs.Periodic.{Rising};
    ghost use Rattle.series_form.specs.NumberBounds.{IsSmallDate, IsSeries};
    ghost use Rattle.series_form.specs.SeriesAnswers.{AnswersOf, IsConstant};
    ghost use Rattle.series_form.specs.SeriesLimits.{monomial_bound};

    /// The series that is Early below `shift` and `date` from there on; the shift and the magnitude
    /// of the date are below 10^19. Its need is `shift + 1`: TooLong above 20,000, and where not,
    /// TooGreat for a date of a magnitude above 10^18. `OutOfMemory` comes only where no memory is
    /// found. It takes time of the order of the shift. (Chapter 5.)
    pub fn monomial(alloc: Global, shift: u64, date: i128) -> Result<Series, SeriesRefused>
        requires shift { shift < monomial_bound }
        requires date { unsigned_abs date < monomial_bound }
        ensures { AnswersOf (λ r. HasValues r (monomial_at shift date)) (shift + 1) (shift + 1)
            result }
    {
        let need = shift as u128 + 1;
        if need > 20_000 {
            return Err(SeriesRefused::TooLong { need });
        }
        match monomial_values(alloc, shift as usize, date) {
            Ok(values) => shortest(values, 1, Date::At(date)),
            Err(_) => Err(SeriesRefused::OutOfMemory),
        }
    }

    /// The series of the function that a list gives: its values, of which the last `period`, one or
    /// more, go on by `step`, with numbers of any size. It may not fall. Where the last period is
    /// Never or Early throughout, the step is of no account. Its need is the length: TooLong above
    /// 20,000, also for a longer list than the canonical one; where not, TooGreat for a number of
    /// the canonical form of a magnitude above 10^18. `OutOfMemory` comes only where no memory is
    /// found. It takes time of the order of the length times the number of the period's divisors at
    /// most. (Chapter 5.)
    pub fn from_list(
        alloc: Global,
        values: &[Date],
        period: usize,
        step: i128,
    ) -> Result<Series, SeriesRefused>
        requires positive { 0 < period }
        requires fits { period ≤ length values.now }
        requires rising { Rising (value_at (form_with values.now period step)) }
        ensures { AnswersOf (λ r. HasValues r (value_at (form_with values.now period step)))
            (length values.now) (length values.now) result }
    {
        if values.len() > 20_000 {
            return Err(SeriesRefused::TooLong {
                need: values.len() as u128,
            });
        }
        match copied(alloc, values) {
            Ok(list) => finish(list, period, step),
            Err(_) => Err(SeriesRefused::OutOfMemory),
        }
    }

    /// The series with the one value everywhere; a number has a magnitude of at most 10^18. Its
    /// period is 1, and its step 0. Refuses for want of memory alone.
    pub fn constant(alloc: Global, date: Date) -> Result<Series, SeriesRefused>
        requires { IsSmallDate date }
        ensures { IsConstant date result }
    {
        match one_value(alloc, date) {
            Ok(values) => Ok(Series {
                values,
                period: 1,
                step: 0,
            }),
            Err(_) => Err(SeriesRefused::OutOfMemory),
        }
    }

    /// The values at the shifts 0, 1, .., of which the last `period` values go on by `step`. It
    /// takes no memory.
    pub fn values(&self) -> &[Date]
        ensures value { result.now ≡ self.now.values }
        ensures series { IsSeries self.now }
    {
        self.values.as_slice()
    }

    /// The least period, in shifts. It takes no memory.
    pub fn period(&self) -> usize
        ensures value { result ≡ self.now.period }
        ensures series { IsSeries self.now }
    {
        self.period
    }

    /// What a period adds to a value past the list, in the user's unit; 0 where the series ends in
    /// Early or Never. It takes no memory.
    pub fn step(&self) -> i128
        ensures value { result ≡ self.now.step }
        ensures series { IsSeries self.now }
    {
        self.step
    }

    /// The value at a shift of at most 10^18. It takes no memory.
    pub fn at(&self, shift: u64) -> Date
        requires { shift ≤ greatest_value }
        ensures value { result ≡ value_at self.now shift }
        ensures series { IsSeries self.now }
    {
        value_of(self.values.as_slice(), self.period, self.step, shift)
    }

    /// The same series once more. Refuses for want of memory alone.
    pub fn duplicate(&self, alloc: Global) -> Result<Series, AllocError>
        ensures value { IfOk result (λ r. r ≡ self.now) }
        ensures series { IsSeries self.now }
    {
        let values = copied(alloc, self.values.as_slice())?;
        Ok(Series {
            values,
            period: self.period,
            step: self.step,
        })
    }

    /// Whether the two are equal as functions, which is where their forms are equal. It takes no
    /// memory.
    pub fn equals(&self, other: &Series) -> bool
        ensures functions { IsTrue result ↔ ((k : ℕ) → value_at self.now k ≡ value_at other.now k) }
        ensures forms { IsTrue result ↔ (self.now ≡ other.now) }
        ensures left { IsSeries self.now }
        ensures right { IsSeries other.now }
    {
        self.has_form_of(other)
    }

    // Whether the two forms are the same.
    fn has_form_of(&self, other: &Series) -> bool
        ensures same { IsTrue result ↔ (self.now ≡ other.now) }
        ensures left { IsSeries self.now }
        ensures right { IsSeries other.now }
    {
        if self.period != other.period {
            return false;
        }
        if self.step != other.step {
            return false;
        }
        same_values(self.values.as_slice(), other.values.as_slice())
    }
}

// The first values of a monomial, its own shift the last one.
fn monomial_values(alloc: Global, shift: usize, date: i128) -> Result<Vec<Date>, AllocError>
    requires { shift < 20000 }
    ensures { IfOk result (λ values. values.items ≡ table (monomial_at shift date) (shift + 1)) }
{
    let mut values = Vec::new(alloc);
    for _place in 0..shift {
        values.push(Date::Early)?;
    }
    values.push(Date::At(date))?;
    Ok(values)
}

// The list once more.
fn copied(alloc: Global, values: &[Date]) -> Result<Vec<Date>, AllocError>
    ensures { IfOk result (λ list. list.items ≡ values.now) }
{
    values.iter().copied().collect(alloc)
}

// A list of one date.
fn one_value(alloc: Global, date: Date) -> Result<Vec<Date>, AllocError>
    ensures { IfOk result (λ values. values.items ≡ date ∷ []) }
{
    let mut values = Vec::new(alloc);
    values.push(date)?;
    Ok(values)
}

// The series of the function of a form with numbers of any size.
fn finish(mut values: Vec<Date>, turn: usize, step: i128) -> Result<Series, SeriesRefused>
    requires { IsPeriodicList (form_with values.items turn step) }
    ensures { IsShortestSeries (value_at (form_with values.items turn step)) result }
{
    let shorter = PeriodicList::new(values.as_slice(), turn, step).shorten();
    match shorter {
        Ok(shape) => {
            values.truncate(shape.size);
            Ok(Series {
                values,
                period: shape.period,
                step: shape.step,
            })
        }
        Err(value) => Err(SeriesRefused::TooGreat { value }),
    }
}

/// The series of a function that is known by its first values, of which the last `turn` are a
/// period, and by `next`, the value after them: the canonical form, or TooGreat with its first
/// number of a magnitude above 10^18, values in order of shift and the step last. Takes no memory
/// of its own. The work is the length times the number of the period's divisors at most. For the
/// operations of `series_ops`.
pub fn shortest(values: Vec<Date>, turn: usize, next: Date) -> Result<Series, SeriesRefused>
    requires { IsBeginning values.items turn next }
    ensures { IsShortestSeries (value_at (form_before values.items turn next)) result }
{
    let step = step_before(values.as_slice(), turn, next);
    finish(values, turn, step)
}
