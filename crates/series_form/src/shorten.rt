//! The canonical form of a list of values: the least period, and with it the least length.
ghost use Rattle.std.specs.Prelude.{◌≡◌, ◌≤◌, ◌<◌, ◌+◌, ◌-◌, ◌-ℤ◌, length, FitsSigned, MatchBool, MatchResult};
ghost use Rattle.std.specs.Int.{w128};
ghost use Rattle.std.specs.Int.RustNames.{unsigned_abs};
ghost use Rattle.series_laws.specs.SeriesForms.{value_at, form_with, size_of, repeat_start, gap, moves, repeats_test, least_period_of, least_start_of};
ghost use Rattle.series_form.specs.NumberBounds.{IsModerate, IsModerateDate};
ghost use Rattle.series_form.specs.SeriesAnswers.{IsNumberCheck, IsBeginning, form_before};
ghost use Rattle.series_form.specs.PeriodicLists.{IsJumpOf, IsPeriodicList};
ghost use Rattle.series_form.specs.Shapes.{IsPart, IsCanonicalPart, IsShape, IsTooGreat};
ghost use Rattle.series_form.specs.SeriesLimits.{greatest_value};

use crate::values::{gap_of, is_moved};
use dioid::Date;
use std::marker::Model;

// The greatest magnitude of a value and of the step of a series.
const GREATEST_VALUE: i128 = 1_000_000_000_000_000_000;

/// How much of a list is the canonical form of its function, with the period and the step.
#[derive(Clone, Copy)]
pub struct Shape {
    /// How many of the first values of the list there are.
    pub size: usize,
    /// The least period, in shifts.
    pub period: usize,
    /// What a period adds to a value past the list.
    pub step: i128,
}

// A list of which the last `period` values go on by `step`, so that it never falls. Contracts see
// its form.
#[derive(Drop)]
pub(crate) struct PeriodicList<'a> {
    values: &'a [Date],
    period: usize,
    step: i128,
}

impl<'a> Model for PeriodicList<'a> {
    ghost use Rattle.series_laws.specs.SeriesForms.{Form, form_with};
    ghost use Rattle.series_form.specs.PeriodicLists.{IsJumpOf, IsPeriodicList};

    ghost Value = { Form };

    ghost view = { λ l. form_with l.values.now l.period l.step };

    ghost invariant = { λ l. IsPeriodicList (form_with l.values.now l.period l.step) };
}

impl<'a> PeriodicList<'a> {
    // The list with this period and step.
    pub(crate) fn new(values: &'a [Date], period: usize, step: i128) -> PeriodicList<'a>
        requires { IsPeriodicList (form_with values.now period step) }
        ensures { result ≡ form_with values.now period step }
    {
        PeriodicList {
            values,
            period,
            step,
        }
    }

    // The period.
    fn period(&self) -> usize
        ensures value { result ≡ self.now.period }
        ensures list { IsPeriodicList self.now }
    {
        self.period
    }

    // The shift from which the list repeats.
    fn start(&self) -> usize
        ensures { result ≡ repeat_start self.now }
    {
        self.values.len() - self.period
    }

    // Whether `turn` shifts move the value at a shift of the list by `jump`. A value past the list
    // is one of the list, moved by the step, so that two values of the list are compared.
    fn moves_at(&self, turn: usize, jump: i128, shift: usize) -> bool
        requires jump { IsJumpOf self.now turn jump }
        requires shift { shift < size_of self.now }
        ensures { result ≡ moves (value_at self.now) turn jump shift }
    {
        let size = self.values.len();
        let there = shift + turn;
        if there < size {
            return is_moved(self.values[shift], self.values[there], jump);
        }
        let before = there - self.period;
        is_moved(self.values[before], self.values[shift], self.step - jump)
    }

    // Whether `turn` shifts move the values at `from` and the next ones by `jump`.
    fn repeats(&self, turn: usize, jump: i128, from: usize, count: usize) -> bool
        requires jump { IsJumpOf self.now turn jump }
        requires short { size_of self.now ≤ 20000 }
        requires listed { from + count ≤ size_of self.now }
        ensures { result ≡ repeats_test (value_at self.now) turn jump from count }
    {
        for index in 0..count {
            if !self.moves_at(turn, jump, from + index) {
                return false;
            }
        }
        true
    }

    // What the function gains over up to a period from where the list repeats; 0 for Never and
    // Early.
    fn gain_of(&self, turn: usize) -> i128
        requires { turn ≤ self.now.period }
        ensures gain { let f = value_at self.now in result
            ≡ gap (f (repeat_start self.now)) (f (repeat_start self.now + turn)) }
        ensures rest { FitsSigned w128 (self.now.step -ℤ result) }
    {
        let start = self.values.len() - self.period;
        if turn < self.period {
            return gap_of(self.values[start], self.values[start + turn]);
        }
        match self.values[start] {
            Date::At(_) => self.step,
            _ => 0,
        }
    }

    // The least period of the form's function. It divides every other, so only divisors of the
    // period are tried.
    fn least_period(&self) -> usize
        ensures value { result ≡ least_period_of (value_at self.now) (repeat_start self.now)
            self.now.period }
        ensures within { result ≤ self.now.period }
        ensures list { IsPeriodicList self.now }
    {
        let period = self.period();
        let from = self.start();
        for turn in 1..period {
            if period % turn == 0 {
                let jump = self.gain_of(turn);
                if self.repeats(turn, jump, from, period) {
                    return turn;
                }
            }
        }
        period
    }

    // The first shift from which the function repeats by `turn` shifts and `jump`, looked for
    // backwards from where the list repeats.
    fn least_start(&self, turn: usize, jump: i128) -> usize
        requires { IsJumpOf self.now turn jump }
        ensures value { result ≡ least_start_of (value_at self.now) (repeat_start self.now) turn
            jump }
        ensures within { result ≤ repeat_start self.now }
    {
        let from = self.start();
        for back in 0..from {
            if !self.moves_at(turn, jump, from - (back + 1)) {
                return from - back;
            }
        }
        0
    }

    // The canonical form of the function: its list is the first part of the list.
    fn shape(&self) -> Shape
        ensures { IsPart self.now.values self.now.period self.now.step result }
    {
        let period = self.least_period();
        let jump = self.gain_of(period);
        Shape {
            size: self.least_start(period, jump) + period,
            period,
            step: jump,
        }
    }

    // The same, or the first number that is too great.
    pub(crate) fn shorten(&self) -> Result<Shape, i128>
        ensures { MatchResult result (IsShape self.now.values self.now.period self.now.step)
            (IsTooGreat self.now.values self.now.period self.now.step) }
    {
        let shape = self.shape();
        if let Some(value) = first_great(self.values, shape.size) {
            return Err(value);
        }
        if is_great(shape.step) {
            return Err(shape.step);
        }
        Ok(shape)
    }
}

// The first of the values that is too great.
fn first_great(values: &[Date], size: usize) -> Option<i128>
    requires { size ≤ length values.now }
    ensures { IsNumberCheck values.now size result }
{
    for place in 0..size {
        if let Date::At(time) = values[place] {
            if is_great(time) {
                return Some(time);
            }
        }
    }
    None
}

// Whether a number is too great.
fn is_great(number: i128) -> bool
    ensures { MatchBool result (greatest_value < unsigned_abs number)
        (unsigned_abs number ≤ greatest_value) }
{
    number > GREATEST_VALUE || number < -GREATEST_VALUE
}

/// The canonical form of a function that is known as in `shortest`, with numbers of any size. Takes
/// no memory, and the work of `shortest`. For the star of `series_ops`, which needs the form on the
/// way.
pub fn canonical_part(values: &[Date], turn: usize, next: Date) -> Shape
    requires { IsBeginning values.now turn next }
    ensures { IsCanonicalPart values.now turn next result }
{
    let step = step_before(values, turn, next);
    PeriodicList::new(values, turn, step).shape()
}

// What `next` is above the value that stands `turn` before it.
pub(crate) fn step_before(values: &[Date], turn: usize, next: Date) -> i128
    requires positive { 0 < turn }
    requires fits { turn ≤ length values.now }
    requires moderate { IsModerate (form_before values.now turn next) }
    requires next { IsModerateDate next }
    ensures { form_with values.now turn result ≡ form_before values.now turn next }
{
    gap_of(values[values.len() - turn], next)
}
