//! Sums of a value of one list and a value of another, over the splits of a shift.
ghost use Rattle.std.specs.Prelude.{◌≡◌, ◌≤◌, ◌<◌, ◌+◌, length};
ghost use Rattle.dioid.specs.Dates.{date_product};
ghost use Rattle.series_laws.specs.SeriesForms.{form_with, repeat_start, table};
ghost use Rattle.series_form.specs.NumberBounds.{IsMagnitudeUpTo};
ghost use Rattle.series_form.specs.SeriesLimits.{greatest_moderate, greatest_part_product};
ghost use Rattle.series_ops.specs.Cells.{far};
ghost use Rattle.series_ops.specs.Pieces.{window, ArePieceSums};
ghost use Rattle.series_ops.specs.Splits.{places_to, tail_product, IsTailed};
ghost use Rattle.series_ops.specs.ListFunctions.{value_listed, AreUpTo};

use crate::cells::{Cells, greatest_split};
use dioid::Date;
use std::marker::Model;

// Places of a list one after another, which may go on by equal steps from one to the place `period`
// later.
#[derive(Clone, Copy)]
pub(crate) struct Span {
    pub from: usize,
    pub count: usize,
    pub period: usize,
}

// The two dates added.
pub(crate) fn added(first: Date, second: Date) -> Date
    requires first { IsMagnitudeUpTo greatest_part_product first }
    requires second { IsMagnitudeUpTo greatest_moderate second }
    ensures { result ≡ date_product first second }
{
    match (first, second) {
        (Date::Early, _) | (_, Date::Early) => Date::Early,
        (Date::At(first), Date::At(second)) => Date::At(first + second),
        _ => Date::Never,
    }
}

// How many of `most` places from `from` on are at most `shift`.
pub(crate) fn places(from: usize, most: usize, shift: usize) -> usize
    ensures { result ≡ places_to from most shift }
{
    if shift < from {
        return 0;
    }
    if shift - from < most {
        shift - from + 1
    } else {
        most
    }
}

// The greatest sum at a shift whose first part is at one of the places of the span: one of the
// known ones, else found by all splits.
pub(crate) fn greatest_at(
    known: &[Date],
    first: &Cells,
    second: &Cells,
    span: Span,
    shift: usize,
) -> Date
    requires first { span.from + span.count ≤ length first.now }
    requires second { shift < length second.now }
    requires known { ArePieceSums known.now first.now second.now span.from span.count }
    ensures value { result ≡ window (value_listed first.now) (value_listed second.now) span.from
        span.count shift }
    ensures bound { IsMagnitudeUpTo far result }
{
    let (_first, _second) = (first.len(), second.len());
    if shift < known.len() {
        return known[shift];
    }
    let count = places(span.from, span.count, shift);
    greatest_split(first, second, shift, span.from, count)
}

// The tail of a list, of which the last `period` values go on by `step`. Contracts see its form.
#[derive(Drop)]
pub(crate) struct Tail<'a> {
    values: &'a Cells,
    period: usize,
    step: i128,
}

impl<'a> Model for Tail<'a> {
    ghost use Rattle.series_laws.specs.SeriesForms.{Form, form_with};
    ghost use Rattle.series_ops.specs.Splits.{IsTailed};

    ghost Value = { Form };

    ghost view = { λ t. form_with t.values.now t.period t.step };

    ghost invariant = { λ t. IsTailed (form_with t.values.now t.period t.step) };
}

impl<'a> Tail<'a> {
    // The tail of a list with this period and step.
    pub(crate) fn new(values: &'a Cells, period: usize, step: i128) -> Tail<'a>
        requires { IsTailed (form_with values.now period step) }
        ensures { result ≡ form_with values.now period step }
    {
        Tail {
            values,
            period,
            step,
        }
    }

    // The places of the last period.
    pub(crate) fn span(&self) -> Span
        ensures from { result.from ≡ repeat_start self.now }
        ensures count { result.count ≡ self.now.period }
        ensures period { result.period ≡ self.now.period }
    {
        Span {
            from: self.values.len() - self.period,
            count: self.period,
            period: self.period,
        }
    }

    // The next greatest sum whose first part is in the tail, from those at the shifts before: of
    // those in the list, and of those of a period before, a step later.
    pub(crate) fn next_sum(&self, second: &Cells, tails: &[Date], known: &[Date]) -> Date
        requires second { length tails.now < length second.now }
        requires tails_bound { AreUpTo greatest_moderate tails.now }
        requires tails { tails.now ≡ table (tail_product self.now (value_listed second.now))
            (length tails.now) }
        requires known { ArePieceSums known.now self.now.values second.now (repeat_start self.now)
            self.now.period }
        ensures { result ≡ tail_product self.now (value_listed second.now) (length tails.now) }
    {
        let shift = tails.len();
        let here = greatest_at(known, self.values, second, self.span(), shift);
        if shift < self.period {
            return here;
        }
        here.later(added(Date::At(self.step), tails[shift - self.period]))
    }
}
