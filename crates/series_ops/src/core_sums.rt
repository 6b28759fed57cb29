//! The greatest sums of a series and a list, by the core of the series: by which the list of a long
//! series that rises often is passed over but for few places.
ghost use Rattle.std.specs.Prelude.{◌≡◌, ◌≤◌, ◌<◌, ◌+◌, IfOk, length};
ghost use Rattle.std.specs.Int.RustNames.{unsigned_abs};
ghost use Rattle.series_laws.specs.SeriesForms.{value_at, table};
ghost use Rattle.series_laws.specs.Product.{product_at};
ghost use Rattle.series_form.specs.NumberBounds.{IsMagnitudeUpTo};
ghost use Rattle.series_form.specs.SeriesLimits.{greatest_value, greatest_value_far_ahead};
ghost use Rattle.series_ops.specs.Cells.{far};
ghost use Rattle.series_ops.specs.CoreSums.{summed_list};
ghost use Rattle.series_ops.specs.ListFunctions.{AreEarlyTo, AreUpTo, value_listed};
ghost use Rattle.series_ops.specs.Strides.{IsStarSums, star_sum_at};

use crate::cells::Cells;
use crate::pieces::sums_in_few_pieces;
use crate::splits::{Span, added, greatest_at};
use crate::strides::{Stride, core_of};
use dioid::Date;
use series_form::Series;
use std::alloc::{AllocError, Global};
use std::marker::Model;

// How many of the first `most` places of a list come before one that is not Early.
fn places_begun(list: &[Date], most: usize) -> usize
    requires { most ≤ length list.now }
    ensures within { result ≤ most }
    ensures early { AreEarlyTo result list.now }
{
    for place in 0..most {
        if list[place] != Date::Early {
            return place;
        }
    }
    most
}

// One more value of the product of a list and the star of a stride, from the values there are.
fn next_starred(list: &Cells, values: &Cells, stride: Stride) -> Date
    requires gain { unsigned_abs stride.gain ≤ greatest_value }
    requires shifts { 0 < stride.shifts }
    ensures { result ≡ star_sum_at (value_listed list.now) (value_listed values.now) stride.shifts
        stride.gain
        (length values.now) }
{
    let place = values.len();
    let date = list.date(place);
    if place < stride.shifts {
        return date;
    }
    date.later(added(Date::At(stride.gain), values.date(place - stride.shifts)))
}

// The product of a list and the star of a stride.
fn times_star(alloc: Global, list: &Cells, stride: Stride) -> Result<Cells, AllocError>
    requires list { AreUpTo greatest_value_far_ahead list.now }
    requires short { length list.now ≤ 60001 }
    requires shifts { 0 < stride.shifts }
    requires gain { unsigned_abs stride.gain ≤ greatest_value }
    ensures size { IfOk result (λ cells. length cells ≡ length list.now) }
    ensures sums { IfOk result (λ cells. IsStarSums (value_listed list.now) (value_listed cells)
        stride.shifts
        stride.gain
        (length list.now)) }
{
    let mut values = Cells::with_capacity(alloc, list.len())?;
    for _place in 0..list.len() {
        let next = next_starred(list, &values, stride);
        values.push(next)?;
    }
    Ok(values)
}

// The greatest sums of the values of a series and of a list. From where a stride of it serves on,
// the series is its core times the star of the stride: so they are those of the core with the list
// times that star, and before it those with the list. The places where the core is still Early add
// nothing, and are passed over. Contracts see the form of the series and the list.
#[derive(Drop)]
pub(crate) struct CoreSums<'a> {
    first: &'a Series,
    stride: Stride,
    core: Cells,
    list: Cells,
    by_star: Cells,
    below: Span,
    others: Span,
    head: Vec<Date>,
    rest: Vec<Date>,
}

impl<'a> Model for CoreSums<'a> {
    ghost use Rattle.series_ops.specs.CoreSums.{SummedList, IsCoreSums, summed_list};

    ghost Value = { SummedList };

    ghost view = { λ s. summed_list s.first.now s.list };

    ghost invariant = { λ s. IsCoreSums s.first.now s.stride s.core s.list s.by_star s.below
        s.others
        s.head.items
        s.rest.items };
}

impl<'a> CoreSums<'a> {
    // The sums of a series and a list. The work of each grows with the places of the core from the
    // first number on, or with its jumps where these are few.
    pub(crate) fn new(
        alloc: Global,
        first: &'a Series,
        list: Cells,
    ) -> Result<CoreSums<'a>, AllocError>
        requires list { AreUpTo greatest_value_far_ahead list }
        requires short { length list ≤ 60001 }
        ensures { IfOk result (λ sums. sums ≡ summed_list first.now list) }
    {
        let found = core_of(alloc, first)?;
        let (stride, core) = (found.stride, found.cells);
        let by_star = times_star(alloc, &list, stride)?;
        let period = first.period();
        let begun = places_begun(first.values(), stride.from);
        let below = Span {
            from: begun,
            count: stride.from - begun,
            period,
        };
        let others = Span {
            from: stride.from,
            count: core.len() - stride.from,
            period,
        };
        let size = list.len();
        let head = sums_in_few_pieces(alloc, &core, &list, size, below)?;
        let rest = sums_in_few_pieces(alloc, &core, &by_star, size, others)?;
        Ok(CoreSums {
            first,
            stride,
            core,
            list,
            by_star,
            below,
            others,
            head,
            rest,
        })
    }

    // The greatest sum at a shift.
    pub(crate) fn at(&self, shift: usize) -> Date
        requires { shift < length self.now.list }
        ensures value { result ≡ product_at (value_at self.now.form)
            (value_listed self.now.list) shift }
        ensures bound { IsMagnitudeUpTo far result }
    {
        let known = self.head.as_slice();
        let head = greatest_at(known, &self.core, &self.list, self.below, shift);
        let known = self.rest.as_slice();
        let rest = greatest_at(known, &self.core, &self.by_star, self.others, shift);
        head.later(rest)
    }

    // The first greatest sums.
    pub(crate) fn values(&self, alloc: Global, count: usize) -> Result<Vec<Date>, AllocError>
        requires { count ≤ length self.now.list }
        ensures { IfOk result (λ values. values.items ≡ table (product_at (value_at self.now.form)
            (value_listed self.now.list)) count) }
    {
        let mut values = Vec::with_capacity(alloc, count)?;
        for shift in 0..count {
            values.push(self.at(shift))?;
        }
        Ok(values)
    }
}
