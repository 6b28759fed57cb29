//! Strides of series: so many shifts raise each value by a gain at least. From where this is so on,
//! a series is its core times the star of the monomial of the stride and its gain, and the core has
//! a value only where the series rises by more.
ghost use Rattle.std.specs.Prelude.{◌≡◌, ◌≤◌, ◌<◌, ◌+◌, ◌*◌, IfOk, length, true};
ghost use Rattle.std.specs.Int.RustNames.{unsigned_abs};
ghost use Rattle.dioid.specs.Dates.{move};
ghost use Rattle.dioid.specs.DateOrder.{Le};
ghost use Rattle.series_laws.specs.SeriesForms.{size_of, repeat_start, value_at, table};
ghost use Rattle.series_form.specs.NumberBounds.{IsMagnitudeUpTo};
ghost use Rattle.series_form.specs.SeriesLimits.{greatest_value, greatest_value_far_ahead};
ghost use Rattle.series_ops.specs.Strides.{AreRaised, IsCoreAt, IsStride, IsCore};
ghost use Rattle.series_ops.specs.ListFunctions.{value_listed, AreUpTo};

use crate::anchors::many;
use crate::cells::Cells;
use crate::pieces::is_moved;
use crate::tables::first_values;
use dioid::Date;
use series_form::{Series, start};
use std::alloc::{AllocError, Global};

// So many shifts, which raise each value from a place on by a gain at least.
#[derive(Clone, Copy)]
pub(crate) struct Stride {
    pub from: usize,
    pub shifts: usize,
    pub gain: i128,
}

// A stride of a series and the core by it.
#[derive(Drop)]
pub(crate) struct Core {
    pub stride: Stride,
    pub cells: Cells,
}

// Whether the second date is at least the first, moved by a gain.
fn is_raised(first: Date, second: Date, gain: i128) -> bool
    requires first { IsMagnitudeUpTo greatest_value_far_ahead first }
    requires gain { unsigned_abs gain ≤ greatest_value }
    ensures { result ≡ true → Le (move gain first) second }
{
    match (first, second) {
        (Date::Early, _) | (_, Date::Never) => true,
        (Date::At(first), Date::At(second)) => first + gain <= second,
        _ => false,
    }
}

// From where on each of the first `most` values is raised by a gain so many places later.
fn raised_from(values: &[Date], most: usize, shifts: usize, gain: i128) -> usize
    requires values { AreUpTo greatest_value_far_ahead values.now }
    requires places { most + shifts ≤ length values.now }
    requires gain { unsigned_abs gain ≤ greatest_value }
    ensures within { result ≤ most }
    ensures raised { AreRaised values.now result most shifts gain }
{
    for passed in 0..most {
        let place = most - 1 - passed;
        if !is_raised(values[place], values[place + shifts], gain) {
            return place + 1;
        }
    }
    0
}

// The stride of the period, from the start of the series on.
fn own_stride(first: &Series) -> Stride
    ensures { IsStride first.now result }
{
    Stride {
        from: start(first),
        shifts: first.period(),
        gain: first.step(),
    }
}

// The stride of so many turns of the period, from where it serves on; that of the period where the
// gain is too great.
fn stride_of_turns(first: &Series, values: &[Date], turns: usize) -> Stride
    requires values { values.now ≡ table (value_at first.now) (repeat_start first.now
        + size_of first.now) }
    requires turns { 0 < turns }
    requires short { turns * first.now.period ≤ size_of first.now }
    ensures { IsStride first.now result }
{
    let gain = many(turns, first.step());
    if gain > 1_000_000_000_000_000_000 || gain < -1_000_000_000_000_000_000 {
        return own_stride(first);
    }
    let shifts = turns * first.period();
    let from = raised_from(values, start(first), shifts, gain);
    Stride { from, shifts, gain }
}

// How many places are gone through in the search for a stride.
const MOST_PLACES: usize = 1_000_000;

// A stride of few places: those before it serves, and those of one stride.
fn short_stride(first: &Series, values: &[Date]) -> Stride
    requires { values.now ≡ table (value_at first.now) (repeat_start first.now
        + size_of first.now) }
    ensures { IsStride first.now result }
{
    let (start, period) = (start(first), first.period());
    let mut best = own_stride(first);
    let mut work = 0;
    for more in 0..start / period {
        let turns = more + 1;
        if work < MOST_PLACES && turns * period < best.from + best.shifts {
            let next = stride_of_turns(first, values, turns);
            work += start - next.from;
            if next.from + next.shifts < best.from + best.shifts {
                best = next;
            }
        }
    }
    best
}

// The value of the core at a place.
fn core_date(values: &[Date], stride: Stride, place: usize) -> Date
    requires values { AreUpTo greatest_value_far_ahead values.now }
    requires gain { unsigned_abs stride.gain ≤ greatest_value }
    requires room { stride.from + stride.shifts ≤ 40000 }
    requires place { place < length values.now }
    ensures value { IsCoreAt (value_listed values.now) stride.from stride.shifts stride.gain place
        result }
    ensures bound { IsMagnitudeUpTo greatest_value_far_ahead result }
{
    let date = values[place];
    if place >= stride.from + stride.shifts
        && is_moved(values[place - stride.shifts], date, stride.gain)
    {
        return Date::Early;
    }
    date
}

// The core by a stride.
fn core_by(
    alloc: Global,
    first: &Series,
    values: &[Date],
    stride: Stride,
) -> Result<Cells, AllocError>
    requires stride { IsStride first.now stride }
    requires values { values.now ≡ table (value_at first.now) (repeat_start first.now
        + size_of first.now) }
    ensures { IfOk result (λ cells. IsCore first.now stride cells) }
{
    let mut cells = Cells::new(alloc);
    for place in 0..start(first) + stride.shifts {
        cells.push(core_date(values, stride, place))?;
    }
    Ok(cells)
}

// In how many places of a list a core may have a jump at most, and so many times fewer than there
// are come before its stride serves.
const PLACES_A_CORE_JUMP: usize = 16;

// The core of a series by a stride that leaves few jumps, and serves from an early place on; else
// by its period from its start on, by which the core is its list.
pub(crate) fn core_of(alloc: Global, first: &Series) -> Result<Core, AllocError>
    ensures { IfOk result (λ core. IsCore first.now core.stride core.cells) }
{
    let size = first.values().len();
    let values = first_values(alloc, first, start(first) + size)?;
    let stride = short_stride(first, values.as_slice());
    let cells = core_by(alloc, first, values.as_slice(), stride)?;
    if stride.from < size / PLACES_A_CORE_JUMP && cells.jump_count() < size / PLACES_A_CORE_JUMP {
        return Ok(Core { stride, cells });
    }
    let stride = own_stride(first);
    let cells = core_by(alloc, first, values.as_slice(), stride)?;
    Ok(Core { stride, cells })
}
