//! Lists of dates as numbers, so that the greatest of many sums is found by additions and
//! comparisons of numbers alone: a number far below all others stands for Early, one far above for
//! Never.
ghost use Rattle.std.specs.Prelude.{◌≡◌, ◌≤◌, ◌<◌, ◌+◌, ◌-◌, ◌++◌, ◌∷◌, [], length, map, true, IfOk};
ghost use Rattle.series_laws.specs.SeriesForms.{table};
ghost use Rattle.series_form.specs.NumberBounds.{IsMagnitudeUpTo};
ghost use Rattle.series_form.specs.SeriesLimits.{greatest_listed};
ghost use Rattle.series_ops.specs.Cells.{far, cell_of_date, conjugate_of, date_of_far_cell, date_of_short_cell, conjugates_reversed, AreCells, AreShort, IsPushed, AreStillListed, IsJumpListed, IsLastUpTo, AreJumps, AreRising};
ghost use Rattle.series_ops.specs.ListFunctions.{value_listed, AreUpTo};
ghost use Rattle.series_ops.specs.Splits.{greatest_from, split_of};
ghost use Rattle.series_ops.specs.SplitsAt.{AreSplitsIn, greatest_of};

use dioid::Date;
use std::alloc::{AllocError, Global};
use std::marker::Model;

// A number of a greater magnitude stands for no number.
const FAR: i128 = 1_000_000_000_000_000_000_000_000_000_000;

// The number that stands for Never.
const NEVER: i128 = 1_000_000_000_000_000_000_000_000_000_000_000_000;

// The number that stands for Early: its sum with the one for Never stands for Early too.
const EARLY: i128 = -10_000_000_000_000_000_000_000_000_000_000_000_000;

// The number that stands for a date.
fn cell(date: Date) -> i128
    ensures { result ≡ cell_of_date date }
{
    match date {
        Date::Early => EARLY,
        Date::At(number) => number,
        Date::Never => NEVER,
    }
}

// The date that a number stands for.
fn date_of(cell: i128) -> Date
    ensures value { result ≡ date_of_far_cell cell }
    ensures bound { IsMagnitudeUpTo far result }
{
    if cell > FAR {
        return Date::Never;
    }
    if cell < -FAR {
        return Date::Early;
    }
    Date::At(cell)
}

// In eight bytes: a number of a greater magnitude stands for no number.
const SHORT_FAR: i64 = 1_800_000_000_000_000_000;

// In eight bytes: the number that stands for Never.
const SHORT_NEVER: i64 = 2_750_000_000_000_000_000;

// In eight bytes: the number that stands for Early.
const SHORT_EARLY: i64 = -4_600_000_000_000_000_000;

// Adds the number of a date in eight bytes, if it fits.
fn push_short(list: &mut Vec<i64>, date: Date) -> Result<(), AllocError>
    ensures { IsPushed list.old.items list.new.items date }
{
    match date {
        Date::Early => list.push(SHORT_EARLY)?,
        Date::Never => list.push(SHORT_NEVER)?,
        Date::At(number) => {
            if number <= 900_000_000_000_000_000 && number >= -900_000_000_000_000_000 {
                list.push(number as i64)?;
            }
        }
    }
    Ok(())
}

// The date that a number of eight bytes stands for.
fn date_of_short(cell: i64) -> Date
    ensures value { result ≡ date_of_short_cell cell }
    ensures bound { IsMagnitudeUpTo far result }
{
    if cell > SHORT_FAR {
        return Date::Never;
    }
    if cell < -SHORT_FAR {
        return Date::Early;
    }
    Date::At(cell as i128)
}

// Numbers change their sign, Early and Never their places.
pub(crate) fn conjugate(date: Date) -> Date
    requires { IsMagnitudeUpTo far date }
    ensures { result ≡ conjugate_of date }
{
    match date {
        Date::Early => Date::Never,
        Date::At(number) => Date::At(-number),
        Date::Never => Date::Early,
    }
}

// Adds the place behind a list of numbers to its jumps, where the next number is not the last one.
fn push_jump(jumps: &mut Vec<usize>, numbers: &[i128], next: i128) -> Result<(), AllocError>
    ensures kept { AreStillListed jumps.old.items jumps.new.items }
    ensures more { IfOk result (λ _. IsJumpListed jumps.new.items numbers.now next) }
{
    let size = numbers.len();
    if size > 0 && numbers[size - 1] != next {
        jumps.push(size)?;
    }
    Ok(())
}

// Whether numbers that rise, if they do, still do with the next one.
fn rises_with(rising: bool, numbers: &[i128], next: i128) -> bool
    ensures before { result ≡ true → rising ≡ true }
    ensures next { result ≡ true → IsLastUpTo numbers.now next }
{
    let size = numbers.len();
    rising && (size == 0 || numbers[size - 1] <= next)
}

// Dates one after another, each as a number, and the first ones that fit in eight bytes each once
// more; the places whose number is not that of the place before, and whether the numbers never
// fall. Contracts see the list of the dates.
#[derive(Drop)]
pub(crate) struct Cells {
    numbers: Vec<i128>,
    short: Vec<i64>,
    jumps: Vec<usize>,
    rising: bool,
}

impl Model for Cells {
    ghost use Rattle.std.specs.Prelude.{List, map};
    ghost use Rattle.dioid.specs.declared.dates.Date.{Date};
    ghost use Rattle.series_ops.specs.Cells.{date_of_far_cell, AreCells, AreShortOf, AreStairs};

    ghost Value = { List Date };

    ghost view = { λ c. map date_of_far_cell c.numbers.items };

    ghost invariant = { λ c. AreCells c.numbers.items × AreShortOf c.short.items c.numbers.items
        × AreStairs c.jumps.items c.rising c.numbers.items };
}

impl Cells {
    // No dates.
    pub(crate) fn new(alloc: Global) -> Cells
        ensures { result ≡ [] }
    {
        Cells {
            numbers: Vec::new(alloc),
            short: Vec::new(alloc),
            jumps: Vec::new(alloc),
            rising: true,
        }
    }

    // No dates, with room for so many.
    pub(crate) fn with_capacity(alloc: Global, count: usize) -> Result<Cells, AllocError>
        ensures { IfOk result (λ cells. cells ≡ []) }
    {
        Ok(Cells {
            numbers: Vec::with_capacity(alloc, count)?,
            short: Vec::with_capacity(alloc, count)?,
            jumps: Vec::new(alloc),
            rising: true,
        })
    }

    // How many there are.
    pub(crate) fn len(&self) -> usize
        ensures value { result ≡ length self.now }
        ensures bound { AreUpTo greatest_listed self.now }
    {
        self.numbers.len()
    }

    // How many places have another number than the place before.
    pub(crate) fn jump_count(&self) -> usize {
        self.jumps.len()
    }

    // The date at a place, Early past them.
    pub(crate) fn date(&self, place: usize) -> Date
        ensures { result ≡ value_listed self.now place }
    {
        let numbers = self.numbers.as_slice();
        if place < numbers.len() {
            return date_of(numbers[place]);
        }
        Date::Early
    }

    // Adds a date behind the others.
    pub(crate) fn push(&mut self, date: Date) -> Result<(), AllocError>
        requires { IsMagnitudeUpTo greatest_listed date }
        ensures { IfOk result (λ _. self.new ≡ self.old ++ date ∷ []) }
    {
        let number = cell(date);
        push_jump(&mut self.jumps, self.numbers.as_slice(), number)?;
        self.rising = rises_with(self.rising, self.numbers.as_slice(), number);
        let whole = self.short.len() == self.numbers.len();
        self.numbers.push(number)?;
        if whole {
            return push_short(&mut self.short, date);
        }
        Ok(())
    }
}

// The dates of a list.
pub(crate) fn collected(alloc: Global, dates: &[Date]) -> Result<Cells, AllocError>
    requires { AreUpTo greatest_listed dates.now }
    ensures { IfOk result (λ cells. cells ≡ dates.now) }
{
    let mut cells = Cells::with_capacity(alloc, dates.len())?;
    for place in 0..dates.len() {
        cells.push(dates[place])?;
    }
    Ok(cells)
}

// The first dates of a list, Early past it.
pub(crate) fn dates_of(alloc: Global, cells: &Cells, size: usize) -> Result<Vec<Date>, AllocError>
    ensures value { IfOk result (λ dates. dates.items ≡ table (value_listed cells.now) size) }
    ensures bound { AreUpTo greatest_listed cells.now }
{
    let _size = cells.len();
    let mut dates = Vec::with_capacity(alloc, size)?;
    for place in 0..size {
        dates.push(cells.date(place))?;
    }
    Ok(dates)
}

// The conjugates of the dates of a list, the last one first.
pub(crate) fn conjugates_back(alloc: Global, dates: &[Date]) -> Result<Cells, AllocError>
    requires { AreUpTo greatest_listed dates.now }
    ensures { IfOk result (λ cells. conjugates_reversed cells ≡ dates.now) }
{
    let mut cells = Cells::with_capacity(alloc, dates.len())?;
    for place in 0..dates.len() {
        cells.push(conjugate(dates[dates.len() - 1 - place]))?;
    }
    Ok(cells)
}

// The splits of a shift whose first part is at one of `count` places from `from` on.
#[derive(Clone, Copy)]
struct SplitsAt {
    shift: usize,
    from: usize,
    count: usize,
}

// The number of the greatest sum of a number of the first list and one of the second.
fn greatest_long(first: &[i128], second: &[i128], at: SplitsAt) -> i128
    requires at { AreSplitsIn at (length first.now) (length second.now) }
    requires cells { AreCells first.now }
    requires others { AreCells second.now }
    ensures { date_of_far_cell result ≡ greatest_of at (map date_of_far_cell first.now)
        (map date_of_far_cell second.now) }
{
    let mut best = EARLY;
    for place in 0..at.count {
        let sum = first[at.from + place] + second[at.shift - (at.from + place)];
        best = best.max(sum);
    }
    best
}

// The same of numbers of eight bytes.
fn greatest_short(first: &[i64], second: &[i64], at: SplitsAt) -> i64
    requires at { AreSplitsIn at (length first.now) (length second.now) }
    requires cells { AreShort first.now }
    requires others { AreShort second.now }
    ensures { date_of_short_cell result ≡ greatest_of at (map date_of_short_cell first.now)
        (map date_of_short_cell second.now) }
{
    let mut best = SHORT_EARLY;
    for place in 0..at.count {
        let sum = first[at.from + place] + second[at.shift - (at.from + place)];
        best = best.max(sum);
    }
    best
}

// The same by the first place and the jumps of the first list, where the second never falls: a
// place with the number of the place before has no greater sum.
fn greatest_by_jumps(first: &[i128], jumps: &[usize], second: &[i128], at: SplitsAt) -> i128
    requires at { AreSplitsIn at (length first.now) (length second.now) }
    requires some { 0 < at.count }
    requires cells { AreCells first.now }
    requires others { AreCells second.now }
    requires jumps { AreJumps jumps.now first.now }
    requires rising { AreRising second.now }
    ensures { date_of_far_cell result ≡ greatest_of at (map date_of_far_cell first.now)
        (map date_of_far_cell second.now) }
{
    let mut best = first[at.from] + second[at.shift - at.from];
    for index in 0..jumps.len() {
        let place = jumps[index];
        if at.from < place && place - at.from < at.count {
            best = best.max(first[place] + second[at.shift - place]);
        }
    }
    best
}

// How many places are gone through in the time of a jump.
const PLACES_A_JUMP: usize = 4;

// The greatest sum of a date of the first list at `count` places from `from` on and a date of the
// second, their places adding up to `shift`. Early for no place.
pub(crate) fn greatest_split(
    first: &Cells,
    second: &Cells,
    shift: usize,
    from: usize,
    count: usize,
) -> Date
    requires first { from + count ≤ length first.now }
    requires splits { count ≤ shift + 1 - from }
    requires second { shift < length second.now }
    ensures value { result ≡ greatest_from (split_of (value_listed first.now) (value_listed
        second.now) shift)
        from count }
    ensures bound { IsMagnitudeUpTo far result }
{
    let at = SplitsAt { shift, from, count };
    let jumps = first.jumps.as_slice();
    if second.rising && jumps.len() < count / PLACES_A_JUMP {
        let numbers = first.numbers.as_slice();
        let others = second.numbers.as_slice();
        return date_of(greatest_by_jumps(numbers, jumps, others, at));
    }
    let numbers = first.short.as_slice();
    let others = second.short.as_slice();
    if from + count <= numbers.len() && shift < others.len() {
        return date_of_short(greatest_short(numbers, others, at));
    }
    let numbers = first.numbers.as_slice();
    let others = second.numbers.as_slice();
    date_of(greatest_long(numbers, others, at))
}
