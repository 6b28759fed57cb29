//! Residuals of due series by walk series: each pair that takes long is divided once, as long as
//! there is room to keep what came of it.
ghost use Rattle.std.specs.Prelude.{◌≡◌, ◌<◌, All, None, Some, get_or, length, IfErr, IfOk, IfSome, IsTrue, OnOk};
ghost use Rattle.forever_laws.specs.SeriesColumns.{IsDueSeries};
ghost use Rattle.teg_forever.specs.LateFirings.{IsGoingRow};
ghost use Rattle.teg_forever.specs.Divisions.{AreAlike, AreDivisions, AreFirstsTo, AreSteadyTo, IsAlikeAt, IsKeptIn, IsMisfit, IsDividedAt, StandsAt};

use crate::gains::due_gain;
use dioid::{Dioid, Refused};
use endless_due::EndlessRow;
use series_ops::Gain;
use std::alloc::{AllocError, Global};
use steady_series::{left, left_by_first};
use teg_net::OutOfMemory;

// The values of series that are kept, at most: 96 MB, and one pair more.
const MOST_KEPT: usize = 3_000_000;

// As how many values a pair counts beside those of its series, so that there are few to look
// through.
const PAIR: usize = 1_500;

// The residual of the due series of a row by a walk series.
#[derive(Drop)]
struct Divided {
    // The place of the row.
    due: usize,
    walk: Gain,
    residual: Gain,
}

// The residuals that are kept of the due series of rows by walk series.
#[derive(Drop)]
pub(crate) struct Divisions {
    // For each row the place of the first that asks the same dates.
    firsts: Vec<usize>,
    list: Vec<Divided>,
    // The values of the series that stay in the list.
    values: usize,
    // Whether the last in the list gives way to the next.
    passing: bool,
    // Of each row the due series, where it is steady.
    steady: Vec<Option<Gain>>,
}

// Whether two rows ask the same dates.
fn are_alike(first: &EndlessRow, second: &EndlessRow) -> bool
    ensures { IsTrue result → AreAlike first.now second.now }
{
    first.every == second.every
        && first.gap == second.gap
        && first.dates.as_slice() == second.dates.as_slice()
}

// The place of the first row that asks the same dates as the row at this place.
fn first_alike(rows: &[EndlessRow], place: usize) -> usize
    requires { place < length rows.now }
    ensures { IsAlikeAt rows.now place result }
{
    for index in 0..place {
        if are_alike(&rows[place], &rows[index]) {
            return index;
        }
    }
    place
}

// For each row the place of the first that asks the same dates.
fn firsts_of(alloc: Global, rows: &[EndlessRow]) -> Result<Vec<usize>, AllocError>
    ensures { IfOk result (λ firsts. AreFirstsTo rows.now (length rows.now) firsts.items) }
{
    let mut firsts = Vec::new(alloc);
    for place in 0..rows.len() {
        firsts.push(first_alike(rows, place))?;
    }
    Ok(firsts)
}

// The due series of a row, where it is steady: of one value and a step.
fn steady_due(alloc: Global, row: &EndlessRow) -> Result<Option<Gain>, OutOfMemory>
    requires { IsGoingRow row.now }
    ensures { IfOk result (λ told. IfSome told (λ due. IsDueSeries row.now due.series)) }
{
    let due = due_gain(alloc, row)?;
    if due.series.values().len() == 1 {
        Ok(Some(due))
    } else {
        Ok(None)
    }
}

// For each row its due series, where it is steady.
fn steady_dues(alloc: Global, rows: &[EndlessRow]) -> Result<Vec<Option<Gain>>, OutOfMemory>
    requires { All IsGoingRow rows.now }
    ensures { IfOk result (λ list. AreSteadyTo rows.now (length rows.now) list.items) }
{
    let mut list = Vec::new(alloc);
    for place in 0..rows.len() {
        let told = steady_due(alloc, &rows[place])?;
        list.push(told)?;
    }
    Ok(list)
}

impl Divisions {
    // No residuals yet.
    pub(crate) fn new(alloc: Global, rows: &[EndlessRow]) -> Result<Divisions, OutOfMemory>
        requires { All IsGoingRow rows.now }
        ensures { IfOk result (AreDivisions rows.now) }
    {
        let firsts = firsts_of(alloc, rows)?;
        let steady = steady_dues(alloc, rows)?;
        Ok(Divisions {
            firsts,
            list: Vec::new(alloc),
            values: 0,
            passing: false,
            steady,
        })
    }

    // The due series of the row at this place, where it is steady.
    pub(crate) fn steady(&self, place: usize) -> Option<&Gain>
        requires { place < length self.now.steady.items }
        ensures { IfSome result (λ due. get_or self.now.steady.items place None ≡ Some due.now) }
    {
        match &self.steady[place] {
            Some(due) => Some(due),
            None => None,
        }
    }

    // The place of the first row that asks the same dates as the row at this place.
    pub(crate) fn first(&self, place: usize) -> usize
        requires { place < length self.now.firsts.items }
        ensures { result ≡ get_or self.now.firsts.items place 0 }
    {
        self.firsts[place]
    }

    // The residual that stands at this place.
    pub(crate) fn residual(&self, place: usize) -> &Gain
        requires { place < length self.now.list.items }
        ensures { StandsAt self.now.list.items place result.now }
    {
        &self.list[place].residual
    }

    // The place of the residual of this due series by this walk series, where it is kept. The last
    // are looked at first: rows of one input ask for them.
    fn place_of(&self, due: usize, walk: &Gain) -> Option<usize>
        ensures { IfSome result (IsDividedAt self.now.list.items due walk.now) }
    {
        let count = self.list.len();
        for back in 0..count {
            let place = count - 1 - back;
            if self.list[place].due == due && self.list[place].walk.same(walk) {
                return Some(place);
            }
        }
        None
    }

    // Keeps one more, till the next one comes where there is no room, or where it need not `stay`.
    fn keep(&mut self, divided: Divided, stay: bool) -> Result<usize, Refused>
        ensures firsts { self.new.firsts.items ≡ self.old.firsts.items }
        ensures steady { self.new.steady.items ≡ self.old.steady.items }
        ensures kept { IfOk result (IsKeptIn self.old.list.items divided self.new.list.items) }
        ensures memory { IfErr result (λ e. e ≡ Refused.OutOfMemory) }
    {
        let (mut before, mut values) = (self.list.len(), self.values);
        if self.passing {
            before = before.saturating_sub(1);
        }
        let stays = stay && values < MOST_KEPT;
        if stays {
            let more = divided.walk.series.values().len() + divided.residual.series.values().len();
            values = values.saturating_add(PAIR + more);
        }
        self.values = values;
        self.passing = !stays;
        self.list.truncate(before);
        if self.list.push(divided).is_err() {
            return Err(Refused::OutOfMemory);
        }
        Ok(self.list.len() - 1)
    }

    // The place of the residual of the due series of the row at `due` by a walk series. `Range`
    // comes exactly where it does not fit.
    pub(crate) fn divide(
        &mut self,
        alloc: Global,
        rows: &[EndlessRow],
        due: usize,
        walk: Gain,
    ) -> Result<usize, Refused>
        requires rows { All IsGoingRow rows.now }
        requires due { due < length rows.now }
        requires divisions { AreDivisions rows.now self.old }
        ensures divisions { OnOk result (AreDivisions rows.now self.new) }
        ensures place { IfOk result (IsDividedAt self.new.list.items due walk) }
        ensures misfit { IfErr result (IsMisfit rows.now due walk) }
    {
        if let Some(place) = self.place_of(due, &walk) {
            return Ok(place);
        }
        let asked = match due_gain(alloc, &rows[due]) {
            Ok(asked) => asked,
            Err(_) => return Err(Refused::OutOfMemory),
        };
        match left_by_first(alloc, &walk, &asked) {
            Ok(Some(residual)) => return self.keep(
                Divided {
                    due,
                    walk,
                    residual,
                },
                false,
            ),
            Ok(None) => {}
            Err(why) => return Err(why),
        }
        match left(alloc, &walk, &asked) {
            Ok(residual) => self.keep(
                Divided {
                    due,
                    walk,
                    residual,
                },
                true,
            ),
            Err(why) => Err(why),
        }
    }
}
