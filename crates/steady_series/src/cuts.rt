//! First values of a series that tell a residual, where the others are so much earlier that they
//! add nothing to it.
ghost use Rattle.std.specs.Prelude.{◌≡◌, ◌≤◌, ◌<◌, ◌+ℤ◌, ◌-ℤ◌, IfSome};
ghost use Rattle.std.specs.Int.{int_max};
ghost use Rattle.std.specs.Int.RustNames.{unsigned_abs};
ghost use Rattle.dioid.specs.declared.dates.Date.TheVariants.{At};
ghost use Rattle.series_laws.specs.SeriesForms.{size_of};
ghost use Rattle.series_form.specs.NumberBounds.{IsSmallDate};
ghost use Rattle.series_form.specs.SeriesLimits.{greatest_gain};
ghost use Rattle.steady_series.specs.Cuts.{IsCut, IsDrop, IsNotAbove, IsPlaceOf, IsToldOf, IsUnder};

use crate::leads::lead_in_list;
use dioid::{Date, Refused, Residuated};
use series_form::{Series, SeriesRefused, gain_over, start, tail};
use series_ops::Gain;
use std::alloc::Global;

// By how much a value is later than what is gained up to it, if it is a number.
fn own_lead(value: Date, gained: i128) -> Option<i128>
    requires value { IsSmallDate value }
    requires gained { unsigned_abs gained ≤ greatest_gain }
    ensures { IfSome result (λ own. value ≡ At (own +ℤ gained)) }
{
    match value {
        Date::At(date) => Some(date - gained),
        _ => None,
    }
}

// The greater of two numbers.
fn greater(first: i128, second: i128) -> i128
    ensures { result ≡ int_max first second }
{
    first.max(second)
}

// The drop with one value more, which is earlier than the one of the greatest lead so far.
fn drop_with(drop: i128, lead: i128, own: i128) -> Option<i128>
    ensures { IfSome result (λ more. more ≡ int_max drop (lead -ℤ own)) }
{
    match lead.checked_sub(own) {
        Some(less) => Some(drop.max(less)),
        None => None,
    }
}

// By how much a value of the list is earlier than one before it and the steps since, at most, if
// all are numbers and this can be told.
fn drop_in_list(second: &Series) -> Option<i128>
    requires single { second.now.period ≡ 1 }
    ensures { IfSome result (IsDrop second.now) }
{
    let values = second.values();
    let mut lead = match second.at(0) {
        Date::At(date) => date,
        _ => return None,
    };
    let mut drop: i128 = 0;
    for shift in 0..values.len() {
        let own = own_lead(values[shift], gain_over(second, shift))?;
        lead = greater(lead, own);
        drop = drop_with(drop, lead, own)?;
    }
    Some(drop)
}

// The place of the first value in the list that is later than the steps up to it by just the lead.
fn place_of(first: &Series, second: &Series, lead: i128) -> Option<usize>
    requires single { second.now.period ≡ 1 }
    ensures { IfSome result (IsPlaceOf first.now second.now.step lead) }
{
    let values = first.values();
    for shift in 0..values.len() {
        if let Some(own) = own_lead(values[shift], gain_over(second, shift)) {
            if own == lead {
                return Some(shift);
            }
        }
    }
    None
}

// Whether a value is later than what is gained up to it by more than the level.
fn is_above(value: Date, gained: i128, level: i128) -> bool
    requires value { IsSmallDate value }
    requires gained { unsigned_abs gained ≤ greatest_gain }
    ensures { IsNotAbove value gained level result }
{
    match value {
        Date::At(date) => date - gained > level,
        _ => false,
    }
}

// How many values of the list there are up to the last that is later than the steps up to it by
// more than the level.
fn count_above(first: &Series, second: &Series, level: i128) -> usize
    requires single { second.now.period ≡ 1 }
    ensures within { result ≤ size_of first.now }
    ensures under { IsUnder first.now second.now.step result (size_of first.now) level }
{
    let values = first.values();
    let count = values.len();
    for passed in 0..count {
        let shift = count - 1 - passed;
        if is_above(values[shift], gain_over(second, shift), level) {
            return shift + 1;
        }
    }
    0
}

// What is less than the lead by the drop, if it can be told.
fn level_of(lead: i128, drop: i128) -> Option<i128>
    ensures { IfSome result (λ level. level ≡ lead -ℤ drop) }
{
    lead.checked_sub(drop)
}

// How many of the first values of a series tell its residual, if they are known to.
fn cut_of(first: &Series, second: &Series) -> Option<usize>
    ensures { IfSome result (IsCut first.now second.now) }
{
    if second.period() != 1 {
        return None;
    }
    if second.values().len() + first.period() > 20_001 {
        return None;
    }
    if first.step() > gain_over(second, first.period()) {
        return None;
    }
    match tail(first) {
        Date::At(_) => {}
        _ => return None,
    }
    let lead = lead_in_list(first, second)?;
    let place = place_of(first, second, lead)?;
    let drop = drop_in_list(second)?;
    let level = level_of(lead, drop)?;
    let count = count_above(first, second, level).max(place + 1);
    if count > start(first) {
        return None;
    }
    Some(count)
}

/// The residual of the second series by the first (chapter 5), as `Gain::left` tells it, where the
/// second goes on from shift to shift, and few of the first values of the first are known to tell
/// it: where all after them are earlier than one of them and the steps of the second since, by as
/// much as the second ever falls behind its steps. Else none. Refuses for want of memory
/// alone. Where it tells none it takes time of the order of the two lists.
pub fn left_by_first(alloc: Global, first: &Gain, second: &Gain) -> Result<Option<Gain>, Refused>
    ensures { IsToldOf first.now second.now result }
{
    let count = match cut_of(&first.series, &second.series) {
        Some(count) => count,
        None => return Ok(None),
    };
    let values = first.series.values();
    let cut = match Series::from_list(alloc, &values[..count], 1, 0) {
        Ok(series) => Gain { series },
        Err(SeriesRefused::OutOfMemory) => return Err(Refused::OutOfMemory),
        Err(_) => return Ok(None),
    };
    match cut.left(alloc, second) {
        Ok(residual) => Ok(Some(residual)),
        Err(Refused::OutOfMemory) => Err(Refused::OutOfMemory),
        Err(Refused::Range) => Ok(None),
    }
}
