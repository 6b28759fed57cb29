//! The lead of a series over steps, and the residual that it gives.
ghost use Rattle.std.specs.Prelude.{◌≡◌, ◌≤◌, Some, true, IfSome, IsTrue};
ghost use Rattle.std.specs.Int.RustNames.{unsigned_abs};
ghost use Rattle.dioid.specs.ElementAnswers.{Answers};
ghost use Rattle.series_laws.specs.SeriesForms.{size_of};
ghost use Rattle.series_form.specs.NumberBounds.{IsSmallDate};
ghost use Rattle.series_form.specs.SeriesLimits.{greatest_gain, greatest_value};
ghost use Rattle.series_ops.specs.Gains.{gain_left, LeftFits};
ghost use Rattle.steady_series.specs.Leads.{GainsNoMore, IsLeadMore, IsLeadOver, IsLeadTo, IsNumber};

use dioid::{Date, Refused, Residuated};
use series_form::{Series, Slopes, compare_slopes, gain_over, tail};
use series_ops::Gain;
use std::alloc::Global;

// The lead with one value more, of a series over what another one gains up to there.
fn lead_with(lead: Option<i128>, value: Date, gained: i128) -> Option<i128>
    requires value { IsSmallDate value }
    requires gained { unsigned_abs gained ≤ greatest_gain }
    ensures { IsLeadMore lead value gained result }
{
    let own = match value {
        Date::At(date) => date - gained,
        _ => return lead,
    };
    match lead {
        Some(lead) => Some(lead.max(own)),
        None => Some(own),
    }
}

// By how much a value of the list is later than the steps of a series that goes on from shift to
// shift, up to its shift, at most; none where none is a number.
pub(crate) fn lead_in_list(first: &Series, second: &Series) -> Option<i128>
    requires single { second.now.period ≡ 1 }
    ensures { IsLeadTo first.now second.now.step (size_of first.now) result }
{
    let values = first.values();
    let mut lead = None;
    for shift in 0..values.len() {
        lead = lead_with(lead, values[shift], gain_over(second, shift));
    }
    lead
}

// Whether a date is a number.
fn is_number(date: Date) -> bool
    ensures { IsTrue result → IsNumber date }
{
    match date {
        Date::At(_) => true,
        _ => false,
    }
}

// Whether the first series gains no more than the second in the long run.
fn gains_no_more(first: &Series, second: &Series) -> bool
    ensures { IsTrue result → GainsNoMore first.now second.now }
{
    match compare_slopes(first, second) {
        Slopes::First => false,
        _ => true,
    }
}

// The number, if there is one that a series may have.
fn within_range(number: Option<i128>) -> Option<i128>
    ensures same { IfSome result (λ told. number ≡ Some told) }
    ensures small { IfSome result (λ told. unsigned_abs told ≤ greatest_value) }
{
    let told = number?;
    if told > 1_000_000_000_000_000_000 || told < -1_000_000_000_000_000_000 {
        return None;
    }
    Some(told)
}

// By how much a series is later than the steps of a steady one, at most, if it has a number that a
// series may have.
fn lead_over(first: &Series, second: &Series) -> Option<i128>
    ensures lead { IfSome result (IsLeadOver first.now second.now) }
    ensures small { IfSome result (λ lead. unsigned_abs lead ≤ greatest_value) }
{
    if second.values().len() != 1 {
        return None;
    }
    if !is_number(tail(first)) {
        return None;
    }
    if !is_number(tail(second)) {
        return None;
    }
    if !gains_no_more(first, second) {
        return None;
    }
    within_range(lead_in_list(first, second))
}

/// The residual of the second series by the first (chapter 5), as `Gain::left` tells it: `Range`
/// comes exactly where it does not fit, `OutOfMemory` only where no memory is found. It takes time
/// of the order of the list of the first where the second rises by the same step from each shift to
/// the next, and the first no faster; else it is found by `Gain::left`.
pub fn left(alloc: Global, first: &Gain, second: &Gain) -> Result<Gain, Refused>
    ensures answer { Answers true (LeftFits first.now second.now) (gain_left first.now second.now)
        result }
{
    let lead = match lead_over(&first.series, &second.series) {
        Some(lead) => lead,
        None => return first.left(alloc, second),
    };
    match Series::constant(alloc, Date::At(lead)) {
        Ok(series) => Gain { series }.left(alloc, second),
        Err(_) => Err(Refused::OutOfMemory),
    }
}
