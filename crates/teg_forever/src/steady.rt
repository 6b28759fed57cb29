//! Residuals of steady due series, of those that rise by the same step from each firing to the
//! next: by how much walk times are later than these steps, at most, tells them.
ghost use Rattle.std.specs.Prelude.{◌≡◌, ◌<◌, ◌≤◌, ◌≤ℤ◌, ◌+ℤ◌, ◌-ℤ◌, IfSome, IsTrue, Some, length};
ghost use Rattle.std.specs.Int.RustNames.{unsigned_abs};
ghost use Rattle.dioid.specs.declared.dates.Date.TheVariants.{At};
ghost use Rattle.forever_laws.specs.series_laws.Periodic.{times};
ghost use Rattle.forever_laws.specs.series_laws.SeriesForms.{form_with, repeat_start, size_of, value_at};
ghost use Rattle.series_form.specs.SeriesLimits.{greatest_value};
ghost use Rattle.steady_series.specs.Leads.{IsLeadBelow, IsLeadMore, IsLeadOver};
ghost use Rattle.teg_forever.specs.SteadyRows.{HasForm, IsToldLeft, IsWalkList, IsWalkTo};

use crate::asked::InputRows;
use dioid::{Date, Refused, Residuated};
use forever_laws::{forms_are_series, series_fit};
use series_form::{Series, gain_over, tail};
use series_ops::Gain;
use std::alloc::Global;
use std::marker::Model;
use teg_net::TransitionId;

// Walk times: a list that goes on by a period and a step. Contracts see the form.
#[derive(Drop)]
struct WalkList<'a> {
    values: &'a [Date],
    period: usize,
    step: i128,
}

impl<'a> Model for WalkList<'a> {
    ghost use Rattle.forever_laws.specs.series_laws.SeriesForms.{Form, form_with};
    ghost use Rattle.teg_forever.specs.SteadyRows.{IsWalkList};

    ghost Value = { Form };

    ghost view = { λ l. form_with l.values.now l.period l.step };

    ghost invariant = { λ l. IsWalkList (form_with l.values.now l.period l.step) };
}

impl<'a> WalkList<'a> {
    // The list of these values, which goes on so.
    fn new(values: &'a [Date], period: usize, step: i128) -> WalkList<'a>
        requires { IsWalkList (form_with values.now period step) }
        ensures { result ≡ form_with values.now period step }
    {
        WalkList {
            values,
            period,
            step,
        }
    }

    // The number of values in the list.
    fn size(&self) -> usize
        ensures value { result ≡ size_of self.now }
        ensures few { result ≤ 20000 }
    {
        self.values.len()
    }

    // The place from which the values repeat.
    fn start(&self) -> usize
        ensures value { result ≡ repeat_start self.now }
        ensures within { result < size_of self.now }
        ensures few { result ≤ 20000 }
    {
        self.values.len() - self.period
    }

    // The value at a place of the list.
    fn value(&self, place: usize) -> Date
        requires place { place < size_of self.now }
        requires few { place ≤ 20000 }
        ensures { result ≡ value_at self.now place }
    {
        self.values[place]
    }

    // Whether the values rise no more in a period than the steps of a steady series.
    fn gains_no_more(&self, second: &Series) -> bool
        requires { size_of second.now ≡ 1 }
        ensures slow { IsTrue result → self.now.step ≤ℤ times self.now.period second.now.step }
        ensures list { IsWalkList self.now }
    {
        self.step <= gain_over(second, self.period)
    }
}

// By how much a date is later than what is gained, if this can be told.
fn later_by(date: i128, gained: i128) -> Option<i128>
    ensures { IfSome result (λ own. own ≡ date -ℤ gained) }
{
    date.checked_sub(gained)
}

// By how much the value at which the list begins to repeat is later than the steps of a steady
// series up to its place, if it is a number and this can be told.
fn tail_lead(list: &WalkList<'_>, second: &Series) -> Option<i128>
    requires { size_of second.now ≡ 1 }
    ensures { IfSome result (λ lead. value_at list.now (repeat_start list.now)
        ≡ At (lead +ℤ times (repeat_start list.now) second.now.step)) }
{
    let start = list.start();
    match list.value(start) {
        Date::At(date) => later_by(date, gain_over(second, start)),
        _ => None,
    }
}

// The lead with one value more, if it can be told.
fn lead_with(lead: i128, value: Date, gained: i128) -> Option<i128>
    ensures { IfSome result (λ more. IsLeadMore (Some lead) value gained (Some more)) }
{
    match value {
        Date::At(date) => match date.checked_sub(gained) {
            Some(own) => Some(lead.max(own)),
            None => None,
        },
        _ => Some(lead),
    }
}

// What is gained with one step more, if this can be told.
fn gained_with(gained: i128, step: i128) -> Option<i128>
    ensures { IfSome result (λ more. more ≡ gained +ℤ step) }
{
    gained.checked_add(step)
}

// By how much the values of the list are later than the steps of a steady series up to their
// places, at most, if this can be told; begun with the value at which the list begins to repeat.
fn lead_in_list(list: &WalkList<'_>, second: &Series, tail: i128) -> Option<i128>
    requires steady { size_of second.now ≡ 1 }
    requires tail { value_at list.now (repeat_start list.now)
        ≡ At (tail +ℤ times (repeat_start list.now) second.now.step) }
    ensures { IfSome result (IsLeadBelow list.now second.now.step (size_of list.now)) }
{
    let step = second.step();
    let mut lead = tail;
    let mut gained: i128 = 0;
    for place in 0..list.size() {
        lead = lead_with(lead, list.value(place), gained)?;
        gained = gained_with(gained, step)?;
    }
    Some(lead)
}

// By how much the values of a list are later than the steps of a steady series, at most, if this is
// a number that a series may have.
fn lead_over(list: &WalkList<'_>, second: &Series) -> Option<i128>
    ensures lead { IfSome result (IsLeadOver list.now second.now) }
    ensures small { IfSome result (λ lead. unsigned_abs lead ≤ greatest_value) }
{
    if second.values().len() != 1 || !list.gains_no_more(second) {
        return None;
    }
    match tail(second) {
        Date::At(_) => {}
        _ => return None,
    }
    let lead = lead_in_list(list, second, tail_lead(list, second)?)?;
    if lead > 1_000_000_000_000_000_000 || lead < -1_000_000_000_000_000_000 {
        return None;
    }
    Some(lead)
}

// The residual of a due series by the series of a list of walk times, if the lead of these tells
// it.
fn left_by_lead(alloc: Global, list: &WalkList<'_>, due: &Gain) -> Result<Option<Gain>, Refused>
    ensures { IsToldLeft (HasForm list.now) due.now result }
{
    let lead = match lead_over(list, &due.series) {
        Some(lead) => lead,
        None => return Ok(None),
    };
    let first = match Series::constant(alloc, Date::At(lead)) {
        Ok(series) => Gain { series },
        Err(_) => return Err(Refused::OutOfMemory),
    };
    match first.left(alloc, due) {
        Ok(residual) => Ok(Some(residual)),
        Err(why) => Err(why),
    }
}

// The residual of a due series by the series of the walk times from the input to a transition, if
// their lead tells it.
pub(crate) fn walk_residual(
    alloc: Global,
    asked: &InputRows<'_>,
    transition: TransitionId,
    due: &Gain,
) -> Result<Option<Gain>, Refused>
    requires { transition.index < length asked.now.net.transitions }
    ensures { IsToldLeft (IsWalkTo asked.now.net asked.now.input.index transition.index) due.now
        result }
{
    forms_are_series();
    series_fit();
    let settled = asked.settled();
    let row = match settled.row(alloc, transition) {
        Ok(row) => row,
        Err(_) => return Err(Refused::OutOfMemory),
    };
    let (period, step) = (settled.period() as usize, settled.step(transition));
    let list = WalkList::new(row.as_slice(), period, step);
    left_by_lead(alloc, &list, due)
}
