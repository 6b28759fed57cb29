//! Whether each firing of a period comes with the one before, or with a token from a transition
//! whose period divides its own.
ghost use Rattle.std.specs.Prelude.{ℕ, ◌≡◌, ◌+◌, ◌-◌, ◌<◌, ◌≤◌, All, IfOk, IsTrue};
ghost use Rattle.std.specs.Int.{◌∣◌};
ghost use Rattle.own_periods.specs.OwnRows.{AreMetIn, ComesWith, IsMetIn, IsPlaceIn, LeadsIn, period_in};

use crate::own_rows::OwnRows;
use crate::periods::{DatesOf, instant};
use std::alloc::{AllocError, Global};
use teg_net::{Place, TransitionId};

// Past which number firings are looked at.
const FIRST: u64 = 5_001;

// Whether the place leads to the transition from one whose period divides its own.
fn leads_in(of: &OwnRows<'_>, place: &Place, transition: TransitionId) -> bool
    requires place { IsPlaceIn of.now.rows.now place.now }
    requires transition { transition.index < of.now.rows.now.width }
    ensures end { IsTrue result → place.now.to.index ≡ transition.index }
    ensures divides { IsTrue result → period_in of.now.owns.now place.now.from.index ∣ period_in
        of.now.owns.now transition.index }
{
    if place.to.index != transition.index {
        return false;
    }
    let starts = of.owns[place.from.index()].period;
    let ends = of.owns[transition.index()].period;
    ends % starts == 0
}

// Such places.
fn leading_places(
    alloc: Global,
    of: &OwnRows<'_>,
    transition: TransitionId,
) -> Result<Vec<u32>, AllocError>
    requires transition { transition.index < of.now.rows.now.width }
    ensures { IfOk result (λ found. All (LeadsIn of.now.net.now of.now.owns.now transition.index)
        found.items) }
{
    // The net keeps its rules.
    of.net.rules();
    let places = of.net.places();
    let mut found = Vec::new(alloc);
    for index in 0..places.len() {
        if leads_in(of, &places[index], transition) {
            found.push(index as u32)?;
        }
    }
    Ok(found)
}

// Whether the firing comes with the token of the place.
fn comes_with(of: &OwnRows<'_>, place: &Place, transition: TransitionId, number: u64) -> bool
    requires place { IsPlaceIn of.now.rows.now place.now }
    requires transition { transition.index < of.now.rows.now.width }
    requires first { 5001 ≤ number }
    requires last { number ≤ 10000 }
    ensures { IsTrue result → ComesWith of.now.rows.now place.now transition.index number }
{
    let rows = of.rows;
    let starts = DatesOf {
        rows,
        transition: place.from,
    };
    let dates = DatesOf { rows, transition };
    let token = instant(starts, number - u64::from(place.tokens));
    instant(dates, number) == token + place.hold as i128
}

// Whether it comes with that of one of these places.
fn comes_with_any(of: &OwnRows<'_>, found: &[u32], transition: TransitionId, number: u64) -> bool
    requires transition { transition.index < of.now.rows.now.width }
    requires found { All (LeadsIn of.now.net.now of.now.owns.now transition.index) found.now }
    requires first { 5001 ≤ number }
    requires last { number ≤ 10000 }
    ensures { IsTrue result → IsMetIn of.now.net.now of.now.rows.now of.now.owns.now
        transition.index number }
{
    // The net keeps its rules.
    of.net.rules();
    let places = of.net.places();
    for index in found {
        if comes_with(of, &places[*index as usize], transition, number) {
            return true;
        }
    }
    false
}

// Whether it comes with the one before, or with that of one of these places.
fn is_met(of: &OwnRows<'_>, found: &[u32], transition: TransitionId, number: u64) -> bool
    requires transition { transition.index < of.now.rows.now.width }
    requires found { All (LeadsIn of.now.net.now of.now.owns.now transition.index) found.now }
    requires first { 5001 ≤ number }
    requires last { number ≤ 10000 }
    ensures { IsTrue result → IsMetIn of.now.net.now of.now.rows.now of.now.owns.now
        transition.index number }
{
    let rows = of.rows;
    let dates = DatesOf { rows, transition };
    instant(dates, number) == instant(dates, number - 1)
        || comes_with_any(of, found, transition, number)
}

// Whether each firing of a period past 5,000 does.
fn are_met(of: &OwnRows<'_>, found: &[u32], transition: TransitionId, period: u64) -> bool
    requires transition { transition.index < of.now.rows.now.width }
    requires found { All (LeadsIn of.now.net.now of.now.owns.now transition.index) found.now }
    requires period { period ≤ 4000 }
    ensures { IsTrue result → AreMetIn of.now.net.now of.now.rows.now of.now.owns.now
        transition.index period }
{
    for at in 0..period {
        if !is_met(of, found, transition, FIRST + at) {
            return false;
        }
    }
    true
}

// Whether those of each transition do.
pub(crate) fn all_met(alloc: Global, of: &OwnRows<'_>) -> Result<bool, AllocError>
    ensures { IfOk result (λ met. IsTrue met → (t : ℕ) → t < of.now.rows.now.width
        → AreMetIn of.now.net.now of.now.rows.now of.now.owns.now t (period_in of.now.owns.now t)) }
{
    // The table keeps its limits.
    let _count = of.rows.count();
    for index in 0..of.owns.len() {
        let id = TransitionId {
            index: index as u32,
        };
        let found = leading_places(alloc, of, id)?;
        if !are_met(of, &found, id, of.owns[index].period) {
            return Ok(false);
        }
    }
    Ok(true)
}
