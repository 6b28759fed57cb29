//! Whether rows of dates are those of latest dates that some inputs keep (chapter 5).
ghost use Rattle.std.specs.Prelude.{ℕ, ◌≡◌, ◌≤◌, ◌<◌, ◌↔◌, All, Option, IfOk, IsTrue, length};
ghost use Rattle.teg_net.specs.Circuits.{IsLive, place_at};
ghost use Rattle.teg_net.specs.Limits.{greatest_firing_number};
ghost use Rattle.teg_due.specs.RowRules.{IsDueOf};
ghost use Rattle.due_laws.specs.MeetingDueDates.{AreLatestInputs};
ghost use Rattle.dating_certificates.specs.CheckedRows.{date_up_to};
ghost use Rattle.latest_certificates.specs.LatestRows.{ListsDues};
ghost use Rattle.latest_certificates.specs.PlanRows.{AreLocalPlanRows, ArePlanRows};
ghost use Rattle.latest_certificates.specs.ToldStarts.{IsFromZero, IsTokenKept, KeepsStarts};

use crate::latest::check_latest;
use crate::solved_rows::is_at_most;
use dating_certificates::ToldRows;
use dioid::Date;
use std::alloc::Global;
use teg_due::Due;
use teg_net::{FiringNumber, Net, OutOfMemory, PlaceId};

// Whether no date of this number is before 0.
fn is_from_zero(told: &ToldRows<'_>, number: &FiringNumber) -> bool
    ensures { IsTrue result ↔ IsFromZero told.now number.now }
{
    let at = number.get();
    for index in 0..told.width() {
        if !is_at_most(Date::At(0), told.date(index, at)) {
            return false;
        }
    }
    true
}

// Whether this firing of the end of the place, where it takes an initial token, does not come
// before the token is ready.
fn keeps_token(told: &ToldRows<'_>, place: PlaceId, number: &FiringNumber) -> bool
    requires place { place.index < length told.now.net.places }
    ensures { IsTrue result ↔ IsTokenKept told.now number.now (place_at told.now.net place) }
{
    let at = number.get();
    let own = &told.net().places()[place.index()];
    if at > u64::from(own.tokens) {
        return true;
    }
    let ready = told.net().ready(place, at as u32);
    is_at_most(Date::At(i128::from(ready)), told.date(own.to.index(), at))
}

// Whether so it is at all places.
fn keeps_tokens(told: &ToldRows<'_>, number: &FiringNumber) -> bool
    ensures { IsTrue result ↔ All (IsTokenKept told.now number.now) told.now.net.places }
{
    for index in 0..told.places().len() {
        if !keeps_token(told, PlaceId::new(index as u32), number) {
            return false;
        }
    }
    true
}

// Whether no date of this number is before the start of its firing.
fn keeps_starts(told: &ToldRows<'_>, number: &FiringNumber) -> bool
    ensures { IsTrue result ↔ KeepsStarts told.now number.now }
{
    is_from_zero(told, number) && keeps_tokens(told, number)
}

// Whether so it is of these numbers.
fn keep_starts(told: &ToldRows<'_>, numbers: u64) -> bool
    requires few { numbers ≤ greatest_firing_number }
    ensures { IsTrue result ↔ ((k : ℕ) → 1 ≤ k → k ≤ numbers → KeepsStarts told.now k) }
{
    for before in 0..numbers {
        if !keeps_starts(told, &FiringNumber::new(before + 1)) {
            return false;
        }
    }
    true
}

/// Whether the dates, in the user's unit, are a plan: rows as [`check_latest`] takes them, of which
/// no date is before the start of its firing, 0 or the ready date of an initial token that it takes
/// (chapter 5).
///
/// In a live net it says yes just where they are its latest dates for these due dates and inputs at
/// 0 meet what is due (`plan`); then the dates at the inputs are the latest inputs that meet it
/// (`inputs`). It says no where `check_latest` does, and of latest dates that no inputs keep: a
/// firing due at 3 that takes a token which is ready at 5 has the latest date 3. It takes memory of
/// one flag for each transition, and time of order `n + p + r` a number for n transitions, p places
/// and r due dates.
pub fn check_plan(
    alloc: Global,
    net: &Net,
    due: &Due,
    numbers: u32,
    dates: &[Date],
) -> Result<bool, OutOfMemory>
    requires { IsDueOf net.now due.now.rows.items }
    ensures local { IfOk result (λ yes. (dues : ℕ → ℕ → Option ℕ)
        → ListsDues due.now.rows.items dues
        → (IsTrue yes ↔ AreLocalPlanRows net.now dues numbers dates.now)) }
    ensures plan { IsLive net.now → IfOk result (λ yes. (dues : ℕ → ℕ → Option ℕ)
        → ListsDues due.now.rows.items dues
        → (IsTrue yes ↔ ArePlanRows net.now dues numbers dates.now)) }
    ensures inputs { IsLive net.now → IfOk result (λ yes. (dues : ℕ → ℕ → Option ℕ)
        → ListsDues due.now.rows.items dues
        → IsTrue yes
        → AreLatestInputs net.now dues
        (date_up_to numbers (length net.now.transitions) dates.now)) }
{
    net.rules();
    if !check_latest(alloc, net, due, numbers, dates)? {
        return Ok(false);
    }
    let told = ToldRows::new(net, u64::from(numbers), dates);
    Ok(keep_starts(&told, u64::from(numbers)))
}
