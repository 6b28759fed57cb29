//! Whether rows of dates are those of the latest dates of a live net (chapter 5).
ghost use Rattle.std.specs.Prelude.{ℕ, ◌≡◌, ◌≤◌, ◌↔◌, Option, IfOk, IsTrue, length};
ghost use Rattle.teg_net.specs.Circuits.{IsLive};
ghost use Rattle.teg_net.specs.Limits.{greatest_firing_number};
ghost use Rattle.teg_due.specs.RowRules.{IsDueOf};
ghost use Rattle.latest_certificates.specs.LatestRows.{AreLatestRows, AreLocallyLatest, ListsDues};
ghost use Rattle.latest_certificates.specs.SolvedRows.{IsRowSolved};

use crate::solved_rows::{is_solved, keeps_rows};
use dating_certificates::{ToldRows, rows_of};
use dioid::Date;
use std::alloc::Global;
use teg_due::{Due, DueRow};
use teg_net::{FiringNumber, Net, OutOfMemory};

// Whether each date of these numbers is the least of what is ahead of it.
fn are_solved(told: &ToldRows<'_>, rows: &[DueRow], numbers: u64, met: &mut [bool]) -> bool
    requires due { IsDueOf told.now.net rows.now }
    requires few { numbers ≤ greatest_firing_number }
    requires full { length met.old ≡ length told.now.net.transitions }
    ensures { IsTrue result ↔ ((k : ℕ) → 1 ≤ k → k ≤ numbers → IsRowSolved told.now rows.now k) }
{
    for before in 0..numbers {
        if !is_solved(told, rows, &FiringNumber::new(before + 1), met) {
            return false;
        }
    }
    true
}

/// Whether the dates, in the user's unit, are whole rows from number 1 up to this number that solve
/// the backward equations (chapter 5): each date is the least of the due date of its firing, of the
/// date of the next number, and over the places out of its transition of the date at their end, so
/// many tokens on, less the hold; past the number all dates are `Never`. The rows stand one after
/// another, each with one date for each transition in order, `Never` for a firing that is free.
///
/// In a live net it says yes just where they are its latest dates for these due dates (`latest`),
/// which the rows of the list tell ([`due_rows_are_listed`](crate::due_rows_are_listed)). It says
/// no where the dates are no whole rows up to the number, where a firing past it is due, and where
/// a date is not the least of what is ahead. The input lists of the net play no part. It takes
/// memory of one flag for each transition, and time of order `n + p + r` a number for n
/// transitions, p places and r due dates.
pub fn check_latest(
    alloc: Global,
    net: &Net,
    due: &Due,
    numbers: u32,
    dates: &[Date],
) -> Result<bool, OutOfMemory>
    requires { IsDueOf net.now due.now.rows.items }
    ensures local { IfOk result (λ yes. (dues : ℕ → ℕ → Option ℕ)
        → ListsDues due.now.rows.items dues
        → (IsTrue yes ↔ AreLocallyLatest net.now dues numbers dates.now)) }
    ensures latest { IsLive net.now → IfOk result (λ yes. (dues : ℕ → ℕ → Option ℕ)
        → ListsDues due.now.rows.items dues
        → (IsTrue yes ↔ AreLatestRows net.now dues numbers dates.now)) }
{
    let width = net.transitions().len();
    let Some(rows) = rows_of(net, dates) else {
        return Ok(false);
    };
    if rows != u64::from(numbers) {
        return Ok(false);
    }
    let told = ToldRows::new(net, rows, dates);
    if !keeps_rows(&told, &due.rows) {
        return Ok(false);
    }
    let mut met = vec![in alloc; false; width]?;
    Ok(are_solved(&told, &due.rows, rows, &mut met))
}
