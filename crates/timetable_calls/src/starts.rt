//! The least departures that the ready dates of initial tokens allow, in parts of the unit, of which
//! `scale` make one.
ghost use Rattle.std.specs.Prelude.{ℕ, ◌≡◌, ◌≤◌, ◌<◌, ◌+◌, ◌-◌, ◌*◌, length, slice_index, All, IfOk};
ghost use Rattle.teg_net.specs.Limits.{greatest_input_date, most_target_tokens};
ghost use Rattle.teg_net.specs.Nets.{IsNet};
ghost use Rattle.timetable_calls.specs.Departures.{IsMoved, AreStarts};

use std::alloc::{AllocError, Global};
use teg_net::Net;

// The date less so many periods, and not below 0.
pub(crate) fn periods_before(date: u64, period: u64, count: u64) -> u64
    ensures { result ≡ date - period * count }
{
    date.saturating_sub(period.saturating_mul(count))
}

// Moves a departure to the date, if it is earlier.
pub(crate) fn move_to(firsts: &mut Vec<u64>, at: usize, date: u64)
    requires { at < length firsts.old.items }
    ensures { IsMoved firsts.old.items at date firsts.new.items }
{
    if firsts[at] < date {
        firsts[at] = date;
    }
}

// The least date from which departures, one in each period, are not before the ready dates.
fn first_ready(scale: u64, period: u64, ready: &[u64]) -> u64
    requires parts { scale ≤ most_target_tokens }
    requires dates { All (λ d. d ≤ greatest_input_date) ready.now }
    ensures late { (k : ℕ) → k < length ready.now → scale * slice_index ready.now k
        ≤ result + period * k }
    ensures least { (d : ℕ) → ((k : ℕ) → k < length ready.now → scale * slice_index ready.now k
        ≤ d + period * k) → result ≤ d }
{
    let mut first = 0;
    for (index, date) in ready.iter().enumerate() {
        let least = periods_before(scale * *date, period, index as u64);
        if first < least {
            first = least;
        }
    }
    first
}

// The least departures that ready dates allow.
pub(crate) fn starts(
    alloc: Global,
    net: &Net,
    scale: u64,
    period: u64,
) -> Result<Vec<u64>, AllocError>
    requires parts { scale ≤ most_target_tokens }
    ensures starts { IfOk result (λ firsts. AreStarts net.now scale period greatest_input_date
        (length net.now.places) firsts.items) }
    ensures rules { IfOk result (λ _. IsNet net.now) }
{
    let mut firsts = vec![in alloc; 0u64; net.transitions().len()]?;
    for (index, place) in net.places().iter().enumerate() {
        let _index = index;
        let first = first_ready(scale, period, place.ready.as_slice());
        move_to(&mut firsts, place.to.index as usize, first);
    }
    Ok(firsts)
}
