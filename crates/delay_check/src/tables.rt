//! Whether a timetable keeps the rules of a net's timetables, in one step a delay.
ghost use Rattle.std.specs.Prelude.{◌≡◌, ◌≢◌, ◌≤◌, ◌↔◌, All, AllPairs, IfOk, IsTrue};
ghost use Rattle.delay_laws.specs.PlannedTimetables.{IsDelayOf, IsTableOf, greatest_departure};

use csv_records::{GREATEST_SEEN_NUMBER, Seen};
use delay_laws::{Delay, Timetable};
use std::alloc::Global;
use teg_net::{Net, OutOfMemory};

// The greatest first departure.
const GREATEST_DEPARTURE: u64 = 1_000_000_000;

// The greatest delay.
const GREATEST_DELAY: u64 = 50_000;

// Whether the delay is of a transition of the net, and its numbers keep their limits.
fn is_delay_of(net: &Net, delay: &Delay) -> bool
    ensures { IsTrue result ↔ IsDelayOf net.now delay.now }
{
    net.contains_transition(delay.transition)
        && 1 <= delay.number
        && delay.number <= GREATEST_SEEN_NUMBER
        && 1 <= delay.by
        && delay.by <= GREATEST_DELAY
}

// Whether each first departure keeps its limit.
fn are_departures(firsts: &[u64]) -> bool
    ensures { IsTrue result ↔ All (λ f. f ≤ greatest_departure) firsts.now }
{
    firsts.iter().all(|first| *first <= GREATEST_DEPARTURE)
}

// Whether no two delays are of one departure: each departure is seen once.
fn are_once(alloc: Global, net: &Net, delays: &[Delay]) -> Result<bool, OutOfMemory>
    requires { All (IsDelayOf net.now) delays.now }
    ensures { IfOk result (λ yes. IsTrue yes ↔ AllPairs (λ c d.
        c.transition.index ≡ d.transition.index → c.number ≢ d.number) delays.now) }
{
    net.rules();
    let Ok(mut seen) = Seen::new(alloc, net.transitions().len()) else {
        return Err(OutOfMemory);
    };
    for index in 0..delays.len() {
        let column = delays[index].transition.index as usize;
        let number = delays[index].number;
        if seen.has(column, number) {
            return Ok(false);
        }
        seen.add(column, number);
    }
    Ok(true)
}

// Whether the timetable is one of the net. It takes 10,001 bytes for each transition, and a step a
// transition and a delay.
pub(crate) fn is_table(alloc: Global, net: &Net, table: &Timetable) -> Result<bool, OutOfMemory>
    ensures { IfOk result (λ yes. IsTrue yes ↔ IsTableOf net.now table.now) }
{
    if table.firsts.len() != net.transitions().len() || !are_departures(&table.firsts) {
        return Ok(false);
    }
    if !table.delays.iter().all(|delay| is_delay_of(net, delay)) {
        return Ok(false);
    }
    let once = are_once(alloc, net, &table.delays)?;
    Ok(once)
}
