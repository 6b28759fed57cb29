//! Whether a timetable keeps the rules of a net's timetables, tested when the program runs.
ghost use Rattle.std.specs.Prelude.{◌≡◌, ◌≢◌, ◌↔◌, ◌≤◌, All, AllPairs, Any, IsTrue};
ghost use Rattle.delay_laws.specs.PlannedTimetables.{IsDelayOf, IsTableOf, greatest_departure};

use crate::table::{Delay, Timetable};
use teg_net::{Net, TransitionId};

// The greatest first departure.
const GREATEST_DEPARTURE: u64 = 1_000_000_000;

// The greatest number of a departure that is delayed.
const GREATEST_DELAYED_NUMBER: u32 = 10_000;

// The greatest delay.
const GREATEST_DELAY: u64 = 50_000;

// Whether the delay is of a transition of the net, and its numbers keep their limits.
fn is_delay_of(net: &Net, delay: &Delay) -> bool
    ensures { IsTrue result ↔ IsDelayOf net.now delay.now }
{
    net.contains_transition(delay.transition)
        && 1 <= delay.number
        && delay.number <= GREATEST_DELAYED_NUMBER
        && 1 <= delay.by
        && delay.by <= GREATEST_DELAY
}

// Whether each first departure keeps its limit.
fn are_departures(firsts: &[u64]) -> bool
    ensures { IsTrue result ↔ All (λ f. f ≤ greatest_departure) firsts.now }
{
    firsts.iter().all(|first| *first <= GREATEST_DEPARTURE)
}

// Whether one of the delays is of this departure.
fn any_of_departure(delays: &[Delay], transition: TransitionId, number: u32) -> bool
    ensures { IsTrue result ↔ Any (λ d. (d.transition.index ≡ transition.index)
        × (d.number ≡ number)) delays.now }
{
    delays.iter().any(|delay| delay.transition.index == transition.index && delay.number == number)
}

// Whether no two delays are of the same departure.
fn are_distinct(delays: &[Delay]) -> bool
    ensures { IsTrue result ↔ AllPairs (λ c d. c.transition.index ≡ d.transition.index
        → c.number ≢ d.number) delays.now }
{
    for (index, delay) in delays.iter().enumerate() {
        if any_of_departure(&delays[index + 1..], delay.transition, delay.number) {
            return false;
        }
    }
    true
}

/// Whether the timetable keeps the rules of timetables of this net, as `spread` of `teg_timetable`
/// asks it: one first departure for each transition, in order, each at most 10^9 in the user's
/// unit; delays of transitions of the net, each of 1 to 50,000 at a departure from 1 to 10,000, and
/// no two of them of the same departure (chapters 2 and 3). It takes no memory, and a step a
/// transition and as many as the square of the number of delays.
pub fn is_table_of(net: &Net, table: &Timetable) -> bool
    ensures { IsTrue result ↔ IsTableOf net.now table.now }
{
    table.firsts.len() == net.transitions().len()
        && are_departures(&table.firsts)
        && table.delays.iter().all(|delay| is_delay_of(net, delay))
        && are_distinct(&table.delays)
}
