//! The releases of a transition: its planned departures with their delays, none before an earlier
//! one.
ghost use Rattle.std.specs.Prelude.{ℕ, ◌≡◌, ◌≤◌, ◌<◌, ◌+◌, ◌*◌, ◌∷◌, [], None, length, IfOk, slice_index_or};
ghost use Rattle.delay_laws.specs.PlannedTimetables.{IsDelayOf, IsPastDelays, greatest_delay};
ghost use Rattle.timetable_files.specs.Departures.{or_second};
ghost use Rattle.release_nets.specs.DelaysByNumber.{given_in, most_releases};
ghost use Rattle.release_nets.specs.ReleaseNetsBuilt.{AreBuilt, ArePlannedReleases};

use crate::planned::Planned;
use delay_laws::{Delay, Timetable};
use std::alloc::{AllocError, Global};

// How many periods are as long as the delay.
fn periods_for(planned: &Planned<'_>, by: u64) -> u64
    requires { by ≤ greatest_delay }
    ensures enough { by ≤ planned.now.period * result }
    ensures few { result ≤ by }
{
    (by + planned.period - 1) / planned.period
}

// A number that is past this delay too.
fn past_delay(planned: &Planned<'_>, last: u64, delay: &Delay) -> u64
    requires delay { IsDelayOf planned.now.net.now delay.now }
    requires few { last ≤ most_releases }
    ensures rises { last ≤ result }
    ensures few { result ≤ most_releases }
    ensures past { planned.now.period * delay.now.number + delay.now.by
        ≤ planned.now.period * result }
{
    let own = u64::from(delay.number) + periods_for(planned, delay.by);
    own.max(last)
}

// A number at which the departures of the transition are past its delays: from there on they are
// released as they are planned.
pub(crate) fn number_past(planned: &Planned<'_>, transition: u32) -> u64
    ensures some { 1 ≤ result }
    ensures few { result ≤ most_releases }
    ensures past { IsPastDelays planned.now.period planned.now.table.now transition result }
{
    let mut last = 1;
    for delay in &planned.table.delays {
        if delay.transition.index == transition {
            last = past_delay(planned, last, delay);
        }
    }
    last
}

// Takes down the delay at its number, if it is one of this transition and none is there.
fn take_down(cells: &mut Vec<Option<u64>>, transition: u32, delay: &Delay)
    ensures long { length cells.new.items ≡ length cells.old.items }
    ensures each { (s : ℕ) → s < length cells.old.items → slice_index_or cells.new.items s None
        ≡ or_second (slice_index_or cells.old.items s None)
        (given_in (delay.now ∷ []) transition (s + 1)) }
{
    let number = delay.number as usize;
    if delay.transition.index == transition && 1 <= number && number <= cells.len() {
        if cells[number - 1].is_none() {
            cells[number - 1] = Some(delay.by);
        }
    }
}

// The delays that are given for the first `count` departures of the transition, where one is.
fn given(
    alloc: Global,
    table: &Timetable,
    transition: u32,
    count: usize,
) -> Result<Vec<Option<u64>>, AllocError>
    ensures { IfOk result (λ cells. AreBuilt (λ s by. by
        ≡ given_in table.now.delays.items transition (s + 1)) count cells.items) }
{
    let mut cells = vec![in alloc; None; count]?;
    for delay in &table.delays {
        take_down(&mut cells, transition, delay);
    }
    Ok(cells)
}

// The releases of the first `count` departures of the transition.
pub(crate) fn releases(
    alloc: Global,
    planned: &Planned<'_>,
    transition: u32,
    count: usize,
) -> Result<Vec<u64>, AllocError>
    requires transition { transition < length planned.now.net.now.transitions }
    requires few { count ≤ most_releases }
    ensures { IfOk result (λ dates. ArePlannedReleases planned.now.period planned.now.table.now
        transition count dates.items) }
{
    let given = given(alloc, planned.table, transition, count)?;
    let first = planned.table.firsts[transition as usize];
    let mut dates = Vec::new(alloc);
    let mut latest = 0;
    for index in 0..count {
        let by = given[index].unwrap_or(0);
        let date = first + planned.period * (index as u64) + by;
        latest = date.max(latest);
        dates.push(latest)?;
    }
    Ok(dates)
}
