//! How late transitions are at some number, by the delays that are given and the places that pass
//! them on.
ghost use Rattle.std.specs.Prelude.{◌≡◌, ◌+◌, ◌*◌, ◌<◌, ◌⊎◌, IfOk, IfSome, length};
ghost use Rattle.teg_net.specs.Circuits.{place_at};
ghost use Rattle.delay_laws.specs.PlannedTimetables.{IsTableOf, first_planned};
ghost use Rattle.delay_check.specs.ShownDelays.{AreSomewhereLeft, IsSomewhereLeft};

use delay_laws::{Timetable, paths_pass_delays_on};
use std::alloc::{AllocError, Global};
use teg_net::{Net, PlaceId, TransitionId};

// The greater of two delays.
fn greater(late: u64, other: u64) -> u64
    ensures { (result ≡ late) ⊎ (result ≡ other) }
{
    if late < other { other } else { late }
}

// Raises what is left at the transition to this delay, and tells whether it rose.
fn raise(
    net: &Net,
    period: u64,
    table: &Timetable,
    left: &mut [u64],
    at: TransitionId,
    late: u64,
) -> bool
    requires at { at.index < length net.now.transitions }
    requires late { IsSomewhereLeft net.now period table.now at.index late }
    requires left { AreSomewhereLeft net.now period table.now left.old }
    ensures { AreSomewhereLeft net.now period table.now left.new }
{
    let index = at.index as usize;
    let own = left[index];
    left[index] = greater(own, late);
    own < late
}

// Raises what is left at the transition of this delay of the timetable to the delay.
fn take(net: &Net, period: u64, table: &Timetable, left: &mut [u64], index: usize)
    requires table { IsTableOf net.now table.now }
    requires index { index < length table.now.delays.items }
    requires left { AreSomewhereLeft net.now period table.now left.old }
    ensures { AreSomewhereLeft net.now period table.now left.new }
{
    paths_pass_delays_on();
    let delay = &table.delays[index];
    raise(net, period, table, left, delay.transition, delay.by);
}

// Raises what is left at each transition to what the timetable gives there.
fn take_given(net: &Net, period: u64, table: &Timetable, left: &mut [u64])
    requires table { IsTableOf net.now table.now }
    requires left { AreSomewhereLeft net.now period table.now left.old }
    ensures { AreSomewhereLeft net.now period table.now left.new }
{
    for index in 0..table.delays.len() {
        take(net, period, table, left, index);
    }
}

// What is left at the end of a place where so much is left at its start: what its spare time does
// not take.
fn rest(net: &Net, period: u64, table: &Timetable, place: PlaceId, late: u64) -> Option<u64>
    requires table { IsTableOf net.now table.now }
    requires place { place.index < length net.now.places }
    ensures { IfSome result (λ rest. rest
        + (first_planned table.now (place_at net.now place).to.index
        + period * (place_at net.now place).tokens)
        ≡ (first_planned table.now (place_at net.now place).from.index
        + (place_at net.now place).hold) + late) }
{
    net.rules();
    let own = &net.places()[place.index as usize];
    let begun = table.firsts[own.from.index as usize] + own.hold;
    let reached = u128::from(begun) + u128::from(late);
    let given = u128::from(period).checked_mul(u128::from(own.tokens))?;
    let planned = u128::from(table.firsts[own.to.index as usize]).checked_add(given)?;
    let rest = reached.checked_sub(planned)?;
    u64::try_from(rest).ok()
}

// The end of the place, and what is left there by what is left at its start.
fn passed(
    net: &Net,
    period: u64,
    table: &Timetable,
    left: &[u64],
    place: PlaceId,
) -> Option<(TransitionId, u64)>
    requires table { IsTableOf net.now table.now }
    requires place { place.index < length net.now.places }
    requires left { AreSomewhereLeft net.now period table.now left.now }
    ensures end { IfSome result (λ end. end.0.index < length net.now.transitions) }
    ensures late { IfSome result (λ end. IsSomewhereLeft net.now period table.now end.0.index
        end.1) }
{
    net.rules();
    let own = &net.places()[place.index as usize];
    let rest = rest(net, period, table, place, left[own.from.index as usize])?;
    Some((own.to, rest))
}

// Raises what is left at the end of the place to what it passes on, and tells whether it rose.
fn pass(net: &Net, period: u64, table: &Timetable, left: &mut [u64], place: PlaceId) -> bool
    requires table { IsTableOf net.now table.now }
    requires place { place.index < length net.now.places }
    requires left { AreSomewhereLeft net.now period table.now left.old }
    ensures { AreSomewhereLeft net.now period table.now left.new }
{
    match passed(net, period, table, left, place) {
        Some((to, late)) => raise(net, period, table, left, to, late),
        None => false,
    }
}

// Does so at each place, and tells whether something rose.
fn pass_all(net: &Net, period: u64, table: &Timetable, left: &mut [u64]) -> bool
    requires table { IsTableOf net.now table.now }
    requires left { AreSomewhereLeft net.now period table.now left.old }
    ensures { AreSomewhereLeft net.now period table.now left.new }
{
    let mut rose = false;
    for index in 0..net.places().len() {
        let here = pass(net, period, table, left, PlaceId::new(index as u32));
        rose = rose | here;
    }
    rose
}

// For each transition a delay that is left there at some number. It takes memory for them, and time
// of the order transitions times places, with the number of delays.
pub(crate) fn left_somewhere(
    alloc: Global,
    net: &Net,
    period: u64,
    table: &Timetable,
) -> Result<Vec<u64>, AllocError>
    requires { IsTableOf net.now table.now }
    ensures { IfOk result (λ left. AreSomewhereLeft net.now period table.now left.items) }
{
    let count = net.transitions().len();
    let mut left = vec![in alloc; 0u64; count]?;
    take_given(net, period, table, &mut left);
    for _ in 0..count {
        if !pass_all(net, period, table, &mut left) {
            break;
        }
    }
    Ok(left)
}
