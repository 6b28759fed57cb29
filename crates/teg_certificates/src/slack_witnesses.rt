//! What shows the slack of a place: that it is critical, that its hold may rise by so much and no
//! more, or that no circuit passes it (chapters 2 and 3).
ghost use Rattle.std.specs.Prelude.{◌≡◌, ◌↔◌, ◌<◌, ◌≤◌, ◌+◌, ◌*◌, ◌^◌, ◌-ℤ◌, pos, All, IsSomeAnd, IsTrue, length, slice_index};
ghost use Rattle.teg_net.specs.declared.entries.PlaceId.{PlaceId};
ghost use Rattle.teg_net.specs.Limits.{greatest_circuit_time, most_circuit_tokens, greatest_hold, most_place_tokens, greatest_checked_potential};
ghost use Rattle.teg_net.specs.Ratios.{IsRatioWithin};
ghost use Rattle.teg_net.specs.Circuits.{IsCircuit, place_at, from_of, time_of, tokens_of};
ghost use Rattle.teg_net.specs.Parts.{to_of};
ghost use Rattle.teg_net.specs.ReducedTimes.{IsMagnitudeWithin};
ghost use Rattle.teg_certificates.specs.BestRatios.{best_ratio_of};
ghost use Rattle.teg_certificates.specs.SlackWitnesses.{IsCriticalCircuit, IsAboveWhenRaised, gain_at, LiftsNoneWith, AreRisePotentials, IsRiseShown, RiseAtPlace};

use crate::best_ratios::best_ratio;
use crate::certificate::{is_within, never_fall};
use crate::potentials::{is_at_most, lifted};
use crate::sizes::{all_within, contains};
use crate::sums::{CircuitSums, attains, circuit_sums};
use teg_net::{Circuit, CycleAnswer, Net, Place, PlaceId, Ratio, is_circuit};

/// What shows that the hold of a place may rise by so much, in the user's unit, and no more: a
/// circuit that passes the place, which one more makes too slow, and potentials, one for each
/// transition in order, in the user's unit times the tokens of the greatest ratio.
#[derive(Debug, Drop)]
pub struct RiseWitness {
    pub by: u64,
    pub circuit: Circuit,
    pub potentials: Vec<i128>,
}

// Whether the places are a circuit that passes the place and has the ratio.
fn is_critical_circuit(net: &Net, ratio: Ratio, place: PlaceId, circuit: &[PlaceId]) -> bool
    ensures { IsTrue result ↔ IsCriticalCircuit net.now ratio place circuit.now }
{
    is_circuit(net, circuit) && contains(circuit, place) && attains(net, ratio, circuit)
}

/// Whether the places are a circuit that passes the place and has the ratio of the best part of the
/// answer (chapters 2 and 3). Where `check_cycle` is true of the answer, that ratio is the greatest
/// of the net, so that the place is critical: some circuit of the greatest ratio passes it, by the
/// law `critical_circuits_tell`. It takes no memory, and time of the order of the pairs of places
/// of the circuit.
pub fn shows_critical(net: &Net, answer: &CycleAnswer, place: PlaceId, circuit: &[PlaceId]) -> bool
    ensures { IsTrue result ↔ IsSomeAnd (best_ratio_of answer.now) (λ r. IsCriticalCircuit net.now
        r place circuit.now) }
{
    match best_ratio(answer) {
        None => false,
        Some(best) => is_critical_circuit(net, best, place, circuit),
    }
}

// Whether the sums are above the ratio where the time is longer by so much.
fn are_above(ratio: Ratio, longer: u128, sums: CircuitSums) -> bool
    requires limits { IsRatioWithin ratio }
    requires longer { longer ≤ 2 ^ 64 }
    requires time { sums.time ≤ greatest_circuit_time }
    requires tokens { sums.tokens ≤ most_circuit_tokens }
    ensures { IsTrue result ↔ (ratio.time * sums.tokens < (sums.time + longer) * ratio.tokens) }
{
    u128::from(ratio.time()) * sums.tokens < (sums.time + longer) * u128::from(ratio.tokens())
}

// Whether the circuit is above the ratio where its time is longer by so much.
fn circuit_is_above(net: &Net, ratio: Ratio, longer: u128, circuit: &[PlaceId]) -> bool
    requires limits { IsRatioWithin ratio }
    requires longer { longer ≤ 2 ^ 64 }
    requires circuit { IsCircuit net.now circuit.now }
    ensures { IsTrue result ↔ (ratio.time * tokens_of net.now circuit.now
        < (time_of net.now circuit.now + longer) * ratio.tokens) }
{
    are_above(ratio, longer, circuit_sums(net, circuit))
}

// Whether the places are a circuit that passes the place and is above the ratio where the hold of
// the place is longer by so much and one.
fn is_beyond(net: &Net, ratio: Ratio, place: PlaceId, by: u64, circuit: &[PlaceId]) -> bool
    requires { IsRatioWithin ratio }
    ensures { IsTrue result ↔ IsAboveWhenRaised net.now ratio place (by + 1) circuit.now }
{
    is_circuit(net, circuit)
        && contains(circuit, place)
        && circuit_is_above(net, ratio, u128::from(by) + 1, circuit)
}

// What the reduced time of the place of this number gains where the hold of one place rises by so
// much.
fn gain_at(ratio: Ratio, place: PlaceId, by: u64, number: usize) -> u128
    requires { IsRatioWithin ratio }
    ensures value { result ≡ gain_at ratio place by (record { index = number }) }
    ensures small { result ≤ 2 ^ 104 }
{
    if number == place.index as usize {
        (u128::from(ratio.tokens()) * u128::from(by)).max(1)
    } else {
        0
    }
}

// The potential, less the gain.
fn lowered(potential: i128, gain: u128) -> i128
    requires within { IsMagnitudeWithin greatest_checked_potential potential }
    requires gain { gain ≤ 2 ^ 104 }
    ensures { result ≡ potential -ℤ pos gain }
{
    potential - gain as i128
}

// Whether the place, with this gain, does not lift its end above the potential there.
fn lifts_none(ratio: Ratio, potentials: &[i128], gain: u128, place: &Place) -> bool
    requires ends { (place.now.from.index < length potentials.now)
        × (place.now.to.index < length potentials.now) }
    requires limits { IsRatioWithin ratio }
    requires place { (place.now.hold ≤ greatest_hold) × (place.now.tokens ≤ most_place_tokens) }
    requires within { All (IsMagnitudeWithin greatest_checked_potential) potentials.now }
    requires gain { gain ≤ 2 ^ 104 }
    ensures { IsTrue result ↔ LiftsNoneWith ratio potentials.now gain place.now }
{
    let from = potentials[place.from.index as usize];
    let to = potentials[place.to.index as usize];
    is_at_most(
        lifted(ratio, place.hold, u128::from(place.tokens), from),
        lowered(to, gain),
    )
}

// Whether no place lifts its end above the potential there, where the hold of one is longer by so
// much.
fn none_lifts(net: &Net, ratio: Ratio, place: PlaceId, by: u64, potentials: &[i128]) -> bool
    requires count { length potentials.now ≡ length net.now.transitions }
    requires limits { IsRatioWithin ratio }
    requires within { All (IsMagnitudeWithin greatest_checked_potential) potentials.now }
    ensures { IsTrue result ↔ ((q : PlaceId) → q.index < length net.now.places
        → LiftsNoneWith ratio potentials.now (gain_at ratio place by q) (place_at net.now q)) }
{
    for (number, own) in net.places().iter().enumerate() {
        if !lifts_none(ratio, potentials, gain_at(ratio, place, by, number), own) {
            return false;
        }
    }
    true
}

// Whether the potentials, one for each transition, are within limits and no place lifts its end
// above the potential there, where the hold of one is longer by so much.
fn are_potentials(net: &Net, ratio: Ratio, place: PlaceId, by: u64, potentials: &[i128]) -> bool
    ensures { IsTrue result ↔ AreRisePotentials net.now ratio place by potentials.now }
{
    is_within(ratio)
        && potentials.len() == net.transitions().len()
        && all_within(potentials)
        && none_lifts(net, ratio, place, by, potentials)
}

// Whether the potentials show that the hold of the place may rise, and the circuit that it may rise
// no further.
fn is_rise_shown(net: &Net, ratio: Ratio, place: PlaceId, rise: &RiseWitness) -> bool
    ensures { IsTrue result ↔ IsRiseShown net.now ratio place rise.now.by
        rise.now.circuit.places.items rise.now.potentials.items }
{
    are_potentials(net, ratio, place, rise.by, &rise.potentials)
        && is_beyond(net, ratio, place, rise.by, &rise.circuit.places)
}

/// Whether it is shown that the hold of the place may rise by so much, and by no more, so that the
/// net keeps its greatest ratio, and that the place is not critical (chapters 2 and 3). The ratio
/// is that of the best part of the answer, the greatest where `check_cycle` is true of the answer.
///
/// With a/b that ratio, of time and tokens of at most 10^12, each potential is of magnitude at most
/// 10^18, and each place with holding time h and m tokens lifts the potential of its start by
/// b h - a m to no more than the potential of its end, this place by b times the rise further, and
/// by 1 at least: by the law `rise_potentials_tell` no circuit that passes the place is then above
/// the ratio, and as it is each is below. The circuit passes the place and is above the ratio where
/// the hold is longer by the rise and one. That both together tell the slack is the law
/// `witnesses_tell_slacks` of `teg_critical`. It takes no memory, and time of the order of the
/// places and the pairs of places of the circuit.
pub fn shows_rise(net: &Net, answer: &CycleAnswer, place: PlaceId, rise: &RiseWitness) -> bool
    ensures { IsTrue result ↔ IsSomeAnd (best_ratio_of answer.now) (λ r. IsRiseShown net.now r
        place rise.now.by rise.now.circuit.places.items rise.now.potentials.items) }
{
    match best_ratio(answer) {
        None => false,
        Some(best) => is_rise_shown(net, best, place, rise),
    }
}

// Whether the place is one of the net, and its end has a greater number than its start.
fn rises_here(net: &Net, numbers: &[u32], place: PlaceId) -> bool
    requires { length numbers.now ≡ length net.now.transitions }
    ensures { IsTrue result ↔ ((place.index < length net.now.places)
        × (slice_index numbers.now (from_of net.now place)
        < slice_index numbers.now (to_of net.now place))) }
{
    let own = net.places();
    let index = place.index as usize;
    if own.len() <= index {
        return false;
    }
    numbers[own[index].from.index as usize] < numbers[own[index].to.index as usize]
}

/// Whether there is one number for each transition, the numbers never fall along a place, and they
/// rise along this one, which shows that no circuit passes it, by the law
/// `rising_numbers_show_no_circuit` (chapter 2). The numbers of parts of an answer on cycle times
/// are such where the ends of the place lie in two parts. It takes no memory, and time of the order
/// of the places.
pub fn shows_no_circuit(net: &Net, numbers: &[u32], place: PlaceId) -> bool
    ensures { IsTrue result ↔ RiseAtPlace net.now numbers.now place }
{
    numbers.len() == net.transitions().len()
        && never_fall(net, numbers)
        && rises_here(net, numbers, place)
}
