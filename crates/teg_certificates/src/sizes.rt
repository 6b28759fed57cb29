//! What shows that so many further tokens of a place are enough for a target ratio, or too few, or
//! that no number is enough (chapters 2 and 3).
ghost use Rattle.std.specs.Prelude.{◌≡◌, ◌↔◌, ◌<◌, ◌≤◌, ◌+◌, ◌*◌, All, Contains, IsTrue, length};
ghost use Rattle.teg_net.specs.declared.entries.PlaceId.{PlaceId};
ghost use Rattle.teg_net.specs.Limits.{greatest_circuit_time, most_circuit_tokens, greatest_hold, most_place_tokens, greatest_checked_potential};
ghost use Rattle.teg_net.specs.Ratios.{IsRatioWithin};
ghost use Rattle.teg_net.specs.Circuits.{IsCircuit, place_at, time_of, tokens_of};
ghost use Rattle.teg_net.specs.ReducedTimes.{IsMagnitudeWithin};
ghost use Rattle.teg_certificates.specs.Sizes.{IsEnough, IsStillAbove, IsAlwaysAbove, AreTargetPotentials, LiftsNone, extra_at};

use crate::certificate::is_within;
use crate::potentials::{GREATEST_CHECKED_POTENTIAL, is_at_most, lifted};
use crate::sums::{CircuitSums, circuit_sums};
use teg_net::{Net, Place, PlaceId, Ratio, is_circuit};

// Whether the place is one of these.
pub(crate) fn contains(places: &[PlaceId], place: PlaceId) -> bool
    ensures { IsTrue result ↔ Contains places.now place }
{
    places.iter().any(|id| id.index == place.index)
}

// Whether the ratio of the sums is above the target where there are so many extra tokens.
fn is_above(target: &Ratio, sums: CircuitSums, extra: u64) -> bool
    requires time { sums.time ≤ greatest_circuit_time }
    requires tokens { sums.tokens ≤ most_circuit_tokens }
    ensures { IsTrue result ↔ (target.now.time * (sums.tokens + extra)
        < sums.time * target.now.tokens) }
{
    let most = sums.time * u128::from(target.tokens());
    match u128::from(target.time()).checked_mul(sums.tokens + u128::from(extra)) {
        Some(needed) => needed < most,
        None => false,
    }
}

// Whether the circuit is above the target where it has so many extra tokens.
fn circuit_is_above(net: &Net, target: &Ratio, extra: u64, circuit: &[PlaceId]) -> bool
    requires { IsCircuit net.now circuit.now }
    ensures { IsTrue result ↔ (target.now.time * (tokens_of net.now circuit.now + extra)
        < time_of net.now circuit.now * target.now.tokens) }
{
    is_above(target, circuit_sums(net, circuit), extra)
}

/// Whether the places are a circuit that passes the place and is above the target though the place
/// has so many extra tokens, which shows that more are needed, by the law `still_above_shows_more`
/// (chapters 2 and 3). It takes no memory.
pub fn shows_too_few(
    net: &Net,
    target: &Ratio,
    place: PlaceId,
    extra: u64,
    circuit: &[PlaceId],
) -> bool
    ensures { IsTrue result ↔ IsStillAbove net.now target.now place extra circuit.now }
{
    is_circuit(net, circuit)
        && contains(circuit, place)
        && circuit_is_above(net, target, extra, circuit)
}

/// Whether the places are a circuit above the target that extra tokens of the place do not help,
/// since it avoids the place or the target is 0, which shows that no number of them is enough, by
/// the law `always_above_shows_none` (chapters 2 and 3). It takes no memory.
pub fn shows_never_enough(net: &Net, target: &Ratio, place: PlaceId, circuit: &[PlaceId]) -> bool
    ensures { IsTrue result ↔ IsAlwaysAbove net.now target.now place circuit.now }
{
    is_circuit(net, circuit)
        && (target.time() == 0 || !contains(circuit, place))
        && circuit_is_above(net, target, 0, circuit)
}

// Whether the potentials keep their limit.
pub(crate) fn all_within(potentials: &[i128]) -> bool
    ensures { IsTrue result ↔ All (IsMagnitudeWithin greatest_checked_potential) potentials.now }
{
    potentials.iter().all(|value| {
        *value >= -GREATEST_CHECKED_POTENTIAL && *value <= GREATEST_CHECKED_POTENTIAL
    })
}

// The extra tokens of the place of this number where one place has so many.
fn extra_at(place: PlaceId, extra: u64, number: usize) -> u64
    ensures { result ≡ extra_at place extra (record { index = number }) }
{
    if number == place.index as usize {
        extra
    } else {
        0
    }
}

// Whether the place, with so many extra tokens, does not lift its end above the potential there.
fn lifts_none(target: Ratio, potentials: &[i128], extra: u64, place: &Place) -> bool
    requires ends { (place.now.from.index < length potentials.now)
        × (place.now.to.index < length potentials.now) }
    requires limits { IsRatioWithin target }
    requires place { (place.now.hold ≤ greatest_hold) × (place.now.tokens ≤ most_place_tokens) }
    requires within { All (IsMagnitudeWithin greatest_checked_potential) potentials.now }
    ensures { IsTrue result ↔ LiftsNone target potentials.now extra place.now }
{
    let tokens = u128::from(place.tokens) + u128::from(extra);
    let from = potentials[place.from.index as usize];
    let to = potentials[place.to.index as usize];
    is_at_most(lifted(target, place.hold, tokens, from), to)
}

// Whether no place lifts its end above the potential there, where one has so many extra tokens.
fn none_lifts(net: &Net, target: Ratio, place: PlaceId, extra: u64, potentials: &[i128]) -> bool
    requires count { length potentials.now ≡ length net.now.transitions }
    requires limits { IsRatioWithin target }
    requires within { All (IsMagnitudeWithin greatest_checked_potential) potentials.now }
    ensures { IsTrue result ↔ ((q : PlaceId) → q.index < length net.now.places
        → LiftsNone target potentials.now (extra_at place extra q) (place_at net.now q)) }
{
    for (number, own) in net.places().iter().enumerate() {
        if !lifts_none(target, potentials, extra_at(place, extra, number), own) {
            return false;
        }
    }
    true
}

// Whether the potentials, one for each transition, are within limits and no place lifts its end
// above the potential there, where one has so many extra tokens.
fn are_potentials(net: &Net, target: Ratio, place: PlaceId, extra: u64, potentials: &[i128]) -> bool
    ensures { IsTrue result ↔ AreTargetPotentials net.now target place extra potentials.now }
{
    is_within(target)
        && potentials.len() == net.transitions().len()
        && all_within(potentials)
        && none_lifts(net, target, place, extra, potentials)
}

/// Whether the potentials, one for each transition, show that with so many extra tokens of the
/// place no circuit of the net is above the target (`IsEnough`, chapters 2 and 3).
///
/// They do where each place with holding time h and m tokens, the extra ones of its own among them,
/// lifts the potential of its start by b h - a m to no more than the potential of its end, with a/b
/// the target, whose time and tokens are at most 10^12. Each potential is of magnitude at most
/// 10^18. It takes no memory.
pub fn check_enough(
    net: &Net,
    target: &Ratio,
    place: PlaceId,
    extra: u64,
    potentials: &[i128],
) -> bool
    ensures potentials { IsTrue result ↔ AreTargetPotentials net.now target.now place extra
        potentials.now }
    ensures enough { IsTrue result → IsEnough net.now target.now place extra }
{
    are_potentials(net, *target, place, extra, potentials)
}
