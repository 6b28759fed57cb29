//! Whether the potentials of a part are those of a certificate.
ghost use Rattle.std.specs.Prelude.{◌≡◌, ◌↔◌, ◌<◌, ◌≤◌, ◌*◌, ◌+ℤ◌, ◌-ℤ◌, ◌≤ℤ◌, ◌^◌, ℕ, ℤ, pos, All, AllPairs, IsTrue, length};
ghost use Rattle.teg_net.specs.Limits.{greatest_hold, most_place_tokens, greatest_checked_potential};
ghost use Rattle.teg_net.specs.Parts.{IsMember};
ghost use Rattle.teg_net.specs.ReducedTimes.{IsMagnitudeWithin};
ghost use Rattle.teg_net.specs.Certificates.{potential_at, ArePotentials};
ghost use Rattle.teg_net.specs.Ratios.{IsRatioWithin};
ghost use Rattle.teg_certificates.specs.Checks.{HasPotentialTold, TellsMembers, KeepsPotential, FitsPotentials};

use crate::inner_places::{Part, is_inner};
use teg_net::{Place, Potential, Ratio};

// The greatest magnitude of a potential in an answer that is checked.
pub(crate) const GREATEST_CHECKED_POTENTIAL: i128 = 1_000_000_000_000_000_000;

// Whether the transition has the part's number.
fn is_member(part_of: &[u32], part: usize, transition: usize) -> bool
    ensures { IsTrue result ↔ IsMember part_of.now part transition }
{
    transition < part_of.len() && part_of[transition] as usize == part
}

// Whether the first potential is of a lower numbered transition than the second.
fn is_before(first: Potential, second: Potential) -> bool
    ensures { IsTrue result ↔ (first.transition.index < second.transition.index) }
{
    first.transition.index < second.transition.index
}

// Whether the potentials stand in order of transition.
fn in_order(potentials: &[Potential]) -> bool
    ensures { IsTrue result ↔ AllPairs (λ v w. v.transition.index < w.transition.index)
        potentials.now }
{
    for next in 1..potentials.len() {
        if !is_before(potentials[next - 1], potentials[next]) {
            return false;
        }
    }
    true
}

// Whether each potential is of a member of the part.
fn only_members(part_of: &[u32], part: usize, potentials: &[Potential]) -> bool
    ensures { IsTrue result ↔ All (λ v. IsMember part_of.now part v.transition.index)
        potentials.now }
{
    potentials.iter().all(|told| is_member(part_of, part, told.transition.index as usize))
}

// Whether a potential is told of the transition.
fn is_told(potentials: &[Potential], transition: usize) -> bool
    ensures { IsTrue result ↔ HasPotentialTold potentials.now transition }
{
    potentials
        .iter()
        .any(|told| told.transition.index as usize == transition)
}

// Whether a potential is told of the transition, if that is a member of the part.
fn is_told_member(part_of: &[u32], part: usize, potentials: &[Potential], transition: usize) -> bool
    ensures { IsTrue result ↔ (IsMember part_of.now part transition
        → HasPotentialTold potentials.now transition) }
{
    if !is_member(part_of, part, transition) {
        return true;
    }
    is_told(potentials, transition)
}

// Whether a potential is told of each member of the part.
fn all_members(part_of: &[u32], part: usize, potentials: &[Potential]) -> bool
    ensures { IsTrue result ↔ ((t : ℕ) → IsMember part_of.now part t → HasPotentialTold
        potentials.now t) }
{
    for transition in 0..part_of.len() {
        if !is_told_member(part_of, part, potentials, transition) {
            return false;
        }
    }
    true
}

// Whether a potential is told of each member of the part, in order, and of no other transition.
fn tells_members(part_of: &[u32], part: usize, potentials: &[Potential]) -> bool
    ensures { IsTrue result ↔ TellsMembers part_of.now part potentials.now }
{
    in_order(potentials)
        && only_members(part_of, part, potentials)
        && all_members(part_of, part, potentials)
}

// Whether the potentials keep their limit.
fn all_within(potentials: &[Potential]) -> bool
    ensures { IsTrue result ↔ All (λ v. IsMagnitudeWithin greatest_checked_potential v.value)
        potentials.now }
{
    potentials.iter().all(|told| {
        told.value >= -GREATEST_CHECKED_POTENTIAL && told.value <= GREATEST_CHECKED_POTENTIAL
    })
}

// The potential of a transition, 0 where none is told.
fn potential_of(potentials: &[Potential], transition: u32) -> i128
    requires { All (λ v. IsMagnitudeWithin greatest_checked_potential v.value) potentials.now }
    ensures value { result ≡ potential_at potentials.now transition }
    ensures within { IsMagnitudeWithin greatest_checked_potential result }
{
    for told in potentials {
        if told.transition.index == transition {
            return told.value;
        }
    }
    0
}

// What a place of this holding time and these tokens lifts its end to, where its start has the
// potential.
pub(crate) fn lifted(ratio: Ratio, hold: u64, tokens: u128, potential: i128) -> i128
    requires limits { IsRatioWithin ratio }
    requires hold { hold ≤ greatest_hold }
    requires tokens { tokens < 2 ^ 65 }
    requires within { IsMagnitudeWithin greatest_checked_potential potential }
    ensures { result ≡ ((pos (ratio.tokens * hold) -ℤ pos (ratio.time * tokens)) +ℤ potential) }
{
    let gain = u128::from(ratio.tokens()) * u128::from(hold);
    let loss = u128::from(ratio.time()) * tokens;
    gain as i128 - loss as i128 + potential
}

// Whether the first number is at most the second.
pub(crate) fn is_at_most(first: i128, second: i128) -> bool
    ensures { IsTrue result ↔ (first ≤ℤ second) }
{
    first <= second
}

// Whether the place, if it lies in the part, does not lift its end above the potential there.
fn keeps_potential(
    part_of: &[u32],
    part: usize,
    ratio: Ratio,
    potentials: &[Potential],
    place: &Place,
) -> bool
    requires ends { (place.now.from.index < length part_of.now)
        × (place.now.to.index < length part_of.now) }
    requires limits { IsRatioWithin ratio }
    requires place { (place.now.hold ≤ greatest_hold) × (place.now.tokens ≤ most_place_tokens) }
    requires within { All (λ v. IsMagnitudeWithin greatest_checked_potential v.value)
        potentials.now }
    ensures { IsTrue result ↔ KeepsPotential part_of.now part ratio potentials.now place.now }
{
    if !is_inner(part_of, part, place) {
        return true;
    }
    let from = potential_of(potentials, place.from.index);
    let to = potential_of(potentials, place.to.index);
    is_at_most(
        lifted(ratio, place.hold, u128::from(place.tokens), from),
        to,
    )
}

// Whether no place of the part lifts its end above the potential there.
fn all_keep_potentials(part: &Part, ratio: Ratio, potentials: &[Potential]) -> bool
    requires limits { IsRatioWithin ratio }
    requires within { All (λ v. IsMagnitudeWithin greatest_checked_potential v.value)
        potentials.now }
    ensures { IsTrue result ↔ ArePotentials part.now.net.now part.now.part_of.now
        part.now.number ratio potentials.now }
{
    for place in part.net.places() {
        if !keeps_potential(part.part_of, part.number, ratio, potentials, place) {
            return false;
        }
    }
    true
}

// Whether the potentials are those of the part's members, within limits, and no place of the part
// exceeds them.
pub(crate) fn potentials_fit(part: &Part, ratio: Ratio, potentials: &[Potential]) -> bool
    requires { IsRatioWithin ratio }
    ensures { IsTrue result ↔ FitsPotentials part.now.net.now part.now.part_of.now
        part.now.number ratio potentials.now }
{
    tells_members(part.part_of, part.number, potentials)
        && all_within(potentials)
        && all_keep_potentials(part, ratio, potentials)
}
