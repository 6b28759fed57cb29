//! Transitions whose places lead on alike, but that from one all places are held so much longer
//! than from the other: then walks take so much longer, too.
ghost use Rattle.std.specs.Prelude.{ℤ, ◌≡◌, ◌<◌, ◌≤◌, ◌↔◌, ◌⊎◌, ◌+ℤ◌, ◌-ℤ◌, pos, All, FitsSigned, IfSome, IsTrue, None, length};
ghost use Rattle.std.specs.Int.{w128};
ghost use Rattle.std.specs.Int.RustNames.{unsigned_abs};
ghost use Rattle.teg_net.specs.Circuits.{place_at};
ghost use Rattle.teg_net.specs.Limits.{greatest_hold};
ghost use Rattle.teg_lags.specs.Lags.{AreLagged, AreLeaving, HasHeldLonger, HasHold, IsHeldLonger};

use teg_net::{GREATEST_HOLD, Net, Place, PlaceId, PlacesOf, TransitionId};

// By how much the second holding time is longer.
fn longer_by(first: u64, other: u64) -> i128
    ensures value { pos other ≡ pos first +ℤ result }
    ensures back { FitsSigned w128 (pos 0 -ℤ result) }
{
    i128::from(other) - i128::from(first)
}

// Whether the second place has the end and the tokens of the first, and is held so much longer.
fn is_held_longer(first: &Place, other: &Place, lag: i128) -> bool
    ensures { IsTrue result ↔ IsHeldLonger lag first.now other.now }
{
    other.to.index == first.to.index
        && other.tokens == first.tokens
        && longer_by(first.hold, other.hold) == lag
}

// The place of this number.
fn place_of(net: &Net, place: PlaceId) -> &Place
    requires { place.index < length net.now.places }
    ensures { result.now ≡ place_at net.now place }
{
    &net.places()[place.index as usize]
}

// Whether one of these places has the end and the tokens of this one, and is held so much longer.
fn has_held_longer(net: &Net, place: &Place, others: &[PlaceId], lag: i128) -> bool
    requires { All (λ q. q.index < length net.now.places) others.now }
    ensures { IsTrue result ↔ HasHeldLonger net.now lag others.now place.now }
{
    for other in others {
        if is_held_longer(place, place_of(net, *other), lag) {
            return true;
        }
    }
    false
}

// Whether to each of these places there is such a one among the others.
fn lead_longer(net: &Net, firsts: &[PlaceId], others: &[PlaceId], lag: i128) -> bool
    requires firsts { All (λ p. p.index < length net.now.places) firsts.now }
    requires others { All (λ q. q.index < length net.now.places) others.now }
    ensures { IsTrue result
        ↔ All (λ p. HasHeldLonger net.now lag others.now (place_at net.now p)) firsts.now }
{
    for first in firsts {
        if !has_held_longer(net, place_of(net, *first), others, lag) {
            return false;
        }
    }
    true
}

// The least holding time of these places; the greatest of any net where there are none.
fn least_hold(net: &Net, places: &[PlaceId]) -> u64
    requires { All (λ p. p.index < length net.now.places) places.now }
    ensures small { result ≤ greatest_hold }
    ensures least { All (λ p. result ≤ (place_at net.now p).hold) places.now }
    ensures attained { (result ≡ greatest_hold) ⊎ HasHold net.now places.now result }
{
    let mut least = GREATEST_HOLD;
    for place in places {
        least = least.min(place_of(net, *place).hold);
    }
    least
}

/// By how much longer all places are held that leave the second transition than those that leave
/// the first, in the user's unit, where they lead on alike but for that: for each place that leaves
/// one there is one that leaves the other, to the same transition and with the same tokens, and
/// held so much longer, or shorter the other way round. Then walks from an input take so much
/// longer than the walks from another ([`lagged_times_are_moved`](crate::lagged_times_are_moved);
/// chapter 5). None exactly where they lead on alike by no lag; where no place leaves either, they
/// do by every one.
///
/// `leaving` lists the places that leave each transition. It takes no memory, and time of order `p
/// q` for p places that leave the one and q that leave the other.
#[tactic(auto, using(crate::proofs::Lagged::known_places, crate::proofs::Lagged::lists_lagged))]
pub fn lag_between(
    net: &Net,
    leaving: &PlacesOf,
    first: TransitionId,
    other: TransitionId,
) -> Option<i128>
    requires leaving { AreLeaving net.now leaving.now }
    requires first { first.index < length net.now.transitions }
    requires other { other.index < length net.now.transitions }
    ensures lagged { IfSome result (AreLagged net.now first.index other.index) }
    ensures small { IfSome result (λ lag. unsigned_abs lag ≤ greatest_hold) }
    ensures none { (result ≡ None)
        ↔ ((lag : ℤ) → AreLagged net.now first.index other.index lag → ⊥) }
{
    net.rules();
    let firsts = leaving.of(first);
    let others = leaving.of(other);
    let lag = longer_by(least_hold(net, firsts), least_hold(net, others));
    if lead_longer(net, firsts, others, lag) && lead_longer(net, others, firsts, 0 - lag) {
        Some(lag)
    } else {
        None
    }
}
