//! What places offer to their ends.
ghost use Rattle.std.specs.Prelude.{◌≡◌, ◌≢◌, ◌*◌, ◌<◌, ◌≤◌, ◌+ℤ◌, ◌-ℤ◌, pos, length, None};
ghost use Rattle.teg_net.specs.Circuits.{from_of};
ghost use Rattle.teg_net.specs.Parts.{to_of};
ghost use Rattle.teg_net.specs.ReducedTimes.{IsMagnitudeWithin};
ghost use Rattle.teg_net.specs.Limits.{greatest_scaled_potential, greatest_hold};
ghost use Rattle.policy_rounds.specs.Policies.{offer_of};
ghost use Rattle.teg_howard.specs.FoundCircuits.{value_held, potentials};
ghost use Rattle.policy_rounds.specs.PolicyLists.{IsCircuitRatio};

use teg_net::{Net, Place, PlaceId, Ratio};

// What a place offers to its end, where its start has the value.
fn offer(ratio: Ratio, place: &Place, value: i128) -> i128
    requires ratio { IsCircuitRatio ratio }
    requires hold { place.now.hold ≤ greatest_hold }
    requires tokens { place.now.tokens ≤ 1000 }
    requires within { IsMagnitudeWithin greatest_scaled_potential value }
    ensures { result ≡ (pos (ratio.tokens * place.now.hold) -ℤ pos (ratio.time * place.now.tokens)
        +ℤ value) }
{
    let gain = ratio.tokens() * place.hold;
    let loss = ratio.time() * place.tokens as u64;
    gain as i128 - loss as i128 + value
}

// The number of the transition that the place leaves.
pub(crate) fn start_of(net: &Net, id: PlaceId) -> usize
    requires { id.index < length net.now.places }
    ensures { result ≡ from_of net.now id }
{
    net.places()[id.index as usize].from.index as usize
}

// The number of the transition at which the place ends.
pub(crate) fn end_of(net: &Net, id: PlaceId) -> usize
    requires { id.index < length net.now.places }
    ensures { result ≡ to_of net.now id }
{
    net.places()[id.index as usize].to.index as usize
}

// What the place of this number offers, where its start has a value.
pub(crate) fn offer_from(net: &Net, ratio: Ratio, values: &[Option<i128>], id: PlaceId) -> i128
    requires place { id.index < length net.now.places }
    requires ratio { IsCircuitRatio ratio }
    requires start { value_held values.now (from_of net.now id) ≢ None }
    requires within { IsMagnitudeWithin greatest_scaled_potential (potentials values.now (from_of
        net.now id)) }
    ensures { result ≡ offer_of net.now ratio.time ratio.tokens (potentials values.now) id }
{
    let place = &net.places()[id.index as usize];
    let value = values[place.from.index as usize].unwrap();
    offer(ratio, place, value)
}
