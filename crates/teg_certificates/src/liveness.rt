//! What shows that a net is live, and what shows that it is not (chapter 2).
ghost use Rattle.std.specs.Prelude.{◌≡◌, ◌↔◌, ◌<◌, All, IsTrue, length, slice_index};
ghost use Rattle.teg_net.specs.Circuits.{IsCircuit, tokens_of};
ghost use Rattle.teg_certificates.specs.RisingRanks.{AreRisingRanks};

use crate::sums::circuit_sums;
use teg_net::{Net, Place, PlaceId, is_circuit};

/// Whether the places are a circuit without tokens, which shows that the net is not live (`IsLive`,
/// chapter 2): none of its transitions ever fires. It takes no memory.
pub fn shows_deadlock(net: &Net, places: &[PlaceId]) -> bool
    ensures { IsTrue result ↔ (IsCircuit net.now places.now
        × (tokens_of net.now places.now ≡ 0)) }
{
    is_circuit(net, places) && circuit_sums(net, places).tokens == 0
}

// Whether the place has a token, or its end a greater rank than its start.
fn rises_along(ranks: &[u32], place: &Place) -> bool
    requires from_in { place.now.from.index < length ranks.now }
    requires to_in { place.now.to.index < length ranks.now }
    ensures { IsTrue result ↔ (place.now.tokens ≡ 0 → slice_index ranks.now place.now.from.index
        < slice_index ranks.now place.now.to.index) }
{
    place.tokens > 0 || ranks[place.from.index as usize] < ranks[place.to.index as usize]
}

// Whether the ranks rise strictly along each place without tokens.
fn all_rise(net: &Net, ranks: &[u32]) -> bool
    requires { length ranks.now ≡ length net.now.transitions }
    ensures { IsTrue result ↔ All (λ p. p.tokens ≡ 0 → slice_index ranks.now p.from.index
        < slice_index ranks.now p.to.index) net.now.places }
{
    net.places().iter().all(|place| rises_along(ranks, place))
}

/// Whether there is one rank for each transition, and along each place without tokens the rank
/// rises strictly. Such ranks show that the net is live, by the law `rising_ranks_show_live`
/// (chapter 2). It takes no memory.
pub fn is_ranking(net: &Net, ranks: &[u32]) -> bool
    ensures { IsTrue result ↔ AreRisingRanks net.now ranks.now }
{
    ranks.len() == net.transitions().len() && all_rise(net, ranks)
}
