//! What is asked of tokens, and of the ranks of a net.
ghost use Rattle.std.specs.Prelude.{◌≡◌, ◌↔◌, ◌<◌, ℕ, All, IsTrue, length, slice_index};
ghost use Rattle.teg_check.specs.Ranks.{IsRanking};
ghost use Rattle.teg_net.specs.Changes.{MayHaveTokens};

use call_limits::MOST_PLACE_TOKENS;
use teg_check::Live;
use teg_net::{Net, Place, TransitionId};

/// Whether the place may have so many tokens, with the ready dates that it has: at most 1,000, and
/// one for each ready date, if it has any (chapter 2). `Net::set_tokens` and `LiveNet::set_tokens`
/// ask for it. It takes no memory.
pub fn may_have_tokens(place: &Place, tokens: u32) -> bool
    ensures { IsTrue result ↔ MayHaveTokens place.now tokens }
{
    let dates = place.ready.as_slice().len();
    tokens <= MOST_PLACE_TOKENS && (dates == 0 || dates == tokens as usize)
}

// Whether the place has a token, or its end a greater rank than its start.
fn rises_along(live: &Live, place: &Place) -> bool
    requires from_in { place.now.from.index < length live.now }
    requires to_in { place.now.to.index < length live.now }
    ensures { IsTrue result ↔ (place.now.tokens ≡ 0 → slice_index live.now place.now.from.index
        < slice_index live.now place.now.to.index) }
{
    place.tokens > 0 || live.rank(place.from) < live.rank(place.to)
}

// Whether the ranks rise strictly along each place without tokens.
fn all_rise(net: &Net, live: &Live) -> bool
    requires { length live.now ≡ length net.now.transitions }
    ensures { IsTrue result ↔ All (λ p. p.tokens ≡ 0 → slice_index live.now p.from.index
        < slice_index live.now p.to.index) net.now.places }
{
    net.places().iter().all(|place| rises_along(live, place))
}

// Whether each rank is below their number.
fn are_small(live: &Live, count: u32) -> bool
    requires { length live.now ≡ count }
    ensures { IsTrue result ↔ ((t : ℕ) → t < count → slice_index live.now t < count) }
{
    for index in 0..count {
        if live.rank(TransitionId { index }) >= count {
            return false;
        }
    }
    true
}

/// Whether these ranks stand for the net, which is then live: one for each transition, each below
/// their number, and rising strictly along each place without tokens (chapter 2). What takes a net
/// and its ranks asks for it; a `LiveNet` has both. It takes no memory, and a step a transition and
/// a place.
#[tactic(auto, using(crate::proofs::RankTests::ranking_by_tests, crate::proofs::RankTests::rank_is_small))]
pub fn is_ranked(net: &Net, live: &Live) -> bool
    ensures { IsTrue result ↔ IsRanking net.now live.now }
{
    live.width() == net.transitions().len()
        && are_small(live, net.transition_count())
        && all_rise(net, live)
}
