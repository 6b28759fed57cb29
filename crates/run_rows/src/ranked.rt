//! A live net with its ranks, and how many tokens its places may have.
ghost use Rattle.std.specs.Prelude.{◌≤◌, All};
ghost use Rattle.teg_check.specs.Ranks.{IsRanking};
ghost use Rattle.teg_net.specs.Limits.{most_place_tokens};

use teg_check::Live;
use teg_net::Net;

// A live net with its ranks, and a number of tokens, at least 1, that no place has more of.
#[derive(Clone, Copy, Drop)]
pub(crate) struct RankedNet<'a> {
    pub(crate) net: &'a Net,
    pub(crate) live: &'a Live,
    pub(crate) most: u64,
    ghost stands: { IsRanking net.now live.now },
    ghost one: { 1 ≤ most },
    ghost few: { most ≤ most_place_tokens },
    ghost tokens: { All (λ p. p.tokens ≤ most) net.now.places },
}

// The greatest number of tokens of a place, and at least 1.
pub(crate) fn most_tokens(net: &Net) -> u64
    ensures one { 1 ≤ result }
    ensures most { result ≤ most_place_tokens }
    ensures all { All (λ p. p.tokens ≤ result) net.now.places }
{
    let mut most = 1;
    for place in net.places() {
        most = most.max(u64::from(place.tokens));
    }
    most
}
