//! What a search is asked for: the shortest form of a live net with these releases.
ghost use Rattle.std.specs.Prelude.{◌≤◌};
ghost use Rattle.teg_check.specs.Ranks.{IsRanking};
ghost use Rattle.teg_settle.specs.InitialReleases.{OnlyInputsWait};
ghost use Rattle.list_spans.specs.Spans.{AreSpans};
ghost use Rattle.teg_settle.specs.ComparedRows.{IsReady};

use crate::releases::Releases;
use teg_check::Live;
use teg_net::Net;

// A live net with its ranks, the releases of its inputs, and a number that no place's tokens
// exceed.
#[derive(Clone, Copy, Drop)]
pub(crate) struct Asked<'a> {
    pub(crate) net: &'a Net,
    pub(crate) live: &'a Live,
    pub(crate) releases: &'a Releases,
    pub(crate) most: u64,
}

// The greatest number of tokens in a place of a live net, at least 1: with it the net and releases
// of its inputs are ready for a search.
pub(crate) fn ready_tokens(net: &Net, _live: &Live, releases: &Releases) -> u64
    requires stands { IsRanking net.now _live.now }
    requires waits { OnlyInputsWait net.now releases.now.waits.items }
    requires spans { AreSpans net.now releases.now.spans.items }
    ensures ready { IsReady net.now releases.now result }
    ensures few { result ≤ 1000 }
{
    let mut most = 1;
    for place in net.places() {
        most = most.max(u64::from(place.tokens));
    }
    most
}
