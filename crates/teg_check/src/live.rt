//! Ranks of a live net.
ghost use Rattle.std.specs.Prelude.{◌≡◌, ◌<◌, IfOk, length, slice_index};
ghost use Rattle.teg_check.specs.Ranks.{HoldsKeepRankings, MoreTokensKeepRankings, RankedNetsAreLive};

use std::alloc::{AllocError, Global};
use std::marker::Model;
use teg_net::TransitionId;

/// The ranks of a live net, one for each transition. Contracts see them as a list; they stand for
/// each net of which the list is a ranking (`IsRanking`), and such a net is live.
#[derive(Debug, Drop)]
pub struct Live {
    ranks: Vec<u32>,
}

impl Model for Live {
    ghost use Rattle.std.specs.Prelude.{ℕ, List};

    ghost Value = { List ℕ };

    ghost view = { λ a. a.ranks.items };
}

impl Live {
    // The value with these ranks. It takes no memory.
    pub(crate) fn new(ranks: Vec<u32>) -> Live
        ensures { result ≡ ranks.items }
    {
        Live { ranks }
    }

    // The same ranks once more.
    pub(crate) fn copy(&self, alloc: Global) -> Result<Live, AllocError>
        ensures { IfOk result (λ copy. copy ≡ self.now) }
    {
        let ranks = Vec::from_slice(alloc, &self.ranks)?;
        Ok(Live { ranks })
    }

    /// How many transitions have a rank: those of the net. It takes no memory.
    pub fn width(&self) -> usize
        ensures { result ≡ length self.now }
    {
        self.ranks.len()
    }

    /// The rank of a transition: along each place without tokens it rises strictly. It takes no
    /// memory.
    pub fn rank(&self, transition: TransitionId) -> u32
        requires { transition.index < length self.now }
        ensures rank { result ≡ slice_index self.now transition.index }
    {
        self.ranks[transition.index as usize]
    }
}

/// The law that ranks exist only for live nets (chapter 2). It does nothing when it runs.
pub fn ranked_nets_are_live()
    ensures { RankedNetsAreLive }
{}

/// The law that ranks of a net stand for it with another holding time too: they look at places and
/// tokens alone (chapter 2). It does nothing when it runs.
pub fn holds_keep_rankings()
    ensures { HoldsKeepRankings }
{}

/// The law that ranks of a net stand for it with more tokens in a place too: they look at places
/// without tokens alone (chapter 2). It does nothing when it runs.
pub fn more_tokens_keep_rankings()
    ensures { MoreTokensKeepRankings }
{}
