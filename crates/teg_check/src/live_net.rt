//! A live net with its ranks, as one value.
ghost use Rattle.std.specs.Prelude.{◌≡◌, ◌<◌, ◌≤◌, ◌+◌, length, IfOk, IfErr, OnOk, OnErr};
ghost use Rattle.teg_net.specs.Changes.{MayHaveTokens, with_hold, with_tokens};
ghost use Rattle.teg_net.specs.Circuits.{IsLive, place_at};
ghost use Rattle.teg_net.specs.Limits.{greatest_hold};
ghost use Rattle.teg_check.specs.CheckRefusals.{IsRightCheckRefusal};
ghost use Rattle.teg_check.specs.Ranks.{IsRanking};

use crate::elimination::check;
use crate::live::{Live, holds_keep_rankings, more_tokens_keep_rankings, ranked_nets_are_live};
use crate::refusal::CheckRefusal;
use std::alloc::Global;
use std::error::Error;
use std::fmt;
use std::marker::Model;
use teg_net::{Net, OutOfMemory, PlaceId};

/// A live net with its ranks, to be held, changed and asked again (chapter 2). Contracts see the
/// net.
#[derive(Drop)]
pub struct LiveNet {
    net: Net,
    live: Live,
}

impl Model for LiveNet {
    ghost use Rattle.teg_net.specs.Nets.{NetLists};
    ghost use Rattle.teg_check.specs.Ranks.{IsRanking};

    ghost Value = { NetLists };

    ghost view = { λ a. a.net };

    ghost invariant = { λ a. IsRanking a.net a.live };
}

/// Why a net is not held as a live one: the refusal, and the net as it was handed in. Its line is
/// that of the refusal.
#[derive(Debug, Drop)]
pub struct NotHeld {
    pub net: Net,
    pub refusal: CheckRefusal,
}

impl fmt::Display for NotHeld {
    fn fmt<W: fmt::Write>(&self, f: &mut fmt::Formatter<W>) -> fmt::Result {
        self.refusal.fmt(f)
    }
}

impl Error for NotHeld {}

impl LiveNet {
    /// The net with its ranks.
    ///
    /// `TokenFree` comes exactly where some circuit has no tokens, and names one; `OutOfMemory`
    /// comes only where no memory is found. A net that is refused is handed back. It takes the time
    /// of [`check`].
    pub fn new(alloc: Global, net: Net) -> Result<LiveNet, NotHeld>
        ensures held { IfOk result (λ held. held ≡ net) }
        ensures live { IfOk result (λ _. IsLive net) }
        ensures back { IfErr result (λ e. e.net ≡ net) }
        ensures refusal { IfErr result (λ e. IsRightCheckRefusal net e.refusal) }
    {
        match check(alloc, &net) {
            Ok(live) => Ok(LiveNet { net, live }),
            Err(refusal) => Err(NotHeld { net, refusal }),
        }
    }

    /// The net, which is live. It takes no memory.
    pub fn net(&self) -> &Net
        ensures net { result.now ≡ self.now }
        ensures live { IsLive self.now }
    {
        ranked_nets_are_live();
        &self.net
    }

    /// The ranks of the net, which calls on live nets ask for. It takes no memory.
    pub fn live(&self) -> &Live
        ensures { IsRanking self.now result.now }
    {
        &self.live
    }

    /// The net alone, to be changed at will. It takes no memory.
    pub fn into_net(self) -> Net
        ensures net { result ≡ self }
        ensures live { IsLive self }
    {
        ranked_nets_are_live();
        self.net
    }

    /// Gives the place another holding time, in the user's unit and at most 1,000,000,000; all else
    /// stays, its ranks too. It takes no memory.
    pub fn set_hold(&mut self, place: PlaceId, hold: u64)
        requires place { place.index < length self.old.places }
        requires hold { hold ≤ greatest_hold }
        ensures { self.new ≡ with_hold self.old place hold }
    {
        holds_keep_rankings();
        self.net.set_hold(place, hold);
    }

    /// The same net with its ranks once more, to be changed and left behind. `OutOfMemory` comes
    /// only where no memory is found.
    pub fn copy(&self, alloc: Global) -> Result<LiveNet, OutOfMemory>
        ensures { IfOk result (λ copy. copy ≡ self.now) }
    {
        let net = self.net.copy(alloc)?;
        let live = self.live.copy(alloc)?;
        Ok(LiveNet { net, live })
    }

    /// Gives the place so many more initial tokens, to at most 1,000, and as many as it has ready
    /// dates where it has some; all else stays, its ranks too, since the net stays live with more
    /// tokens. So it is never refused, and needs no [`check`]. It takes no memory.
    pub fn add_tokens(&mut self, place: PlaceId, more: u32)
        requires place { place.index < length self.old.places }
        requires tokens { MayHaveTokens (place_at self.old place)
            ((place_at self.old place).tokens + more) }
        ensures { self.new ≡ with_tokens self.old place ((place_at self.old place).tokens + more) }
    {
        more_tokens_keep_rankings();
        let tokens = self.net.place(place).tokens + more;
        self.net.set_tokens(place, tokens);
    }

    /// Gives the place another number of initial tokens, at most 1,000, and as many as it has ready
    /// dates where it has some, where the net stays live with them; all else stays.
    ///
    /// `TokenFree` comes exactly where some circuit would have no tokens, and names one;
    /// `OutOfMemory` comes only where no memory is found. A change that is refused leaves the net
    /// as it was. It takes the time of [`check`].
    pub fn set_tokens(
        &mut self,
        alloc: Global,
        place: PlaceId,
        tokens: u32,
    ) -> Result<(), CheckRefusal>
        requires place { place.index < length self.old.places }
        requires tokens { MayHaveTokens (place_at self.old place) tokens }
        ensures changed { OnOk result (self.new ≡ with_tokens self.old place tokens) }
        ensures live { OnOk result (IsLive self.new) }
        ensures kept { OnErr result (self.new ≡ self.old) }
        ensures refusal { IfErr result (IsRightCheckRefusal (with_tokens self.old place tokens)) }
    {
        self.net.rules();
        let before = self.net.place(place).tokens;
        self.net.set_tokens(place, tokens);
        match check(alloc, &self.net) {
            Ok(live) => {
                self.live = live;
                Ok(())
            }
            Err(refusal) => {
                self.net.set_tokens(place, before);
                Err(refusal)
            }
        }
    }
}
