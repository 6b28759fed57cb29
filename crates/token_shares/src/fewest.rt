//! The fewest further tokens over several places.
ghost use Rattle.std.specs.Prelude.{◌<◌, ◌≤◌, ◌≡◌, All, IfNone, IfOk, IfSome, length};
ghost use Rattle.teg_sizing.specs.ValueRounds.{IsTarget};
ghost use Rattle.token_shares.specs.BareNets.{bare};
ghost use Rattle.token_shares.specs.TokenShares.{IsHopeless, IsShares, SomeAreEnough};

use crate::bare::bare_net;
use crate::budgets::{Asked, first_shares};
use crate::trials::above;
use std::alloc::Global;
use teg_check::LiveNet;
use teg_net::{Circuit, Net, OutOfMemory, PlaceId, Ratio};

/// The most places that may be asked of at once.
pub const MOST_SHARES: usize = 6;

/// The most further tokens in all that may be asked for.
pub const MOST_SHARED_TOKENS: u32 = 20;

/// How many further tokens several places need, so that no circuit has a greater ratio than a target.
#[derive(Debug, Drop)]
pub enum Shares {
    /// So many for each place, in the order of the list, are enough, and none of a smaller sum are.
    Enough { extra: Vec<u32> },
    /// No numbers are enough, for the sake of this circuit above the target: it avoids the places
    /// or, where no such circuit is above the target, stands against a target of 0. It begins with
    /// the place that leaves its lowest numbered transition.
    Impossible { circuit: Circuit },
    /// Some numbers are enough, but none within the budget.
    More,
}

// A circuit for whose sake no numbers are enough; none where some are.
fn hopeless(
    alloc: Global,
    held: &LiveNet,
    plain: &Net,
    places: &[PlaceId],
    target: &Ratio,
) -> Result<Option<Circuit>, OutOfMemory>
    requires plain { plain.now ≡ bare held.now }
    requires some { 1 ≤ length places.now }
    requires places { All (λ p. p.index < length held.now.places) places.now }
    requires target { IsTarget target.now }
    ensures none { IfOk result (λ found. IfNone found (SomeAreEnough held.now target.now
        places.now)) }
    ensures some { IfOk result (λ found. IfSome found (λ c. IsHopeless held.now target.now
        places.now c.places.items)) }
{
    held.net().rules();
    let apart = bare_net(alloc, held.net(), places)?;
    if let Some(circuit) = above(alloc, &apart, held.live(), places[0], target)? {
        return Ok(Some(circuit));
    }
    if target.time() != 0 {
        return Ok(None);
    }
    above(alloc, plain, held.live(), places[0], target)
}

/// The fewest further tokens in all with which no circuit of the net has a ratio of time to tokens
/// above the target, given to these places and at most `most` together, of numbers with which no
/// place has more than 1,000 tokens (chapters 2 and 3).
///
/// There are one to [`MOST_SHARES`] places, which may repeat: one that is listed twice has both its
/// numbers. `most` is at most [`MOST_SHARED_TOKENS`]. `Enough` carries a number for each place, and
/// comes exactly where some such numbers are enough; which of those with the least sum it tells is
/// free. `Impossible` comes exactly where no numbers are enough, with a circuit above the
/// target that avoids the places or, where there is none, stands against a target of 0; and `More`
/// exactly where some numbers are, whatever their sum and the room for them, but none of those that
/// were asked for. Ready dates do not count, and the net stays as it is. `OutOfMemory` comes only
/// where no memory is found.
///
/// It takes the time of `size` of `teg_sizing` and a copy of the net for each circuit that it comes
/// upon, and a few steps for each of these circuits and each list of numbers of at most `most`
/// together: at most 230,230 lists.
pub fn fewest_tokens(
    alloc: Global,
    held: &LiveNet,
    places: &[PlaceId],
    target: &Ratio,
    most: u32,
) -> Result<Shares, OutOfMemory>
    requires some { 1 ≤ length places.now }
    requires few { length places.now ≤ 6 }
    requires places { All (λ p. p.index < length held.now.places) places.now }
    requires target { IsTarget target.now }
    requires most { most ≤ 20 }
    ensures { IfOk result (IsShares held.now target.now places.now most) }
{
    let plain = bare_net(alloc, held.net(), &[])?;
    if let Some(circuit) = hopeless(alloc, held, &plain, places, target)? {
        return Ok(Shares::Impossible { circuit });
    }
    let asked = Asked {
        plain: &plain,
        live: held.live(),
        places,
        target: *target,
    };
    match first_shares(alloc, &asked, most)? {
        Some(extra) => Ok(Shares::Enough { extra }),
        None => Ok(Shares::More),
    }
}
