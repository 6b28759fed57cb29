//! The net with further tokens, and circuits above a target.
ghost use Rattle.std.specs.Prelude.{◌+◌, ◌<◌, ◌≡◌, All, IfNone, IfOk, IfSome, IsTrue, false, length};
ghost use Rattle.teg_net.specs.Changes.{with_tokens};
ghost use Rattle.teg_net.specs.Circuits.{place_at};
ghost use Rattle.teg_check.specs.Ranks.{IsRanking};
ghost use Rattle.teg_sizing.specs.ValueRounds.{IsTarget};
ghost use Rattle.token_shares.specs.BareNets.{HasNoDates};
ghost use Rattle.token_shares.specs.TokenShares.{HasRoom, IsAbove, KeepsTarget, with_further};

use std::alloc::Global;
use teg_check::Live;
use teg_net::{Circuit, Net, OutOfMemory, PlaceId, Ratio};
use teg_sizing::{Sizing, size};

// The most tokens of a place.
const MOST_PLACE_TOKENS: u64 = 1_000;

// Adds tokens to the place, unless it would have more than 1,000.
fn add(trial: &mut Net, place: PlaceId, more: u32) -> bool
    requires place { place.index < length trial.old.places }
    requires no_dates { length (place_at trial.old place).ready ≡ 0 }
    ensures yes { IsTrue result → trial.new ≡ with_tokens trial.old place
        ((place_at trial.old place).tokens + more) }
    ensures no { result ≡ false → 1000 < (place_at trial.old place).tokens + more }
{
    let tokens = u64::from(trial.place(place).tokens) + u64::from(more);
    if MOST_PLACE_TOKENS < tokens {
        return false;
    }
    trial.set_tokens(place, tokens as u32);
    true
}

// The net in which the places have so many further tokens; none where one would have more than
// 1,000.
pub(crate) fn net_with(
    alloc: Global,
    plain: &Net,
    places: &[PlaceId],
    numbers: &[u32],
) -> Result<Option<Net>, OutOfMemory>
    requires places { All (λ p. p.index < length plain.now.places) places.now }
    requires count { length numbers.now ≡ length places.now }
    requires no_dates { HasNoDates plain.now }
    ensures none { IfOk result (λ found. IfNone found (HasRoom plain.now places.now numbers.now
        → ⊥)) }
    ensures some { IfOk result (λ found. IfSome found (λ trial. trial
        ≡ with_further plain.now places.now numbers.now)) }
{
    let mut trial = plain.copy(alloc)?;
    for (index, place) in places.iter().enumerate() {
        if !add(&mut trial, *place, numbers[index]) {
            return Ok(None);
        }
    }
    Ok(Some(trial))
}

// A circuit above the target, told from its lowest numbered transition on; none where there is none.
// The place may be any one of the net.
pub(crate) fn above(
    alloc: Global,
    net: &Net,
    live: &Live,
    place: PlaceId,
    target: &Ratio,
) -> Result<Option<Circuit>, OutOfMemory>
    requires live { IsRanking net.now live.now }
    requires place { place.index < length net.now.places }
    requires target { IsTarget target.now }
    ensures none { IfOk result (λ found. IfNone found (KeepsTarget net.now target.now)) }
    ensures some { IfOk result (λ found. IfSome found (λ c. IsAbove net.now target.now
        c.places.items)) }
{
    match size(alloc, net, live, place, target)? {
        Sizing::Enough { circuit, .. } => Ok(circuit),
        Sizing::Impossible { circuit } => Ok(Some(circuit)),
    }
}
