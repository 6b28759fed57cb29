//! Numbers of further tokens in rising order of their sum.
ghost use Rattle.std.specs.Prelude.{◌+◌, ◌≡◌, ◌≤◌, All, IfNone, IfOk, IfSome, IsTrue, OnOk, false, length, sum};
ghost use Rattle.token_shares.specs.KeptCuts.{AreAsked, AreShares, IsCut, NoneGoesOn};
ghost use Rattle.token_shares.specs.TokenShares.{AreEnough, AreFewest, NoneIsEnoughBelow};

use crate::cuts::{Cut, cut_of, is_above};
use crate::trials::{above, net_with};
use std::alloc::Global;
use teg_check::Live;
use teg_net::{Net, OutOfMemory, PlaceId, Ratio};

// What is asked: of a net without dates that has these ranks, places and a target.
#[derive(Drop)]
pub(crate) struct Asked<'a> {
    pub(crate) plain: &'a Net,
    pub(crate) live: &'a Live,
    pub(crate) places: &'a [PlaceId],
    pub(crate) target: Ratio,
}

// Whether the numbers leave one of the circuits above the target.
fn is_refuted(asked: &Asked, cuts: &[Cut], numbers: &[u32]) -> bool
    requires asked { AreAsked asked.now.plain.now asked.now.live.now asked.now.places.now
        asked.now.target }
    requires count { length numbers.now ≡ length asked.now.places.now }
    requires cuts { All (IsCut asked.now.plain.now asked.now.places.now) cuts.now }
    ensures { IsTrue result → AreEnough asked.now.plain.now asked.now.target asked.now.places.now
        numbers.now → ⊥ }
{
    for cut in cuts {
        if is_above(cut, asked.target, numbers) {
            return true;
        }
    }
    false
}

// Whether the numbers are enough and find room; where a circuit says that they are not, it is kept.
fn are_shares(
    alloc: Global,
    asked: &Asked,
    cuts: &mut Vec<Cut>,
    numbers: &[u32],
) -> Result<bool, OutOfMemory>
    requires asked { AreAsked asked.now.plain.now asked.now.live.now asked.now.places.now
        asked.now.target }
    requires count { length numbers.now ≡ length asked.now.places.now }
    requires cuts { All (IsCut asked.now.plain.now asked.now.places.now) cuts.old.items }
    ensures yes { IfOk result (λ yes. IsTrue yes → AreShares asked.now.plain.now asked.now.target
        asked.now.places.now numbers.now) }
    ensures no { IfOk result (λ yes. yes ≡ false → AreShares asked.now.plain.now asked.now.target
        asked.now.places.now numbers.now → ⊥) }
    ensures cuts { OnOk result (All (IsCut asked.now.plain.now asked.now.places.now)
        cuts.new.items) }
{
    let Asked {
        plain,
        live,
        places,
        target,
    } = *asked;
    plain.rules();
    if is_refuted(asked, cuts, numbers) {
        return Ok(false);
    }
    let Some(trial) = net_with(alloc, plain, places, numbers)? else {
        return Ok(false);
    };
    let Some(circuit) = above(alloc, &trial, live, places[0], &target)? else {
        return Ok(true);
    };
    cuts.push(cut_of(alloc, plain, places, &circuit)?)?;
    Ok(false)
}

// Tries the numbers that begin so and go on with so many tokens in all, in order, up to the first
// that are enough and find room.
fn try_rest(
    alloc: Global,
    asked: &Asked,
    cuts: &mut Vec<Cut>,
    numbers: &mut Vec<u32>,
    rest: u32,
) -> Result<bool, OutOfMemory>
    requires asked { AreAsked asked.now.plain.now asked.now.live.now asked.now.places.now
        asked.now.target }
    requires begun { length numbers.old.items ≤ length asked.now.places.now }
    requires rest { rest ≤ 20 }
    requires cuts { All (IsCut asked.now.plain.now asked.now.places.now) cuts.old.items }
    ensures yes { IfOk result (λ yes. IsTrue yes → AreShares asked.now.plain.now asked.now.target
        asked.now.places.now numbers.new.items) }
    ensures sum { IfOk result (λ yes. IsTrue yes → sum numbers.new.items ≡ sum numbers.old.items
        + rest) }
    ensures no { IfOk result (λ yes. yes ≡ false → NoneGoesOn asked.now.plain.now asked.now.target
        asked.now.places.now numbers.old.items rest) }
    ensures back { IfOk result (λ yes. yes ≡ false → numbers.new.items ≡ numbers.old.items) }
    ensures cuts { OnOk result (All (IsCut asked.now.plain.now asked.now.places.now)
        cuts.new.items) }
{
    if numbers.len() == asked.places.len() {
        return Ok(rest == 0 && are_shares(alloc, asked, cuts, numbers)?);
    }
    for next in 0..rest + 1 {
        numbers.push(next)?;
        if try_rest(alloc, asked, cuts, numbers, rest - next)? {
            return Ok(true);
        }
        numbers.pop();
    }
    Ok(false)
}

// The first numbers of at most so many tokens in all that are enough and find room, by their sum;
// none where there are none.
pub(crate) fn first_shares(
    alloc: Global,
    asked: &Asked,
    most: u32,
) -> Result<Option<Vec<u32>>, OutOfMemory>
    requires asked { AreAsked asked.now.plain.now asked.now.live.now asked.now.places.now
        asked.now.target }
    requires most { most ≤ 20 }
    ensures none { IfOk result (λ found. IfNone found (NoneIsEnoughBelow asked.now.plain.now
        asked.now.target asked.now.places.now (most + 1))) }
    ensures some { IfOk result (λ found. IfSome found (λ numbers. AreFewest asked.now.plain.now
        asked.now.target asked.now.places.now most numbers.items)) }
{
    let mut cuts = Vec::new(alloc);
    for total in 0..most + 1 {
        let mut numbers = Vec::new(alloc);
        if try_rest(alloc, asked, &mut cuts, &mut numbers, total)? {
            return Ok(Some(numbers));
        }
    }
    Ok(None)
}
