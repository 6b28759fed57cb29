//! The potentials that show that so many extra tokens of a place are enough.
ghost use Rattle.std.specs.Prelude.{◌≡◌, ◌≤◌, ◌<◌, ◌*◌, ◌^◌, ◌+ℤ◌, ◌-ℤ◌, ◌≤ℤ◌, ◌⊎◌, pos, length, All, IfOk, IfSome, IsSomeAnd};
ghost use Rattle.teg_net.specs.Limits.{greatest_hold};
ghost use Rattle.teg_net.specs.ReducedTimes.{IsMagnitudeWithin};
ghost use Rattle.teg_certificates.specs.Sizes.{IsEnough, AreTargetPotentials};
ghost use Rattle.teg_sizing.specs.ValueRounds.{IsTarget};
ghost use Rattle.teg_sizing.specs.EnoughPotentials.{greatest_told, greatest_over, AreBothSettled, IsPotential, ArePotentialsOf};

use crate::rounds::{Asked, ValueCell, last_cells};
use crate::surpluses::{rounds_apart, rounds_back};
use std::alloc::{AllocError, Global};
use teg_net::{Net, OutOfMemory, PlaceId, Ratio};

// The two together.
fn sum(first: i128, second: i128) -> i128
    requires first { IsMagnitudeWithin greatest_told first }
    requires second { IsMagnitudeWithin greatest_over second }
    ensures { result ≡ first +ℤ second }
{
    first + second
}

// The greater of the two.
fn larger(first: i128, second: i128) -> i128
    ensures first { first ≤ℤ result }
    ensures second { second ≤ℤ result }
    ensures is { (result ≡ first) ⊎ (result ≡ second) }
{
    if first < second { second } else { first }
}

// The greater of the value from everywhere and of that from the end of the place on, if one is
// told, with what leads over the place.
fn greater(apart: i128, back: Option<i128>, over: i128) -> i128
    requires back { IfSome back (IsMagnitudeWithin greatest_told) }
    requires over { IsMagnitudeWithin greatest_over over }
    ensures { IsPotential apart back over result }
{
    match back {
        None => apart,
        Some(back) => larger(apart, sum(back, over)),
    }
}

// What a place of this holding time and these tokens adds to the value at its start.
fn over_place(target: Ratio, hold: u64, tokens: u128, start: i128) -> i128
    requires target { IsTarget target }
    requires hold { hold ≤ greatest_hold }
    requires tokens { tokens < 2 ^ 65 }
    requires start { IsMagnitudeWithin greatest_told start }
    ensures { result ≡ ((pos (target.tokens * hold) -ℤ pos (target.time * tokens)) +ℤ start) }
{
    let gain = u128::from(target.tokens()) * u128::from(hold);
    let loss = u128::from(target.time()) * tokens;
    gain as i128 - loss as i128 + start
}

// The potential of each transition.
fn all_potentials(
    alloc: Global,
    apart: &[ValueCell],
    back: &[ValueCell],
    over: i128,
) -> Result<Vec<i128>, AllocError>
    requires count { length apart.now ≡ length back.now }
    requires apart { All (λ c. IsSomeAnd c.value (IsMagnitudeWithin greatest_told)) apart.now }
    requires back { All (λ c. IfSome c.value (IsMagnitudeWithin greatest_told)) back.now }
    requires over { IsMagnitudeWithin greatest_over over }
    ensures { IfOk result (λ vs. ArePotentialsOf apart.now back.now over vs.items) }
{
    let mut potentials = Vec::new(alloc);
    for number in 0..apart.len() {
        let own = apart[number].value.unwrap();
        potentials.push(greater(own, back[number].value, over))?;
    }
    Ok(potentials)
}

// The potentials, of the values that the rounds tell at last.
fn potentials_of(
    alloc: Global,
    asked: &Asked,
    extra: u64,
    apart: &[ValueCell],
    back: &[ValueCell],
) -> Result<Vec<i128>, AllocError>
    requires place { asked.now.place.index < length asked.now.net.now.places }
    requires target { IsTarget asked.now.target }
    requires settled { AreBothSettled asked.now.net.now asked.now.target asked.now.place extra
        apart.now back.now }
    ensures { IfOk result (λ vs. AreTargetPotentials asked.now.net.now asked.now.target
        asked.now.place extra vs.items) }
{
    let Asked { net, target, place } = *asked;
    let own = &net.places()[place.index as usize];
    let start = apart[own.from.index as usize].value.unwrap();
    let tokens = u128::from(own.tokens) + u128::from(extra);
    let over = over_place(target, own.hold, tokens, start);
    let potentials = all_potentials(alloc, apart, back, over)?;
    Ok(potentials)
}

/// The potentials that show that so many extra tokens of a place are enough for a target, as
/// `check_enough` of `teg_certificates` reads them: one for each transition, in the user's unit
/// times the tokens of the target (chapters 2 and 3).
///
/// They are made of the greatest values of paths, those over the place with its extra tokens among
/// them; the clause says of them what `check_enough` asks, and no more. `OutOfMemory` comes only
/// where no memory is found. It takes time of order n p for n transitions and p places.
pub fn enough_potentials(
    alloc: Global,
    net: &Net,
    place: PlaceId,
    target: &Ratio,
    extra: u64,
) -> Result<Vec<i128>, OutOfMemory>
    requires place { place.index < length net.now.places }
    requires target { IsTarget target.now }
    requires enough { IsEnough net.now target.now place extra }
    ensures { IfOk result (λ vs. AreTargetPotentials net.now target.now place extra vs.items) }
{
    let from_all = rounds_apart(alloc, net, *target, place)?;
    let from_end = rounds_back(alloc, net, *target, place)?;
    let apart = last_cells(&from_all);
    let back = last_cells(&from_end);
    let asked = Asked {
        net,
        target: *target,
        place,
    };
    Ok(potentials_of(alloc, &asked, extra, apart, back)?)
}
