//! Whether a number of further tokens is enough: potentials that show it are searched for.
ghost use Rattle.std.specs.Prelude.{◌≡◌, ◌↔◌, ◌+◌, ◌*◌, ◌<◌, ◌≤◌, ◌^◌, ◌⊎◌, ◌+ℤ◌, ◌-ℤ◌, pos, All, IfOk, IsTrue, false, true, length};
ghost use Rattle.teg_net.specs.Limits.{greatest_checked_potential, greatest_hold, most_place_tokens};
ghost use Rattle.teg_net.specs.ReducedTimes.{IsMagnitudeWithin};
ghost use Rattle.teg_certificates.specs.Sizes.{IsEnough, extra_at};
ghost use Rattle.pace_check.specs.PathPotentials.{ArePathPotentials, IsLowEnough, IsLowered, IsPastLimit, IsTarget};

use std::alloc::{AllocError, Global};
use teg_certificates::check_enough;
use teg_net::{Net, Place, PlaceId, Ratio};

// The greatest magnitude of a potential that is checked.
const GREATEST_CHECKED_POTENTIAL: i128 = 1_000_000_000_000_000_000;

// A place of a net with so many further tokens, and a target.
#[derive(Drop)]
pub(crate) struct Furthered<'a> {
    pub(crate) net: &'a Net,
    pub(crate) target: Ratio,
    pub(crate) place: PlaceId,
    pub(crate) extra: u64,
}

// The further tokens of the place of this number.
fn further_of(asked: &Furthered<'_>, number: usize) -> u64
    ensures { result ≡ extra_at asked.now.place asked.now.extra (record { index = number }) }
{
    if number == asked.place.index as usize {
        asked.extra
    } else {
        0
    }
}

// What a path by a place of this holding time and these tokens leaves to its start, where its end has
// the potential.
fn left_over(target: Ratio, hold: u64, tokens: u128, potential: i128) -> i128
    requires target { IsTarget target }
    requires hold { hold ≤ greatest_hold }
    requires tokens { tokens < 2 ^ 65 }
    requires within { IsMagnitudeWithin greatest_checked_potential potential }
    ensures { result ≡ ((potential +ℤ pos (target.time * tokens))
        -ℤ pos (target.tokens * hold)) }
{
    let loss = u128::from(target.time()) * tokens;
    let gain = u128::from(target.tokens()) * u128::from(hold);
    potential + loss as i128 - gain as i128
}

// Lowers the potential of the start of the place, which has so many further tokens, to what a path by
// it leaves; false where that is past the limit.
fn lower(target: Ratio, place: &Place, further: u64, potentials: &mut [i128]) -> bool
    requires ends { (place.now.from.index < length potentials.old)
        × (place.now.to.index < length potentials.old) }
    requires target { IsTarget target }
    requires place { (place.now.hold ≤ greatest_hold) × (place.now.tokens ≤ most_place_tokens) }
    requires within { All (IsMagnitudeWithin greatest_checked_potential) potentials.old }
    ensures lowered { result ≡ true → IsLowered target place.now further potentials.old potentials.new
        ⊎ IsLowEnough target place.now further potentials.old potentials.new }
    ensures past { result ≡ false → IsPastLimit target place.now further potentials.old }
{
    let tokens = u128::from(place.tokens) + u128::from(further);
    let end = potentials[place.to.index as usize];
    let left = left_over(target, place.hold, tokens, end);
    let from = place.from.index as usize;
    if potentials[from] <= left {
        return true;
    }
    if left < -GREATEST_CHECKED_POTENTIAL {
        return false;
    }
    potentials[from] = left;
    true
}

// Does so at each place; false where no potentials show the number to be enough. Then all paths of one
// place more keep them.
fn lower_all(asked: &Furthered<'_>, most: usize, potentials: &mut [i128]) -> bool
    requires target { IsTarget asked.now.target }
    requires are { ArePathPotentials asked.now.net.now asked.now.target asked.now.place
        asked.now.extra most potentials.old }
    ensures more { result ≡ true → ArePathPotentials asked.now.net.now asked.now.target
        asked.now.place asked.now.extra (most + 1) potentials.new }
    ensures never { result ≡ false → IsEnough asked.now.net.now asked.now.target asked.now.place
        asked.now.extra → ⊥ }
{
    let _most = most;
    for (number, place) in asked.net.places().iter().enumerate() {
        let further = further_of(asked, number);
        if !lower(asked.target, place, further, potentials) {
            return false;
        }
    }
    true
}

// Whether with so many further tokens of the place no circuit is above the target. Potentials are
// searched for, of paths that have ever more places: where the number is enough, those of paths with
// as many places as there are transitions show it. It takes memory for a potential a transition, and
// time of the order transitions times places.
pub(crate) fn is_enough(alloc: Global, asked: &Furthered<'_>) -> Result<bool, AllocError>
    requires { IsTarget asked.now.target }
    ensures { IfOk result (λ yes. IsTrue yes ↔ IsEnough asked.now.net.now asked.now.target
        asked.now.place asked.now.extra) }
{
    asked.net.rules();
    let count = asked.net.transitions().len();
    let mut potentials = vec![in alloc; 0i128; count]?;
    for most in 0..count {
        if !lower_all(asked, most, &mut potentials) {
            return Ok(false);
        }
    }
    Ok(check_enough(
        asked.net,
        &asked.target,
        asked.place,
        asked.extra,
        &potentials,
    ))
}
