//! The fewest further tokens of one place, by the shares of several and by its size.
ghost use Rattle.std.specs.Prelude.{◌<◌, ◌≤◌, IfOk, length};
ghost use Rattle.teg_sizing.specs.ValueRounds.{IsTarget};
ghost use Rattle.token_shares.specs.OnePlace.{AreOneAnswer};

use std::alloc::Global;
use teg_check::LiveNet;
use teg_net::{OutOfMemory, PlaceId, Ratio};
use teg_sizing::{Sizing, size};
use token_shares::{Shares, fewest_tokens, shares_of_one_are_its_size};

/// The further tokens of a place for a target within a budget, and without one: both tell the same.
pub fn size_by_shares(
    alloc: Global,
    held: &LiveNet,
    place: PlaceId,
    target: &Ratio,
    most: u32,
) -> Result<(Shares, Sizing), OutOfMemory>
    requires place { place.index < length held.now.places }
    requires target { IsTarget target.now }
    requires most { most ≤ 20 }
    ensures { IfOk result (λ both. AreOneAnswer held.now place most both.0 both.1) }
{
    shares_of_one_are_its_size();
    held.net().rules();
    let shares = fewest_tokens(alloc, held, &[place], target, most)?;
    let sizing = size(alloc, held.net(), held.live(), place, target)?;
    Ok((shares, sizing))
}
