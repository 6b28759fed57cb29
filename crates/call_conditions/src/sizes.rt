//! What is asked of further tokens.
ghost use Rattle.std.specs.Prelude.{◌↔◌, ◌<◌, IfOk, IsTrue, length};
ghost use Rattle.teg_certificates.specs.Sizes.{IsEnough};
ghost use Rattle.teg_check.specs.Ranks.{IsRanking};
ghost use Rattle.teg_sizing.specs.ValueRounds.{IsTarget};

use std::alloc::Global;
use teg_check::Live;
use teg_net::{Net, OutOfMemory, PlaceId, Ratio};
use teg_sizing::{Sizing, size};

/// Whether with so many further tokens of the place no circuit of the net has a ratio of time to
/// tokens above the target (chapters 2 and 3). `enough_potentials` asks for it.
///
/// The target is one of which `is_target` is true. `OutOfMemory` comes only where no memory is
/// found. It takes the time and memory of `size`.
pub fn is_enough(
    alloc: Global,
    net: &Net,
    live: &Live,
    place: PlaceId,
    target: &Ratio,
    extra: u64,
) -> Result<bool, OutOfMemory>
    requires live { IsRanking net.now live.now }
    requires place { place.index < length net.now.places }
    requires target { IsTarget target.now }
    ensures { IfOk result (λ enough. IsTrue enough ↔ IsEnough net.now target.now place extra) }
{
    match size(alloc, net, live, place, target)? {
        Sizing::Enough { extra: least, .. } => Ok(least <= extra),
        Sizing::Impossible { .. } => Ok(false),
    }
}
