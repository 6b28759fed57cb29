//! The places of a net in an order in which one pass over them settles a number, going back.
ghost use Rattle.std.specs.Prelude.{◌≡◌, false, IfOk, length};
ghost use Rattle.witness_check.specs.Climbs.{RiseAlong};
ghost use Rattle.dating_check.specs.BackOrder.{IsBackOrder};

use std::alloc::{AllocError, Global};
use teg_net::{Net, PlaceId};

// A place, with how far the number of its start stands below the greatest of 32 bits.
#[derive(Clone, Copy, Drop)]
pub(crate) struct Placed {
    pub(crate) depth: u32,
    pub(crate) place: PlaceId,
}

// The places in falling order of the numbers of their starts, which rise along those without tokens.
pub(crate) fn places_back(
    alloc: Global,
    net: &Net,
    ranks: &[u32],
) -> Result<Vec<Placed>, AllocError>
    requires { RiseAlong net.now false ranks.now }
    ensures back { IfOk result (λ order. IsBackOrder net.now ranks.now order.items) }
    ensures few { IfOk result (λ order. length order.items ≡ length net.now.places) }
{
    let mut order = Vec::new(alloc);
    for (index, place) in net.places().iter().enumerate() {
        order.push(Placed {
            depth: u32::MAX - ranks[place.from.index()],
            place: PlaceId::new(index as u32),
        })?;
    }
    order.sort_by_key(|placed| placed.depth)?;
    Ok(order)
}
