//! The places with tokens in the order in which their entries stand.
ghost use Rattle.std.specs.Prelude.{IfOk};
ghost use Rattle.teg_form.specs.KeyOrder.{IsKeyOrder};

use std::alloc::{AllocError, Global};
use teg_net::{Net, PlaceId};

// A place with its key: the number of its upstream transition by 1,001, plus its tokens, which are
// at most 1,000.
#[derive(Clone, Copy, Drop)]
pub(crate) struct Marked {
    pub(crate) key: u64,
    pub(crate) place: PlaceId,
}

// The places with tokens, in the order of their upstream transitions and then of their tokens.
pub(crate) fn by_source(alloc: Global, net: &Net) -> Result<Vec<Marked>, AllocError>
    ensures { IfOk result (λ order. IsKeyOrder net.now order.items) }
{
    let mut order = Vec::new(alloc);
    for (index, place) in net.places().iter().enumerate() {
        if place.tokens != 0 {
            order.push(Marked {
                key: u64::from(place.from.index) * 1001 + u64::from(place.tokens),
                place: PlaceId {
                    index: index as u32,
                },
            })?;
        }
    }
    order.sort_by_key(|m| m.key)?;
    Ok(order)
}
