//! The places that are told a loss, in the order in which they are told their slack.
ghost use Rattle.std.specs.Prelude.{◌≡◌, ◌<◌, ◌≤◌, length, take, All, IfOk, slice_index_or};
ghost use Rattle.teg_critical.specs.LossEndings.{AreEndings};

use crate::losses::Loss;
use std::alloc::{AllocError, Global};
use teg_net::{Net, PlaceId};

// A place, with the transitions at which it starts and ends.
#[derive(Clone, Copy, Drop)]
pub(crate) struct Ending {
    pub(crate) start: usize,
    pub(crate) end: usize,
    pub(crate) place: PlaceId,
}

// The places that are told a loss, those first that end at transitions of low number.
pub(crate) fn by_end(
    alloc: Global,
    net: &Net,
    losses: &[Option<Loss>],
) -> Result<Vec<Ending>, AllocError>
    requires { length losses.now ≡ length net.now.places }
    ensures { IfOk result (λ order. AreEndings net.now losses.now order.items) }
{
    let mut order = Vec::new(alloc);
    for (index, place) in net.places().iter().enumerate() {
        if losses[index].is_some() {
            order.push(Ending {
                start: place.from.index as usize,
                end: place.to.index as usize,
                place: PlaceId {
                    index: index as u32,
                },
            })?;
        }
    }
    order.sort_unstable_by_key(|o| o.end);
    Ok(order)
}

// How many of these places, from the first on, end where the first does.
pub(crate) fn group_length(order: &[Ending]) -> usize
    requires { 0 < length order.now }
    ensures some { 0 < result }
    ensures bound { result ≤ length order.now }
    ensures ends { All (λ e. e.end ≡ (slice_index_or order.now 0 e).end) (take result order.now) }
{
    let end = order[0].end;
    let mut count = 1;
    'same: while count < order.len() && order[count].end == end {
        count += 1;
    }
    count
}
