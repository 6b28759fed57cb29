//! A circuit that stands in a path with more places than there are transitions.
ghost use Rattle.std.specs.Prelude.{◌<◌, length, IfOk, IfNone, IfSome};
ghost use Rattle.teg_net.specs.Nets.{IsNet};
ghost use Rattle.teg_net.specs.Circuits.{IsPath};
ghost use Rattle.teg_sizing.specs.TracedPaths.{IsLeftBefore, IsFirstLoop, NoneLeaves};

use crate::tracing::start_of;
use std::alloc::{AllocError, Global};
use teg_net::{Net, PlaceId};

// The position of a place before this one that leaves the same transition.
fn left_before(net: &Net, places: &[PlaceId], position: usize) -> Option<usize>
    requires path { IsPath net.now places.now }
    requires position { position < length places.now }
    ensures none { IfNone result (NoneLeaves net.now places.now position) }
    ensures some { IfSome result (λ before. IsLeftBefore net.now places.now before position) }
{
    let from = start_of(net, places[position]);
    for before in 0..position {
        if start_of(net, places[before]) == from {
            return Some(before);
        }
    }
    None
}

// The first circuit that the path closes.
pub(crate) fn first_loop(
    alloc: Global,
    net: &Net,
    places: &[PlaceId],
) -> Result<Vec<PlaceId>, AllocError>
    requires rules { IsNet net.now }
    requires path { IsPath net.now places.now }
    requires long { length net.now.transitions < length places.now }
    ensures { IfOk result (λ own. IsFirstLoop net.now places.now own.items) }
{
    for end in 0..places.len() {
        if let Some(begin) = left_before(net, places, end) {
            return Vec::from_slice(alloc, &places[begin..end]);
        }
    }
    unreachable!()
}
