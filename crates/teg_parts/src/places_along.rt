//! The places along which one may go from each transition, onward or back, taken from the highest
//! numbered down.
ghost use Rattle.std.specs.Prelude.{◌≡◌, ◌<◌, length, IfOk, OnOk};
ghost use Rattle.teg_parts.specs.PlacesAlong.{far_in, ArePlacesAlong, AddsPlacesAlong};

use std::alloc::{AllocError, Global};
use teg_net::{Net, OutOfMemory, Place, PlaceEnd, PlaceId, PlacesOf, TransitionId};

// The transition to which one comes along the place, where one goes off at this end of it.
pub(crate) fn far_end(near: PlaceEnd, place: &Place) -> usize
    ensures { result ≡ far_in near place.now }
{
    match near {
        PlaceEnd::From => place.to.index as usize,
        PlaceEnd::To => place.from.index as usize,
    }
}

// Of each transition the places along which one may go from it: onward where one goes off at the
// transition that a place leaves, and else back.
#[derive(Drop)]
pub(crate) struct PlacesAlong {
    pub(crate) near: PlaceEnd,
    places: PlacesOf,
}

// The places along which one may go from each transition that they have at this end.
pub(crate) fn places_along(
    alloc: Global,
    net: &Net,
    near: PlaceEnd,
) -> Result<PlacesAlong, OutOfMemory>
    ensures places { IfOk result (λ f. ArePlacesAlong net.now f) }
    ensures near { IfOk result (λ f. f.near ≡ near) }
{
    let places = PlacesOf::new(alloc, net, near)?;
    Ok(PlacesAlong { near, places })
}

// Puts the places along which one may go from the transition at the end of the list, the highest
// numbered first.
pub(crate) fn push_places_along(
    net: &Net,
    along: &PlacesAlong,
    transition: usize,
    agenda: &mut Vec<PlaceId>,
) -> Result<(), AllocError>
    requires along { ArePlacesAlong net.now along.now }
    requires transition { transition < length net.now.transitions }
    ensures { OnOk result (AddsPlacesAlong net.now along.now.near transition agenda.old.items
        agenda.new.items) }
{
    net.rules();
    let id = TransitionId {
        index: transition as u32,
    };
    agenda.extend(along.places.of(id).iter().rev())
}
