//! A part of a net with the places that lie in it, and where in their list the first stands that
//! leaves a transition.
ghost use Rattle.std.specs.Prelude.{◌≡◌, ◌<◌, ◌↔◌, length, IsTrue, IfOk};
ghost use Rattle.teg_net.specs.Circuits.{AreInRange};
ghost use Rattle.teg_net.specs.Parts.{IsMember};
ghost use Rattle.teg_howard.specs.InnerPlaces.{ListsPlaces, AreFirstExits, AreInner};

use crate::offers::start_of;
use std::alloc::{AllocError, Global};
use teg_net::{Net, Place, PlaceId};

// The places of a part, in order of number, and for each transition the rank of the first of them
// that leaves it.
#[derive(Drop)]
pub(crate) struct InnerPlaces {
    pub(crate) ids: Vec<PlaceId>,
    pub(crate) exits: Vec<usize>,
}

// A part of a net: the net, the number of each transition's part, that of this one, its places in
// order of number, and for each transition the rank of the first of them that leaves it.
#[derive(Drop)]
pub(crate) struct Part<'a> {
    pub(crate) net: &'a Net,
    pub(crate) parts: &'a [u32],
    pub(crate) number: u32,
    pub(crate) ids: &'a [PlaceId],
    pub(crate) exits: &'a [usize],
    ghost count: { length parts.now ≡ length net.now.transitions },
}

// Whether both ends of the place lie in the part.
pub(crate) fn is_inside(parts: &[u32], part: u32, place: &Place) -> bool
    requires from_in { place.now.from.index < length parts.now }
    requires to_in { place.now.to.index < length parts.now }
    ensures { IsTrue result ↔ (IsMember parts.now part place.now.from.index
        × IsMember parts.now part place.now.to.index) }
{
    parts[place.from.index as usize] == part && parts[place.to.index as usize] == part
}

// The places of the part, in order of number.
fn list_places(
    alloc: Global,
    net: &Net,
    parts: &[u32],
    part: u32,
) -> Result<Vec<PlaceId>, AllocError>
    requires { length parts.now ≡ length net.now.transitions }
    ensures { IfOk result (λ ids. ListsPlaces net.now parts.now part ids.items) }
{
    let mut ids = Vec::new(alloc);
    for (index, place) in net.places().iter().enumerate() {
        if is_inside(parts, part, place) {
            ids.push(PlaceId {
                index: index as u32,
            })?;
        }
    }
    Ok(ids)
}

// For each transition the rank in the list of the first place that leaves it, and the length of the
// list where none does.
fn first_exits(alloc: Global, net: &Net, ids: &[PlaceId]) -> Result<Vec<usize>, AllocError>
    requires { AreInRange net.now ids.now }
    ensures { IfOk result (λ exits. AreFirstExits net.now ids.now exits.items) }
{
    let count = net.transitions().len();
    let mut exits = vec![in alloc; ids.len(); count]?;
    for rank in (0..ids.len()).rev() {
        exits[start_of(net, ids[rank])] = rank;
    }
    Ok(exits)
}

// The places of the part, and where each transition is first left.
pub(crate) fn inner_places(
    alloc: Global,
    net: &Net,
    parts: &[u32],
    part: u32,
) -> Result<InnerPlaces, AllocError>
    requires { length parts.now ≡ length net.now.transitions }
    ensures { IfOk result (λ inner. AreInner net.now parts.now part inner.ids.items
        inner.exits.items) }
{
    let ids = list_places(alloc, net, parts, part)?;
    let exits = first_exits(alloc, net, &ids)?;
    Ok(InnerPlaces { ids, exits })
}
