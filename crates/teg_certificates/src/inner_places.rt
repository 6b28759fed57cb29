//! A part of a net by the numbers of an answer, and which places have both ends in it.
ghost use Rattle.std.specs.Prelude.{◌≡◌, ◌↔◌, ◌<◌, All, IsTrue, length};
ghost use Rattle.teg_net.specs.declared.entries.PlaceId.{PlaceId};
ghost use Rattle.teg_net.specs.Parts.{IsMember, IsPlaceOfPart};

use teg_net::{Net, Place, PlaceId};

// A part of a net: the net, the number of each transition's part, and that of this one.
#[derive(Drop)]
pub(crate) struct Part<'a> {
    pub(crate) net: &'a Net,
    pub(crate) part_of: &'a [u32],
    pub(crate) number: usize,
    ghost count: { length part_of.now ≡ length net.now.transitions },
}

// Whether both ends of the place lie in the part.
pub(crate) fn is_inner(part_of: &[u32], part: usize, place: &Place) -> bool
    requires from_in { place.now.from.index < length part_of.now }
    requires to_in { place.now.to.index < length part_of.now }
    ensures { IsTrue result ↔ (IsMember part_of.now part place.now.from.index
        × IsMember part_of.now part place.now.to.index) }
{
    part_of[place.from.index as usize] as usize == part
        && part_of[place.to.index as usize] as usize == part
}

// Whether no place has both ends in the part.
pub(crate) fn has_no_place(part: &Part) -> bool
    ensures { IsTrue result ↔ ((p : PlaceId) → IsPlaceOfPart part.now.net.now part.now.part_of.now
        part.now.number p → ⊥) }
{
    for place in part.net.places() {
        if is_inner(part.part_of, part.number, place) {
            return false;
        }
    }
    true
}

// Whether the number is that of a place with both ends in the part.
fn is_place_of_part(part: &Part, id: PlaceId) -> bool
    ensures { IsTrue result ↔ IsPlaceOfPart part.now.net.now part.now.part_of.now
        part.now.number id }
{
    let own = part.net.places();
    let index = id.index as usize;
    if own.len() <= index {
        return false;
    }
    is_inner(part.part_of, part.number, &own[index])
}

// Whether each number is that of a place with both ends in the part.
pub(crate) fn all_inner(part: &Part, places: &[PlaceId]) -> bool
    ensures { IsTrue result ↔ All (IsPlaceOfPart part.now.net.now part.now.part_of.now
        part.now.number) places.now }
{
    places.iter().all(|id| is_place_of_part(part, *id))
}
