//! A part of a net, and which places enter its members.
ghost use Rattle.std.specs.Prelude.{◌≡◌, ◌↔◌, ◌<◌, IsTrue, length};
ghost use Rattle.teg_net.specs.Circuits.{place_at};
ghost use Rattle.teg_net.specs.Parts.{IsMember, IsPlaceOfPart};
ghost use Rattle.policy_rounds.specs.Policies.{Enters};

use teg_net::{Net, PlaceId};

// A part of a net: the net, the number of each transition's part, and that of this one.
#[derive(Drop)]
pub(crate) struct Part<'a> {
    pub(crate) net: &'a Net,
    pub(crate) parts: &'a [u32],
    pub(crate) number: u32,
    ghost count: { length parts.now ≡ length net.now.transitions },
}

// Whether the transition is a member of the part.
pub(crate) fn is_member(parts: &[u32], number: u32, transition: usize) -> bool
    ensures { IsTrue result ↔ IsMember parts.now number transition }
{
    transition < parts.len() && parts[transition] == number
}

// Whether the number is that of a place with both ends in the part.
pub(crate) fn is_inside(part: &Part, id: PlaceId) -> bool
    ensures { IsTrue result ↔ IsPlaceOfPart part.now.net.now part.now.parts.now part.now.number id }
{
    let own = part.net.places();
    let index = id.index as usize;
    if own.len() <= index {
        return false;
    }
    let place = &own[index];
    is_member(part.parts, part.number, place.from.index as usize)
        && is_member(part.parts, part.number, place.to.index as usize)
}

// The number of the transition at which the place of the net ends.
pub(crate) fn end_of(net: &Net, id: PlaceId) -> usize
    requires { id.index < length net.now.places }
    ensures { result ≡ (place_at net.now id).to.index }
{
    net.places()[id.index as usize].to.index as usize
}

// The number of the transition that the place of the net leaves.
pub(crate) fn start_of(net: &Net, id: PlaceId) -> usize
    requires { id.index < length net.now.places }
    ensures { result ≡ (place_at net.now id).from.index }
{
    net.places()[id.index as usize].from.index as usize
}

// Whether the place lies in the part and ends at the transition.
pub(crate) fn enters(part: &Part, transition: usize, id: PlaceId) -> bool
    ensures { IsTrue result ↔ Enters part.now.net.now part.now.parts.now part.now.number transition
        id }
{
    is_inside(part, id) && end_of(part.net, id) == transition
}
