//! The net without ready dates and input lists, which no circuit looks at, and with some of its
//! places closed.
ghost use Rattle.std.specs.Prelude.{◌≡◌, ◌<◌, All, IfOk, length, map, slice_index_or, slice_set};
ghost use Rattle.teg_net.specs.Circuits.{no_place};
ghost use Rattle.token_shares.specs.BareNets.{bare, closed_place, with_closed, without_ready};

use std::alloc::{AllocError, Global};
use teg_net::{DateList, Name, Net, OutOfMemory, Place, PlaceId, Transition};

// The same name once more.
fn name_copy(alloc: Global, name: &Name) -> Result<Name, AllocError>
    ensures { IfOk result (λ copy. copy ≡ name.now) }
{
    match Name::new(alloc, name.as_str()) {
        Ok(copy) => Ok(copy),
        Err(_) => Err(AllocError),
    }
}

// The same transitions once more, in order.
fn transitions_copy(
    alloc: Global,
    transitions: &[Transition],
) -> Result<Vec<Transition>, AllocError>
    ensures { IfOk result (λ copies. copies.items ≡ transitions.now) }
{
    let mut copies = Vec::new(alloc);
    for transition in transitions {
        copies.push(Transition {
            name: name_copy(alloc, &transition.name)?,
            role: transition.role,
        })?;
    }
    Ok(copies)
}

// The same place once more, without ready dates.
fn bare_place(alloc: Global, place: &Place) -> Result<Place, AllocError>
    ensures { IfOk result (λ copy. copy ≡ without_ready place.now) }
{
    Ok(Place {
        name: name_copy(alloc, &place.name)?,
        from: place.from,
        to: place.to,
        hold: place.hold,
        tokens: place.tokens,
        ready: DateList::new(Vec::new(alloc)),
    })
}

// The same places once more, in order, without ready dates.
fn bare_places(alloc: Global, places: &[Place]) -> Result<Vec<Place>, AllocError>
    ensures { IfOk result (λ copies. copies.items ≡ map without_ready places.now) }
{
    let mut copies = Vec::new(alloc);
    for place in places {
        copies.push(bare_place(alloc, place)?)?;
    }
    Ok(copies)
}

// Lets the place lead back to its own end, at once and with a token.
fn close(places: &mut Vec<Place>, id: PlaceId)
    requires { id.index < length places.old.items }
    ensures { places.new.items ≡ slice_set places.old.items id.index
        (closed_place (slice_index_or places.old.items id.index no_place)) }
{
    let place = &mut places[id.index as usize];
    place.from = place.to;
    place.hold = 0;
    place.tokens = 1;
}

/// The net without ready dates and input lists, with these places closed: each leads back to its own
/// end, so that no other circuit passes it.
pub(crate) fn bare_net(alloc: Global, net: &Net, closed: &[PlaceId]) -> Result<Net, OutOfMemory>
    requires { All (λ p. p.index < length net.now.places) closed.now }
    ensures { IfOk result (λ other. other ≡ with_closed (bare net.now) closed.now) }
{
    net.rules();
    let transitions = transitions_copy(alloc, net.transitions())?;
    let mut places = bare_places(alloc, net.places())?;
    for id in closed {
        close(&mut places, *id);
    }
    Ok(Net::new(transitions, places, Vec::new(alloc)))
}
