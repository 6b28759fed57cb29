//! The places into each transition that are held longest: past its first 1,000 firings it waits for
//! no other.
ghost use Rattle.std.specs.Prelude.{ℕ, ◌≡◌, ◌<◌, [], All, IfOk, IfSome, length, slice_index_or};
ghost use Rattle.teg_net.specs.PlaceLists.{ArePlacesOf, ListsPlacesAt};
ghost use Rattle.teg_net.specs.declared.entries.PlaceId.{PlaceId};
ghost use Rattle.teg_net.specs.declared.places_of.PlaceEnd.TheVariants.{To};
ghost use Rattle.teg_replay.specs.Longest.{IsLongerOf, ListsLongestAt};

use std::alloc::{AllocError, Global};
use std::marker::Model;
use teg_net::{Net, PlaceId, PlacesOf, TransitionId};

// The greatest number of tokens of a place.
pub(crate) const MOST_TOKENS: u64 = 1_000;

// The places into one transition that are held longest.
#[derive(Debug, Drop)]
pub(crate) struct LongestHeld {
    places: Vec<PlaceId>,
}

impl Model for LongestHeld {
    ghost use Rattle.std.specs.Prelude.{List};
    ghost use Rattle.teg_net.specs.declared.entries.PlaceId.{PlaceId};

    ghost Value = { List PlaceId };

    ghost view = { λ l. l.places.items };
}

impl LongestHeld {
    // The places.
    pub(crate) fn as_slice(&self) -> &[PlaceId]
        ensures { result.now ≡ self.now }
    {
        &self.places
    }
}

// That of two places which is held longer, if both join the same transitions with as many tokens.
fn longer_of(net: &Net, one: PlaceId, other: PlaceId) -> Option<PlaceId>
    requires one { one.index < length net.now.places }
    requires other { other.index < length net.now.places }
    ensures { IfSome result (IsLongerOf net.now one other) }
{
    let first = &net.places()[one.index as usize];
    let second = &net.places()[other.index as usize];
    if first.from != second.from || first.to != second.to || first.tokens != second.tokens {
        None
    } else if first.hold < second.hold {
        Some(other)
    } else {
        Some(one)
    }
}

// The same of the place that the list has there, if it has one.
fn longer_at(net: &Net, places: &[PlaceId], listed: usize, id: PlaceId) -> Option<PlaceId>
    requires known { All (λ p. p.index < length net.now.places) places.now }
    requires place { id.index < length net.now.places }
    ensures within { IfSome result (λ _. listed < length places.now) }
    ensures longer { IfSome result (λ longer. (d : PlaceId) → IsLongerOf net.now
        (slice_index_or places.now listed d) id longer) }
{
    let there = places.get(listed)?;
    longer_of(net, *there, id)
}

// The seat of the places with this upstream transition and so many tokens.
fn seat_of(net: &Net, id: PlaceId) -> usize
    requires { id.index < length net.now.places }
{
    let place = &net.places()[id.index as usize];
    place.from.index as usize * (MOST_TOKENS as usize + 1) + place.tokens as usize
}

// Where the last place of a seat was listed, for some transition.
fn listed_at(seats: &[usize], seat: usize) -> usize {
    match seats.get(seat) {
        Some(listed) => *listed,
        None => 0,
    }
}

// Takes down where the last place of a seat is listed.
fn take_seat(seats: &mut [usize], seat: usize, listed: usize) {
    if seat < seats.len() {
        seats[seat] = listed;
    }
}

// Of the places into the transition those that are held longest. What the seats tell is looked at
// again, since it may be of another transition.
fn longest_of(
    alloc: Global,
    net: &Net,
    into: &[PlaceId],
    seats: &mut [usize],
    _transition: TransitionId,
) -> Result<LongestHeld, AllocError>
    requires into { ListsPlacesAt net.now To _transition.index into.now }
    ensures { IfOk result (ListsLongestAt net.now _transition.index) }
{
    let mut places: Vec<PlaceId> = Vec::new(alloc);
    for id in into {
        let seat = seat_of(net, *id);
        let listed = listed_at(seats, seat);
        match longer_at(net, &places, listed, *id) {
            Some(longer) => {
                places[listed] = longer;
            }
            None => {
                take_seat(seats, seat, places.len());
                places.push(*id)?;
            }
        }
    }
    Ok(LongestHeld { places })
}

// Of each transition the places into it that are held longest.
pub(crate) fn longest_held(
    alloc: Global,
    net: &Net,
    into: &PlacesOf,
) -> Result<Vec<LongestHeld>, AllocError>
    requires into { ArePlacesOf net.now To into.now }
    ensures width { IfOk result (λ lists. length lists.items ≡ length net.now.transitions) }
    ensures each { IfOk result (λ lists. (t : ℕ) → t < length net.now.transitions
        → ListsLongestAt net.now t (slice_index_or lists.items t [])) }
{
    let width = net.transitions().len();
    let mut seats = vec![in alloc; 0usize; width * (MOST_TOKENS as usize + 1)]?;
    let mut lists: Vec<LongestHeld> = Vec::new(alloc);
    for index in 0..width {
        let id = TransitionId {
            index: index as u32,
        };
        let list = longest_of(alloc, net, into.of(id), &mut seats, id)?;
        lists.push(list)?;
    }
    Ok(lists)
}
