//! A net with other input lists, and whether lists are releases of its inputs.
ghost use Rattle.std.specs.Prelude.{ℕ, ◌≡◌, ◌<◌, ◌↔◌, All, Any, IfOk, IfSome, IsTrue, length};
ghost use Rattle.teg_net.specs.Nets.{IsInput};
ghost use Rattle.forever_check.specs.ShownReleases.{AreInOrder, AreReleases, EndsAtOnce, with_lists};

use std::alloc::{AllocError, Global};
use teg_net::{DateList, InputList, Name, Net, OutOfMemory, Place, Transition, TransitionId};

// The same name once more.
fn name_copy(alloc: Global, name: &Name) -> Result<Name, AllocError>
    ensures { IfOk result (λ copy. copy ≡ name.now) }
{
    match Name::new(alloc, name.as_str()) {
        Ok(copy) => Ok(copy),
        Err(_) => Err(AllocError),
    }
}

// The same transition once more.
fn transition_copy(alloc: Global, transition: &Transition) -> Result<Transition, AllocError>
    ensures { IfOk result (λ copy. copy ≡ transition.now) }
{
    let name = name_copy(alloc, &transition.name)?;
    Ok(Transition {
        name,
        role: transition.role,
    })
}

// The same transitions once more, in order.
fn transitions_copy(
    alloc: Global,
    transitions: &[Transition],
) -> Result<Vec<Transition>, AllocError>
    ensures { IfOk result (λ copies. copies.items ≡ transitions.now) }
{
    let mut copies = Vec::new(alloc);
    for transition in transitions {
        copies.push(transition_copy(alloc, transition)?)?;
    }
    Ok(copies)
}

// The same place once more.
fn place_copy(alloc: Global, place: &Place) -> Result<Place, AllocError>
    ensures { IfOk result (λ copy. copy ≡ place.now) }
{
    let name = name_copy(alloc, &place.name)?;
    let ready = Vec::from_slice(alloc, place.ready.as_slice())?;
    Ok(Place {
        name,
        from: place.from,
        to: place.to,
        hold: place.hold,
        tokens: place.tokens,
        ready: DateList::new(ready),
    })
}

// The same places once more, in order.
fn places_copy(alloc: Global, places: &[Place]) -> Result<Vec<Place>, AllocError>
    ensures { IfOk result (λ copies. copies.items ≡ places.now) }
{
    let mut copies = Vec::new(alloc);
    for place in places {
        copies.push(place_copy(alloc, place)?)?;
    }
    Ok(copies)
}

// The net with these lists, where they keep the rules of a net.
pub(crate) fn net_with(
    alloc: Global,
    net: &Net,
    lists: Vec<InputList>,
) -> Result<Option<Net>, OutOfMemory>
    ensures { IfOk result (λ some. IfSome some (λ made. made ≡ with_lists net.now lists.items)) }
{
    let transitions = transitions_copy(alloc, net.transitions())?;
    let places = places_copy(alloc, net.places())?;
    match Net::checked(transitions, places, lists) {
        Ok(made) => Ok(Some(made)),
        Err(_) => Ok(None),
    }
}

// Whether the list goes on, or has no date.
fn ends_at_once(list: &InputList) -> bool
    ensures { IsTrue result ↔ EndsAtOnce list.now.dates list.now.again }
{
    match list.again {
        None => list.dates.as_slice().len() == 0,
        Some(_) => true,
    }
}

// Whether one of the lists is of the transition, where that is an input.
fn has_list(net: &Net, lists: &[InputList], index: usize) -> bool
    requires { index < length net.now.transitions }
    ensures { IsTrue result → IsInput net.now index
        → Any (λ l. l.transition.index ≡ index) lists.now }
{
    net.rules();
    !net.is_input(TransitionId::new(index as u32))
        || lists.iter().any(|list| list.transition.index() == index)
}

// Whether each input has one of the lists.
fn have_lists(net: &Net, lists: &[InputList]) -> bool
    ensures { IsTrue result → (t : ℕ) → t < length net.now.transitions → IsInput net.now t
        → Any (λ l. l.transition.index ≡ t) lists.now }
{
    for index in 0..net.transitions().len() {
        if !has_list(net, lists, index) {
            return false;
        }
    }
    true
}

// Whether each of the lists goes on, or has no date.
fn all_end_at_once(lists: &[InputList]) -> bool
    ensures { IsTrue result ↔ All (λ l. EndsAtOnce l.dates l.again) lists.now }
{
    lists.iter().all(|list| ends_at_once(list))
}

// Whether each list is of a later transition than the one before.
fn are_in_order(lists: &[InputList]) -> bool
    ensures { IsTrue result → AreInOrder lists.now }
{
    for index in 1..lists.len() {
        if lists[index].transition.index <= lists[index - 1].transition.index {
            return false;
        }
    }
    true
}

// Whether the lists are releases of the inputs of the net.
pub(crate) fn are_releases(net: &Net, lists: &[InputList]) -> bool
    ensures { IsTrue result → AreReleases net.now lists.now }
{
    have_lists(net, lists) && all_end_at_once(lists) && are_in_order(lists)
}
