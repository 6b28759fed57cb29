//! A net in which all places that leave an input lead to one transition at once.
ghost use Rattle.std.specs.Prelude.{◌≡◌, IfOk, map};
ghost use Rattle.teg_net.specs.Nets.{IsInput, IsNet};
ghost use Rattle.end_laws.specs.Ends.{IsInner, led_to, net_led_to};

use end_laws::ends_are_asked;
use std::alloc::{AllocError, Global};
use teg_net::{DateList, Name, Net, OutOfMemory, Place, Transition, TransitionId};

// The same name once more.
fn name_copy(alloc: Global, name: &Name) -> Result<Name, AllocError>
    ensures { IfOk result (λ copy. copy ≡ name.now) }
{
    match Name::new(alloc, name.as_str()) {
        Ok(copy) => Ok(copy),
        Err(_) => Err(AllocError),
    }
}

// The same transitions once more, in order.
fn transitions_copy(
    alloc: Global,
    transitions: &[Transition],
) -> Result<Vec<Transition>, AllocError>
    ensures { IfOk result (λ copies. copies.items ≡ transitions.now) }
{
    let mut copies = Vec::new(alloc);
    for transition in transitions {
        let name = name_copy(alloc, &transition.name)?;
        copies.push(Transition {
            name,
            role: transition.role,
        })?;
    }
    Ok(copies)
}

// The place without ready dates; where it leaves the input it leads to the end at once.
fn led_to(
    alloc: Global,
    place: &Place,
    input: TransitionId,
    end: TransitionId,
) -> Result<Place, AllocError>
    ensures { IfOk result (λ led. led ≡ led_to input.index end.index place.now) }
{
    let name = name_copy(alloc, &place.name)?;
    let ready = DateList::new(Vec::new(alloc));
    if place.from.index == input.index {
        return Ok(Place {
            name,
            from: place.from,
            to: end,
            hold: 0,
            tokens: 0,
            ready,
        });
    }
    Ok(Place {
        name,
        from: place.from,
        to: place.to,
        hold: place.hold,
        tokens: place.tokens,
        ready,
    })
}

// The places of the net, led so.
fn places_led_to(
    alloc: Global,
    places: &[Place],
    input: TransitionId,
    end: TransitionId,
) -> Result<Vec<Place>, AllocError>
    ensures { IfOk result (λ led. led.items ≡ map (led_to input.index end.index) places.now) }
{
    let mut led = Vec::new(alloc);
    for place in places {
        led.push(led_to(alloc, place, input, end)?)?;
    }
    Ok(led)
}

// The net in which all places that leave the input lead to the end at once, without input lists.
pub(crate) fn net_led_to(
    alloc: Global,
    net: &Net,
    input: TransitionId,
    end: TransitionId,
) -> Result<Net, OutOfMemory>
    requires input { IsInput net.now input.index }
    requires end { IsInner net.now end.index }
    ensures led { IfOk result (λ led. led ≡ net_led_to net.now input.index end.index) }
    ensures rules { IsNet net.now }
{
    ends_are_asked();
    // The net keeps its rules.
    net.rules();
    let transitions = transitions_copy(alloc, net.transitions())?;
    let places = places_led_to(alloc, net.places(), input, end)?;
    Ok(Net::new(transitions, places, Vec::new(alloc)))
}
