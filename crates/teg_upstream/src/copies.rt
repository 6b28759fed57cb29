//! Copies of the entries of a net.
ghost use Rattle.std.specs.Prelude.{◌≡◌, IfOk};

use std::alloc::{AllocError, Global};
use teg_net::{DateList, InputList, Name, Place, Transition};

// The same name once more.
fn name_copy(alloc: Global, name: &Name) -> Result<Name, AllocError>
    ensures { IfOk result (λ copy. copy ≡ name.now) }
{
    match Name::new(alloc, name.as_str()) {
        Ok(copy) => Ok(copy),
        Err(_) => Err(AllocError),
    }
}

// The same dates once more.
fn dates_copy(alloc: Global, dates: &DateList) -> Result<DateList, AllocError>
    ensures { IfOk result (λ copy. copy ≡ dates.now) }
{
    let mut copies = Vec::new(alloc);
    copies.extend_from_slice(dates.as_slice())?;
    Ok(DateList::new(copies))
}

// The same transition once more.
fn transition_copy(alloc: Global, transition: &Transition) -> Result<Transition, AllocError>
    ensures { IfOk result (λ copy. copy ≡ transition.now) }
{
    let name = name_copy(alloc, &transition.name)?;
    Ok(Transition {
        name,
        role: transition.role,
    })
}

// The same transitions once more, in order.
pub(crate) fn transitions_copy(
    alloc: Global,
    transitions: &[Transition],
) -> Result<Vec<Transition>, AllocError>
    ensures { IfOk result (λ copies. copies.items ≡ transitions.now) }
{
    let mut copies = Vec::new(alloc);
    for transition in transitions {
        copies.push(transition_copy(alloc, transition)?)?;
    }
    Ok(copies)
}

// The same place once more.
pub(crate) fn place_copy(alloc: Global, place: &Place) -> Result<Place, AllocError>
    ensures { IfOk result (λ copy. copy ≡ place.now) }
{
    let name = name_copy(alloc, &place.name)?;
    let ready = dates_copy(alloc, &place.ready)?;
    Ok(Place {
        name,
        from: place.from,
        to: place.to,
        hold: place.hold,
        tokens: place.tokens,
        ready,
    })
}

// The same input list once more.
pub(crate) fn input_copy(alloc: Global, list: &InputList) -> Result<InputList, AllocError>
    ensures { IfOk result (λ copy. copy ≡ list.now) }
{
    let dates = dates_copy(alloc, &list.dates)?;
    Ok(InputList {
        transition: list.transition,
        dates,
        again: list.again,
    })
}
