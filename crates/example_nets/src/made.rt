//! What a program makes a net of.
use std::alloc::Global;
use std::test::Fail;
use teg_net::{DateList, Name, Place, Role, Transition, TransitionId};

/// A transition of this name.
pub fn transition(alloc: Global, name: &str, role: Role) -> Result<Transition, Fail> {
    let name = Name::new(alloc, name)?;
    Ok(Transition { name, role })
}

/// A place of this name between the transitions of these numbers, with a hold of 2 and one token.
pub fn place(alloc: Global, name: &str, from: u32, to: u32) -> Result<Place, Fail> {
    let name = Name::new(alloc, name)?;
    Ok(Place {
        name,
        from: TransitionId::new(from),
        to: TransitionId::new(to),
        hold: 2,
        tokens: 1,
        ready: DateList::new(Vec::new(alloc)),
    })
}

/// An input and a machine.
pub fn transitions(alloc: Global) -> Result<Vec<Transition>, Fail> {
    let input = transition(alloc, "in", Role::Input)?;
    let machine = transition(alloc, "work", Role::Internal)?;
    Ok(vec![in alloc; input, machine]?)
}
