//! The net by which a delayed timetable is settled: each departure also waits for an input of its
//! own, whose list has the releases.
ghost use Rattle.std.specs.Prelude.{◌≡◌, ◌≤◌, ◌<◌, ◌+◌, length, IfOk};
ghost use Rattle.delay_laws.specs.ReleaseNets.{IsReleaseNet};
ghost use Rattle.delay_laws.specs.SettlingLaws.{TellsDelays};
ghost use Rattle.teg_net.specs.Circuits.{IsLive};
ghost use Rattle.teg_net.specs.Nets.{IsNet, lists_of};
ghost use Rattle.release_nets.specs.PlannedNets.{most_timetable_transitions};
ghost use Rattle.release_nets.specs.ReleaseNetsBuilt.{AreBuilt, IsDerivedList, IsDerivedPlace, IsDerivedTransition, IsNetMade, IsNumberName};

use crate::planned::Planned;
use crate::releases::{number_past, releases};
use std::alloc::{AllocError, Global};
use teg_net::{
    Again, DateList, InputList, Name, Net, OutOfMemory, Place, Role, Transition, TransitionId,
};

// A name that is a number.
fn number(alloc: Global, number: usize) -> Result<Name, AllocError>
    ensures { IfOk result (IsNumberName number) }
{
    let text = format!(in alloc; "{number}")?;
    match Name::new(alloc, text.as_str()) {
        Ok(name) => Ok(name),
        Err(_) => Err(AllocError),
    }
}

// The role of transition `index`: an input where it is none of the net's, which are `count`.
fn role(count: usize, index: usize) -> Role
    ensures own { index < count → result ≡ Role.Internal }
    ensures input { count ≤ index → result ≡ Role.Input }
{
    if index < count {
        Role::Internal
    } else {
        Role::Input
    }
}

// Transition `index`.
fn transition(alloc: Global, count: usize, index: usize) -> Result<Transition, AllocError>
    ensures { IfOk result (IsDerivedTransition count index) }
{
    let name = number(alloc, index)?;
    let role = role(count, index);
    Ok(Transition { name, role })
}

// The transitions of the net, which are `count`, and an input for each.
fn transitions(alloc: Global, count: usize) -> Result<Vec<Transition>, AllocError>
    requires { count ≤ most_timetable_transitions }
    ensures { IfOk result (λ transitions. AreBuilt (IsDerivedTransition count) (count + count)
        transitions.items) }
{
    let mut transitions = Vec::new(alloc);
    for index in 0..count + count {
        let made = transition(alloc, count, index)?;
        transitions.push(made)?;
    }
    Ok(transitions)
}

// A place of the net under another name.
fn own_place(alloc: Global, place: &Place, name: Name) -> Result<Place, AllocError>
    ensures { IfOk result (λ p. p ≡ record place.now { name = name }) }
{
    let ready = Vec::from_slice(alloc, place.ready.as_slice())?;
    Ok(Place {
        name,
        from: place.from,
        to: place.to,
        hold: place.hold,
        tokens: place.tokens,
        ready: DateList::new(ready),
    })
}

// Place `index`: one of the net, or the one from an input to its transition.
fn place(alloc: Global, net: &Net, index: usize) -> Result<Place, AllocError>
    requires { index < length net.now.places + length net.now.transitions }
    ensures { IfOk result (IsDerivedPlace net.now index) }
{
    let name = number(alloc, index)?;
    let own = net.places();
    if index < own.len() {
        return own_place(alloc, &own[index], name);
    }
    let to = index - own.len();
    let from = net.transitions().len() + to;
    Ok(Place {
        name,
        from: TransitionId { index: from as u32 },
        to: TransitionId { index: to as u32 },
        hold: 0,
        tokens: 0,
        ready: DateList::new(Vec::new(alloc)),
    })
}

// The places of the net, and one from each input to its transition.
fn places(alloc: Global, net: &Net) -> Result<Vec<Place>, AllocError>
    ensures { IfOk result (λ places. AreBuilt (IsDerivedPlace net.now)
        (length net.now.places + length net.now.transitions) places.items) }
{
    let count = net.places().len() + net.transitions().len();
    let mut places = Vec::new(alloc);
    for index in 0..count {
        let made = place(alloc, net, index)?;
        places.push(made)?;
    }
    Ok(places)
}

// The list of the input of this transition.
fn list(alloc: Global, planned: &Planned<'_>, transition: u32) -> Result<InputList, AllocError>
    requires { transition < length planned.now.net.now.transitions }
    ensures { IfOk result (IsDerivedList planned.now.period planned.now.table.now
        (length planned.now.net.now.transitions) transition) }
{
    let count = planned.net.transitions().len();
    let last = number_past(planned, transition);
    let dates = releases(alloc, planned, transition, last as usize)?;
    Ok(InputList {
        transition: TransitionId {
            index: count as u32 + transition,
        },
        dates: DateList::new(dates),
        again: Some(Again {
            every: 1,
            gap: planned.period,
        }),
    })
}

// The list of each input.
fn lists(alloc: Global, planned: &Planned<'_>) -> Result<Vec<InputList>, AllocError>
    ensures { IfOk result (λ lists. AreBuilt (IsDerivedList planned.now.period planned.now.table.now
        (length planned.now.net.now.transitions)) (length planned.now.net.now.transitions)
        lists.items) }
{
    let mut lists = Vec::new(alloc);
    for index in 0..planned.net.transitions().len() {
        let made = list(alloc, planned, index as u32)?;
        lists.push(made)?;
    }
    Ok(lists)
}

// The net of these lists.
fn net_of(
    _planned: &Planned<'_>,
    transitions: Vec<Transition>,
    places: Vec<Place>,
    lists: Vec<InputList>,
) -> Net
    requires rules { IsNet _planned.now.net.now }
    requires made { IsNetMade _planned.now.net.now _planned.now.period _planned.now.table.now
        (lists_of transitions.items places.items lists.items) }
    ensures derived { IsReleaseNet _planned.now.net.now _planned.now.period _planned.now.table.now
        result }
    ensures rules { IsNet result }
{
    Net::new(transitions, places, lists)
}

/// The net by whose least dating the delays of the timetable are told: with an input for each
/// transition, whose list has the releases of its departures (chapters 2 and 3). It has the
/// transitions of the net first, in their order, and then the inputs. It takes memory for the net,
/// and time of its order, with the delays for each transition; `OutOfMemory` comes only where no
/// memory is found.
pub fn release_net(alloc: Global, planned: &Planned<'_>) -> Result<Net, OutOfMemory>
    ensures live { IfOk result IsLive }
    ensures tells { IfOk result (TellsDelays planned.now.net.now planned.now.period
        planned.now.table.now) }
{
    let transitions = transitions(alloc, planned.net.transitions().len())?;
    let places = places(alloc, planned.net)?;
    let lists = lists(alloc, planned)?;
    Ok(net_of(planned, transitions, places, lists))
}
