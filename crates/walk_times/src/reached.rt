//! The part of a net that the walks from an input reach: the transitions where such a walk ends,
//! under new numbers, and the places between them. All else waits for nothing, and has no dates.
ghost use Rattle.std.specs.Prelude.{◌≡◌, ◌<◌, ◌≤◌, length, All, IfOk, IsTrue};
ghost use Rattle.teg_net.specs.Limits.{most_transitions};
ghost use Rattle.teg_net.specs.Nets.{IsInput, IsNet};
ghost use Rattle.settled_forms.specs.Spread.{is_marked};
ghost use Rattle.walk_times.specs.Reached.{IsReachClosed, AreThose, IsNumbering, IsPartFrom, begins_marked, places_from, renumbered};

use settled_forms::is_marked;
use std::alloc::{AllocError, Global};
use teg_net::{DateList, Name, Net, OutOfMemory, Place, Transition, TransitionId};

/// The part of a net that the walks from an input reach: the transitions where such a walk ends,
/// in their order, and the places between them, without ready dates and input lists.
#[derive(Drop)]
pub struct Part {
    /// The part as a net, which keeps the rules of a net.
    pub net: Net,
    /// Of each transition of the whole net whether it is in the part.
    pub marks: Vec<bool>,
    /// Of each transition that is in the part its number there; the others have numbers that say
    /// nothing.
    pub new: Vec<u32>,
}

// The marked transitions in order, and of each of them its place among these.
#[derive(Drop)]
struct Numbers {
    old: Vec<u32>,
    new: Vec<u32>,
}

// Marks where the places lead that begin at marked transitions, in one pass.
fn mark_on(net: &Net, marks: &mut [bool])
    ensures { length marks.new ≡ length marks.old }
{
    for place in net.places() {
        let to = place.to.index as usize;
        if is_marked(marks, place.from) && to < marks.len() {
            marks[to] = true;
        }
    }
}

// Whether the place leads to a marked transition, where it begins at one.
fn leads_on(marks: &[bool], place: &Place) -> bool
    ensures { IsTrue result → IsTrue (begins_marked marks.now place.now)
        → IsTrue (is_marked marks.now place.now.to.index) }
{
    if is_marked(marks, place.from) {
        is_marked(marks, place.to)
    } else {
        true
    }
}

// Whether the input is marked, and each place that begins at a marked transition leads to one.
fn are_closed(net: &Net, input: TransitionId, marks: &[bool]) -> bool
    ensures { IsTrue result → IsReachClosed net.now input.index marks.now }
{
    for place in net.places() {
        if !leads_on(marks, place) {
            return false;
        }
    }
    is_marked(marks, input)
}

// Marks of the transitions that walks from the input reach: each pass marks one more, or they are
// closed, as marks of all transitions are.
fn marks_from(alloc: Global, net: &Net, input: TransitionId) -> Result<Vec<bool>, AllocError>
    requires { input.index < length net.now.transitions }
    ensures count { IfOk result (λ marks. length marks.items ≡ length net.now.transitions) }
    ensures closed { IfOk result (λ marks. IsReachClosed net.now input.index marks.items) }
{
    let count = net.transitions().len();
    let mut marks = vec![in alloc; false; count]?;
    marks[input.index as usize] = true;
    for _pass in 0..count {
        if are_closed(net, input, &marks) {
            return Ok(marks);
        }
        mark_on(net, &mut marks);
    }
    let all = vec![in alloc; true; count]?;
    Ok(all)
}

// The same name once more.
fn name_copy(alloc: Global, name: &Name) -> Result<Name, AllocError>
    ensures { IfOk result (λ copy. copy ≡ name.now) }
{
    match Name::new(alloc, name.as_str()) {
        Ok(copy) => Ok(copy),
        Err(_) => Err(AllocError),
    }
}

// The same transition once more.
fn transition_copy(alloc: Global, transition: &Transition) -> Result<Transition, AllocError>
    ensures { IfOk result (λ copy. copy ≡ transition.now) }
{
    let name = name_copy(alloc, &transition.name)?;
    Ok(Transition {
        name,
        role: transition.role,
    })
}

// The place between the new numbers of its transitions, without ready dates.
fn renumbered(alloc: Global, place: &Place, new: &[u32]) -> Result<Place, AllocError>
    requires from { place.now.from.index < length new.now }
    requires to { place.now.to.index < length new.now }
    ensures { IfOk result (λ copy. copy ≡ renumbered new.now place.now) }
{
    let name = name_copy(alloc, &place.name)?;
    Ok(Place {
        name,
        from: TransitionId {
            index: new[place.from.index as usize],
        },
        to: TransitionId {
            index: new[place.to.index as usize],
        },
        hold: place.hold,
        tokens: place.tokens,
        ready: DateList::new(Vec::new(alloc)),
    })
}

// The marked transitions in order, and of each of them its place among these.
fn numbers_of(alloc: Global, marks: &[bool]) -> Result<Numbers, AllocError>
    requires { length marks.now ≤ most_transitions }
    ensures { IfOk result (λ n. IsNumbering marks.now (length marks.now) n.old.items n.new.items) }
{
    let mut old = Vec::new(alloc);
    let mut new = Vec::new(alloc);
    for index in 0..marks.len() {
        new.push(old.len() as u32)?;
        let id = TransitionId {
            index: index as u32,
        };
        if is_marked(marks, id) {
            old.push(id.index)?;
        }
    }
    Ok(Numbers { old, new })
}

// The transitions of these numbers once more, in order.
fn those_of(
    alloc: Global,
    transitions: &[Transition],
    old: &[u32],
) -> Result<Vec<Transition>, AllocError>
    requires { All (λ t. t < length transitions.now) old.now }
    ensures { IfOk result (λ those. AreThose transitions.now old.now those.items) }
{
    let mut those = Vec::new(alloc);
    for number in old {
        those.push(transition_copy(alloc, &transitions[*number as usize])?)?;
    }
    Ok(those)
}

// The places that begin at a marked transition, in order, between new numbers.
fn places_from(
    alloc: Global,
    net: &Net,
    marks: &[bool],
    new: &[u32],
) -> Result<Vec<Place>, AllocError>
    requires { length new.now ≡ length net.now.transitions }
    ensures { IfOk result (λ kept. kept.items ≡ places_from marks.now new.now net.now.places) }
{
    let mut kept = Vec::new(alloc);
    for place in net.places() {
        if is_marked(marks, place.from) {
            kept.push(renumbered(alloc, place, new)?)?;
        }
    }
    Ok(kept)
}

/// The part of the net that the walks from the input reach (chapter 2): the transitions where such
/// a walk ends, and the places that begin there. All else has no dates where this input alone is
/// released. `OutOfMemory` comes only where no memory is found. It takes time of order `n p` at
/// most for n transitions and p places.
pub fn part_from(alloc: Global, net: &Net, input: TransitionId) -> Result<Part, OutOfMemory>
    requires { IsInput net.now input.index }
    ensures part { IfOk result (IsPartFrom net.now input.index) }
    ensures rules { IsNet net.now }
{
    net.rules();
    let marks = marks_from(alloc, net, input)?;
    let numbers = numbers_of(alloc, &marks)?;
    let transitions = those_of(alloc, net.transitions(), &numbers.old)?;
    let places = places_from(alloc, net, &marks, &numbers.new)?;
    Ok(Part {
        net: Net::new(transitions, places, Vec::new(alloc)),
        marks,
        new: numbers.new,
    })
}
