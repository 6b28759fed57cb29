//! Marks of the transitions from which a path leads to one.
ghost use Rattle.std.specs.Prelude.{◌≡◌, ◌<◌, length, IfOk, IsTrue};
ghost use Rattle.teg_upstream.specs.Parts.{IsClosedBack, ends_marked, is_marked};

use std::alloc::{AllocError, Global};
use teg_net::{Net, Place, TransitionId};

// Whether the transition is marked.
pub(crate) fn is_marked(marks: &[bool], transition: TransitionId) -> bool
    ensures { result ≡ is_marked marks.now transition.index }
{
    let index = transition.index as usize;
    if index < marks.len() {
        marks[index]
    } else {
        false
    }
}

// Marks where the places begin that lead to marked transitions, in one pass from the last place
// on: most files tell first what comes first.
fn mark_back(net: &Net, marks: &mut [bool])
    ensures { length marks.new ≡ length marks.old }
{
    let places = net.places();
    for index in 0..places.len() {
        let place = &places[places.len() - 1 - index];
        let from = place.from.index as usize;
        if is_marked(marks, place.to) && from < marks.len() {
            marks[from] = true;
        }
    }
}

// Whether the place begins at a marked transition, where it leads to one.
fn comes_marked(marks: &[bool], place: &Place) -> bool
    ensures { IsTrue result → IsTrue (ends_marked marks.now place.now)
        → IsTrue (is_marked marks.now place.now.from.index) }
{
    if is_marked(marks, place.to) {
        is_marked(marks, place.from)
    } else {
        true
    }
}

// Whether the transition is marked, and each place that leads to a marked one begins at one.
fn are_closed(net: &Net, transition: TransitionId, marks: &[bool]) -> bool
    ensures { IsTrue result → IsClosedBack net.now transition.index marks.now }
{
    for place in net.places() {
        if !comes_marked(marks, place) {
            return false;
        }
    }
    is_marked(marks, transition)
}

// Marks of the transitions from which a path leads to this one: each pass marks one more, or they
// are closed, as marks of all transitions are.
pub(crate) fn marks_to(
    alloc: Global,
    net: &Net,
    transition: TransitionId,
) -> Result<Vec<bool>, AllocError>
    requires { transition.index < length net.now.transitions }
    ensures count { IfOk result (λ marks. length marks.items ≡ length net.now.transitions) }
    ensures closed { IfOk result (λ marks. IsClosedBack net.now transition.index marks.items) }
{
    let count = net.transitions().len();
    let mut marks = vec![in alloc; false; count]?;
    marks[transition.index as usize] = true;
    for _pass in 0..count {
        if are_closed(net, transition, &marks) {
            return Ok(marks);
        }
        mark_back(net, &mut marks);
    }
    let all = vec![in alloc; true; count]?;
    Ok(all)
}
