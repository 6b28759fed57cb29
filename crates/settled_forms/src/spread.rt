//! Which row each of more transitions has.
ghost use Rattle.std.specs.Prelude.{ℕ, ◌≡◌, ◌<◌, ◌≤◌, IfOk, IsTrue, length, slice_index, if◌then◌else◌};
ghost use Rattle.teg_net.specs.Limits.{most_transitions};
ghost use Rattle.settled_forms.specs.Spread.{is_marked};

use std::alloc::{AllocError, Global};
use teg_net::TransitionId;

/// Whether the transition is marked: it is not where it has no mark at all.
pub fn is_marked(marks: &[bool], transition: TransitionId) -> bool
    ensures { result ≡ is_marked marks.now transition.index }
{
    let index = transition.index as usize;
    if index < marks.len() {
        marks[index]
    } else {
        false
    }
}

// For each transition the number that its new number has, and another where it is not marked.
pub(crate) fn owned_by(
    alloc: Global,
    own: &[usize],
    marks: &[bool],
    new: &[u32],
    other: usize,
) -> Result<Vec<usize>, AllocError>
    requires few { length new.now ≤ most_transitions }
    requires known { (t : ℕ) → t < length new.now → IsTrue (is_marked marks.now t)
        → slice_index new.now t < length own.now }
    ensures count { IfOk result (λ owned. length owned.items ≡ length new.now) }
    ensures each { IfOk result (λ owned. (t : ℕ) → t < length new.now → slice_index owned.items t
        ≡ (if is_marked marks.now t then slice_index own.now (slice_index new.now t) else other)) }
{
    let mut owned = Vec::new(alloc);
    for index in 0..new.len() {
        let id = TransitionId {
            index: index as u32,
        };
        if is_marked(marks, id) {
            owned.push(own[new[index] as usize])?;
        } else {
            owned.push(other)?;
        }
    }
    Ok(owned)
}
