//! The parts of a net, by number.
ghost use Rattle.std.specs.Prelude.{◌≡◌, ◌↔◌, ◌<◌, ◌≤◌, length, slice_index, slice_index_or, false, IfOk, IsTrue};
ghost use Rattle.teg_net.specs.Limits.{most_transitions};

use std::marker::Model;
use teg_net::{OutOfMemory, TransitionId};

// Whether the two lists of numbers are the same.
fn same_numbers(first: &[u32], second: &[u32]) -> bool
    ensures { IsTrue result ↔ (first.now ≡ second.now) }
{
    first == second
}

// Whether the two lists of marks are the same.
fn same_marks(first: &[bool], second: &[bool]) -> bool
    ensures { IsTrue result ↔ (first.now ≡ second.now) }
{
    first == second
}

/// The parts of a net: for each transition the number of its part, and for each part whether some
/// place has both ends in it. Contracts see the two lists; they stand for each net of which they
/// are the parts (`AreParts`).
#[derive(Debug, Drop)]
pub struct Parts {
    part_of: Vec<u32>,
    inner: Vec<bool>,
}

impl Model for Parts {
    ghost use Rattle.std.specs.Prelude.{◌≤◌, length};
    ghost use Rattle.teg_net.specs.Limits.{most_transitions};
    ghost use Rattle.teg_parts.specs.Partitions.{PartLists};

    ghost Value = { PartLists };

    ghost view = { λ a. record { part_of = a.part_of.items; inner = a.inner.items } };

    ghost invariant = { λ a. length a.inner.items ≤ most_transitions };
}

impl Parts {
    // The value with these lists. It takes no memory.
    pub(crate) fn new(part_of: Vec<u32>, inner: Vec<bool>) -> Parts
        requires { length inner.items ≤ most_transitions }
        ensures { result ≡ record { part_of = part_of.items; inner = inner.items } }
    {
        Parts { part_of, inner }
    }

    /// The number of parts, at most that of the transitions of their net. It takes no memory.
    pub fn count(&self) -> u32
        ensures value { result ≡ length self.now.inner }
        ensures few { result ≤ most_transitions }
    {
        self.inner.len() as u32
    }

    /// How many transitions have a part: those of the net. It takes no memory.
    pub fn width(&self) -> usize
        ensures { result ≡ length self.now.part_of }
    {
        self.part_of.len()
    }

    /// The number of a transition's part, counted from 0. It takes no memory.
    pub fn part_of(&self, transition: TransitionId) -> u32
        requires { transition.index < length self.now.part_of }
        ensures { result ≡ slice_index self.now.part_of transition.index }
    {
        self.part_of[transition.index as usize]
    }

    /// The number of each transition's part, as a list by transition. `OutOfMemory` comes only
    /// where no memory is found.
    pub fn numbers(&self) -> Result<Vec<u32>, OutOfMemory>
        ensures { IfOk result (λ numbers. numbers.items ≡ self.now.part_of) }
    {
        let numbers = self.part_of.clone()?;
        Ok(numbers)
    }

    /// Whether these are the same parts with the same numbers and marks. It takes no memory.
    pub fn is_same(&self, other: &Parts) -> bool
        ensures { IsTrue result ↔ (self.now ≡ other.now) }
    {
        same_numbers(&self.part_of, &other.part_of) && same_marks(&self.inner, &other.inner)
    }

    /// Whether some place has both ends in the part of this number, so that a circuit lies in it
    /// (chapter 2). It takes no memory.
    pub fn has_circuit(&self, part: u32) -> bool
        requires { part < length self.now.inner }
        ensures { result ≡ slice_index_or self.now.inner part false }
    {
        self.inner[part as usize]
    }
}
