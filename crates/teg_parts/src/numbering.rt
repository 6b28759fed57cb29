//! The numbers of the parts: one after the other, each time the part of the lowest numbered
//! transition among those whose other upstream parts all have a number.
ghost use Rattle.std.specs.Prelude.{◌≡◌, ◌<◌, ◌≤◌, ℕ, All, length, IfOk, IfSome, IfNone, slice_index_or};
ghost use Rattle.teg_net.specs.Limits.{most_transitions};
ghost use Rattle.teg_net.specs.Nets.{IsNet};
ghost use Rattle.teg_parts.specs.Components.{AreComponents};
ghost use Rattle.teg_parts.specs.PartNumbers.{AreBlocked, IsFree, IsFirstFree, IsGiven, AreInOrderOf, AreInnerMarks, IsOpenFor, IsFirstOpen};

use crate::numbers::numbers_of;
use std::alloc::{AllocError, Global};
use teg_net::Net;

// For each component whether a place enters it from another one that has no number.
fn blocked_components(
    alloc: Global,
    net: &Net,
    components: &[u32],
    numbers: &[Option<u32>],
) -> Result<Vec<bool>, AllocError>
    requires components { AreComponents net.now components.now }
    requires count { length numbers.now ≡ length components.now }
    ensures { IfOk result (λ blocked. AreBlocked net.now components.now numbers.now blocked.items) }
{
    let mut blocked = vec![in alloc; false; components.len()]?;
    for place in net.places() {
        let from = place.from.index as usize;
        let into = components[place.to.index as usize];
        if components[from] != into && numbers[from].is_none() {
            blocked[into as usize] = true;
        }
    }
    Ok(blocked)
}

// The first transition without a number whose component is not blocked.
fn first_open(components: &[u32], numbers: &[Option<u32>], blocked: &[bool]) -> Option<usize>
    requires below { (t : ℕ) → t < length components.now
        → slice_index_or components.now t 0 < length components.now }
    requires count { length numbers.now ≡ length components.now }
    requires blocked { length blocked.now ≡ length components.now }
    ensures some { IfSome result (λ t. IsFirstOpen components.now numbers.now blocked.now t) }
    ensures none { IfNone result ((t : ℕ) → IsOpenFor components.now numbers.now blocked.now t
        → ⊥) }
{
    for (transition, component) in components.iter().enumerate() {
        if numbers[transition].is_none() && !blocked[*component as usize] {
            return Some(transition);
        }
    }
    None
}

// The lowest numbered transition whose part may take the next number.
fn first_free(
    alloc: Global,
    net: &Net,
    components: &[u32],
    numbers: &[Option<u32>],
) -> Result<Option<usize>, AllocError>
    requires components { AreComponents net.now components.now }
    requires count { length numbers.now ≡ length components.now }
    ensures some { IfOk result (λ o. IfSome o (λ t. IsFirstFree net.now components.now numbers.now
        t)) }
    ensures none { IfOk result (λ o. IfNone o ((t : ℕ) → IsFree net.now components.now numbers.now t
        → ⊥)) }
{
    let blocked = blocked_components(alloc, net, components, numbers)?;
    Ok(first_open(components, numbers, &blocked))
}

// Gives the number to each transition of the component.
fn give_number(components: &[u32], numbers: &mut [Option<u32>], component: u32, number: u32)
    requires { length numbers.old ≡ length components.now }
    ensures { IsGiven components.now numbers.old numbers.new component number }
{
    for transition in 0..components.len() {
        if components[transition] == component {
            numbers[transition] = Some(number);
        }
    }
}

// The numbers of the parts in order, and how many there are.
pub(crate) fn parts_in_order(
    alloc: Global,
    net: &Net,
    components: &[u32],
) -> Result<(Vec<u32>, u32), AllocError>
    requires { AreComponents net.now components.now }
    ensures order { IfOk result (λ w. AreInOrderOf net.now components.now w.0.items w.1) }
    ensures few { IfOk result (λ w. w.1 ≤ most_transitions) }
    ensures rules { IfOk result (λ _. IsNet net.now) }
{
    net.rules();
    let mut numbers = vec![in alloc; None; components.len()]?;
    let mut next = 0;
    'number: while let Some(transition) = first_free(alloc, net, components, &numbers)? {
        give_number(components, &mut numbers, components[transition], next);
        next += 1;
    }
    let part_of = numbers_of(alloc, &numbers)?;
    Ok((part_of, next))
}

// For each part whether some place has both ends in it.
pub(crate) fn inner_marks(
    alloc: Global,
    net: &Net,
    part_of: &[u32],
    count: u32,
) -> Result<Vec<bool>, AllocError>
    requires count { length part_of.now ≡ length net.now.transitions }
    requires below { All (λ k. k < count) part_of.now }
    ensures long { IfOk result (λ inner. length inner.items ≡ count) }
    ensures marks { IfOk result (λ inner. AreInnerMarks net.now part_of.now inner.items) }
{
    let mut inner = vec![in alloc; false; count as usize]?;
    for place in net.places() {
        let part = part_of[place.from.index as usize];
        if part == part_of[place.to.index as usize] {
            inner[part as usize] = true;
        }
    }
    Ok(inner)
}
