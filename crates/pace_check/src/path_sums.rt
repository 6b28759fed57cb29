//! Sums of paths of a part: they are searched for, and potentials are compared with them.
ghost use Rattle.std.specs.Prelude.{ℤ, ◌+ℤ◌, ◌≡◌, ◌<◌, ◌≤◌, All, IfOk, IfSome, IsTrue, length};
ghost use Rattle.teg_net.specs.Certificates.{ArePotentials};
ghost use Rattle.teg_net.specs.PartAnswers.{transitions_of};
ghost use Rattle.teg_net.specs.Parts.{IsMember, ListsMembers};
ghost use Rattle.teg_net.specs.ReducedTimes.{reduced_time_of_place};
ghost use Rattle.pace_check.specs.PathSums.{AreGreatestFrom, ArePathSums, IsNoughtAt, IsPathSum};

use std::alloc::{AllocError, Global};
use teg_net::{Net, Place, PlaceId, Potential, Ratio, TransitionId};

// A part of a net at a ratio, and the transition at which its paths begin.
#[derive(Drop)]
pub(crate) struct PartAt<'a> {
    pub(crate) net: &'a Net,
    pub(crate) part_of: &'a [u32],
    pub(crate) number: usize,
    pub(crate) ratio: Ratio,
    pub(crate) start: u32,
}

// Whether the transition is a member of the part.
fn is_member(part: &PartAt<'_>, transition: TransitionId) -> bool
    ensures { IsTrue result → IsMember part.now.part_of.now part.now.number transition.index }
{
    let index = transition.index as usize;
    index < part.part_of.len() && part.part_of[index] as usize == part.number
}

// Whether both ends of the place are members.
fn is_inside(part: &PartAt<'_>, place: &Place) -> bool
    ensures { IsTrue result → (IsMember part.now.part_of.now part.now.number place.now.from.index
        × IsMember part.now.part_of.now part.now.number place.now.to.index) }
{
    is_member(part, place.from) && is_member(part, place.to)
}

// The sum of a path with this place behind it; none where it is past all numbers.
fn sum_behind(ratio: Ratio, place: &Place, sum: i128) -> Option<i128>
    ensures { IfSome result (λ z. z ≡ (sum +ℤ reduced_time_of_place ratio place.now)) }
{
    let gain = i128::from(ratio.tokens()).checked_mul(i128::from(place.hold))?;
    let loss = i128::from(ratio.time()).checked_mul(i128::from(place.tokens))?;
    sum.checked_add(gain)?.checked_sub(loss)
}

// Whether there is no sum yet, or a lesser one.
fn is_higher(own: Option<i128>, sum: i128) -> bool {
    match own {
        Some(own) => own < sum,
        None => true,
    }
}

// Raises the sum of the transition to this one, and tells whether it rose.
fn raise(part: &PartAt<'_>, sums: &mut [Option<i128>], at: TransitionId, sum: i128) -> bool
    requires at { at.index < length part.now.net.now.transitions }
    requires sum { IsPathSum part.now.net.now part.now.part_of.now part.now.number part.now.ratio
        part.now.start at.index sum }
    requires sums { ArePathSums part.now.net.now part.now.part_of.now part.now.number
        part.now.ratio part.now.start sums.old }
    ensures { ArePathSums part.now.net.now part.now.part_of.now part.now.number part.now.ratio
        part.now.start sums.new }
{
    let _part = part;
    let index = at.index as usize;
    if !is_higher(sums[index], sum) {
        return false;
    }
    sums[index] = Some(sum);
    true
}

// The sum of a path to the transition, if one is known.
fn sum_at(part: &PartAt<'_>, sums: &[Option<i128>], at: TransitionId) -> Option<i128>
    requires at { at.index < length part.now.net.now.transitions }
    requires sums { ArePathSums part.now.net.now part.now.part_of.now part.now.number
        part.now.ratio part.now.start sums.now }
    ensures { IfSome result (IsPathSum part.now.net.now part.now.part_of.now part.now.number
        part.now.ratio part.now.start at.index) }
{
    let _part = part;
    sums[at.index as usize]
}

// The end of the place, and the sum of a path there by the place, where it lies in the part and one
// leads to its start.
fn passed(part: &PartAt<'_>, sums: &[Option<i128>], place: PlaceId) -> Option<(TransitionId, i128)>
    requires place { place.index < length part.now.net.now.places }
    requires sums { ArePathSums part.now.net.now part.now.part_of.now part.now.number
        part.now.ratio part.now.start sums.now }
    ensures end { IfSome result (λ end. end.0.index < length part.now.net.now.transitions) }
    ensures sum { IfSome result (λ end. IsPathSum part.now.net.now part.now.part_of.now
        part.now.number part.now.ratio part.now.start end.0.index end.1) }
{
    part.net.rules();
    let own = &part.net.places()[place.index as usize];
    if !is_inside(part, own) {
        return None;
    }
    let before = sum_at(part, sums, own.from)?;
    let behind = sum_behind(part.ratio, own, before)?;
    Some((own.to, behind))
}

// Raises the sum at the end of the place to that of a path by it, and tells whether it rose.
fn pass(part: &PartAt<'_>, sums: &mut [Option<i128>], place: PlaceId) -> bool
    requires place { place.index < length part.now.net.now.places }
    requires sums { ArePathSums part.now.net.now part.now.part_of.now part.now.number
        part.now.ratio part.now.start sums.old }
    ensures { ArePathSums part.now.net.now part.now.part_of.now part.now.number part.now.ratio
        part.now.start sums.new }
{
    match passed(part, sums, place) {
        Some((to, sum)) => raise(part, sums, to, sum),
        None => false,
    }
}

// Does so at each place, and tells whether a sum rose.
fn pass_all(part: &PartAt<'_>, sums: &mut [Option<i128>]) -> bool
    requires { ArePathSums part.now.net.now part.now.part_of.now part.now.number part.now.ratio
        part.now.start sums.old }
    ensures { ArePathSums part.now.net.now part.now.part_of.now part.now.number part.now.ratio
        part.now.start sums.new }
{
    let mut rose = false;
    for index in 0..part.net.places().len() {
        let here = pass(part, sums, PlaceId::new(index as u32));
        rose = rose | here;
    }
    rose
}

// No sum but that of the empty path.
fn first_sums(alloc: Global, part: &PartAt<'_>) -> Result<Vec<Option<i128>>, AllocError>
    requires { part.now.start < length part.now.net.now.transitions }
    ensures { IfOk result (λ sums. ArePathSums part.now.net.now part.now.part_of.now
        part.now.number part.now.ratio part.now.start sums.items) }
{
    let mut sums = vec![in alloc; None; part.net.transitions().len()]?;
    sums[part.start as usize] = Some(0);
    Ok(sums)
}

// For each transition the greatest sum that was found of a path to it, in rounds over the places.
fn path_sums(alloc: Global, part: &PartAt<'_>) -> Result<Vec<Option<i128>>, AllocError>
    requires { part.now.start < length part.now.net.now.transitions }
    ensures { IfOk result (λ sums. ArePathSums part.now.net.now part.now.part_of.now
        part.now.number part.now.ratio part.now.start sums.items) }
{
    let mut sums = first_sums(alloc, part)?;
    for _ in 0..part.net.transitions().len() {
        if !pass_all(part, &mut sums) {
            break;
        }
    }
    Ok(sums)
}

// Whether the potential is the sum of a path.
fn is_sum(part: &PartAt<'_>, sums: &[Option<i128>], told: Potential) -> bool
    requires told { told.transition.index < length part.now.net.now.transitions }
    requires sums { ArePathSums part.now.net.now part.now.part_of.now part.now.number
        part.now.ratio part.now.start sums.now }
    ensures { IsTrue result → IsPathSum part.now.net.now part.now.part_of.now part.now.number
        part.now.ratio part.now.start told.transition.index told.value }
{
    match sum_at(part, sums, told.transition) {
        Some(sum) => sum == told.value,
        None => false,
    }
}

// Whether each potential is the sum of a path.
fn are_sums(part: &PartAt<'_>, sums: &[Option<i128>], potentials: &[Potential]) -> bool
    requires told { All (λ v. v.transition.index < length part.now.net.now.transitions)
        potentials.now }
    requires sums { ArePathSums part.now.net.now part.now.part_of.now part.now.number
        part.now.ratio part.now.start sums.now }
    ensures { IsTrue result → All (λ v. IsPathSum part.now.net.now part.now.part_of.now
        part.now.number part.now.ratio part.now.start v.transition.index v.value) potentials.now }
{
    for told in potentials {
        if !is_sum(part, sums, *told) {
            return false;
        }
    }
    true
}

// Whether the potential that is told at the start is 0.
fn is_nought_at(start: u32, potentials: &[Potential]) -> bool
    ensures { IsTrue result → IsNoughtAt start potentials.now }
{
    for told in potentials {
        if told.transition.index == start && told.value != 0 {
            return false;
        }
    }
    true
}

// Whether the potentials are the greatest sums of the paths of the part from the start on, where no
// place exceeds them. It takes memory for a sum each transition, and time of the order members of
// the part times places.
pub(crate) fn are_greatest(
    alloc: Global,
    part: &PartAt<'_>,
    potentials: &[Potential],
) -> Result<bool, AllocError>
    requires start { part.now.start < length part.now.net.now.transitions }
    requires members { ListsMembers part.now.part_of.now part.now.number
        (transitions_of potentials.now) }
    requires told { All (λ v. v.transition.index < length part.now.net.now.transitions)
        potentials.now }
    requires kept { ArePotentials part.now.net.now part.now.part_of.now part.now.number
        part.now.ratio potentials.now }
    ensures { IfOk result (λ yes. IsTrue yes → AreGreatestFrom part.now.net.now
        part.now.part_of.now part.now.number part.now.ratio part.now.start potentials.now) }
{
    let sums = path_sums(alloc, part)?;
    Ok(is_nought_at(part.start, potentials) && are_sums(part, &sums, potentials))
}
