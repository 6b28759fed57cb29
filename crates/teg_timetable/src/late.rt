//! The greatest delays that stay, and the last delay that is left before.
ghost use Rattle.std.specs.Prelude.{ℕ, ◌≡◌, ◌≤◌, ◌<◌, ◌⊎◌, true, false, length, All, IfOk, slice_index};
ghost use Rattle.teg_net.specs.Limits.{greatest_firing_number};
ghost use Rattle.teg_timetable.specs.Spreads.{delay_left};
ghost use Rattle.release_nets.specs.ReleaseNetsBuilt.{AreBuilt};
ghost use Rattle.teg_timetable.specs.WaysBack.{IsTop};

use crate::left::Left;
use std::alloc::{AllocError, Global};
use teg_net::TransitionId;

// The greatest delay of the transition in the period past the number from which dates go on.
fn top(left: &Left, transition: TransitionId) -> u64
    requires { transition.index < length left.now.firsts }
    ensures { IsTop left.now transition.index result }
{
    let first = left.after() + 1;
    let end = first + left.period();
    let mut top = left.delay(transition, first);
    for number in first + 1..end {
        top = top.max(left.delay(transition, number));
    }
    top
}

// That of each transition.
pub(crate) fn tops(alloc: Global, left: &Left) -> Result<Vec<u64>, AllocError>
    ensures { IfOk result (λ tops. AreBuilt (IsTop left.now) (length left.now.firsts) tops.items) }
{
    let mut tops = Vec::new(alloc);
    for index in 0..left.width() {
        let id = TransitionId {
            index: index as u32,
        };
        tops.push(top(left, id))?;
    }
    Ok(tops)
}

// The position of a greatest of the numbers.
pub(crate) fn highest(tops: &[u64]) -> usize
    requires { 0 < length tops.now }
    ensures in_range { result < length tops.now }
    ensures greatest { All (λ top. top ≤ slice_index tops.now result) tops.now }
{
    let mut best = 0;
    for (index, top) in tops.iter().enumerate() {
        if tops[best] < *top {
            best = index;
        }
    }
    best
}

// Whether a delay is left at this number.
fn is_late(left: &Left, number: u64) -> bool
    requires first { 1 ≤ number }
    requires last { number ≤ greatest_firing_number }
    ensures late { result ≡ true → (i : ℕ) × (i < length left.now.firsts)
        × (1 ≤ delay_left left.now i number) }
    ensures none { result ≡ false → (i : ℕ) → i < length left.now.firsts → delay_left left.now i
        number
        ≡ 0 }
{
    for index in 0..left.width() {
        let id = TransitionId {
            index: index as u32,
        };
        if left.delay(id, number) >= 1 {
            return true;
        }
    }
    false
}

// The last number at which a delay is left up to where the dates go on, 0 where there is none.
pub(crate) fn last_late(left: &Left) -> u64
    ensures none { (i k : ℕ) → i < length left.now.firsts → result < k → k ≤ left.now.form.after
        → delay_left left.now i k ≡ 0 }
    ensures last { (result ≡ 0) ⊎ ((i : ℕ) × (i < length left.now.firsts)
        × (1 ≤ delay_left left.now i result)) }
{
    let mut last = 0;
    for number in 1..left.after() + 1 {
        if is_late(left, number) {
            last = number;
        }
    }
    last
}
