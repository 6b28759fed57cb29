//! What needs are told in.

/// From which shift the result of an operation repeats, and by how many shifts. The sum of the two
/// is the need (chapter 5).
#[derive(Clone, Copy, Debug, PartialEq, Eq)]
pub struct NeedPlan {
    pub from: u128,
    pub turn: usize,
}

/// Which of two series has the greater slope, the step over the period.
#[derive(Clone, Copy, Debug, PartialEq, Eq)]
pub enum Slopes {
    Equal,
    First,
    Second,
}

/// A part of a list, in shifts, and its value, which has the greatest ratio of value to shift among
/// parts. Where no part has at least the ratio of the step to the period, `found` is false, and
/// these two stand there.
#[derive(Clone, Copy)]
pub struct Anchor {
    pub found: bool,
    pub shift: usize,
    pub value: i128,
}
