//! Rounds of policy iteration: what is told of each (Howard's algorithm; the book has none).
use crate::circuits::Circuit;
use crate::entries::{PlaceId, TransitionId};
use crate::ratios::Ratio;

/// The place that a policy gives to a member, which enters it, and the member's potential by the
/// policy, in the user's unit times the tokens of the round's ratio.
#[derive(Clone, Copy, Debug, PartialEq, Eq)]
pub struct Choice {
    pub transition: TransitionId,
    pub place: PlaceId,
    pub value: i128,
}

/// A policy of a part: its circuit, the ratio of that circuit, and a choice for each member in
/// order of number.
#[derive(Debug, Drop)]
pub struct Round {
    pub ratio: Ratio,
    pub circuit: Circuit,
    pub choices: Vec<Choice>,
}
