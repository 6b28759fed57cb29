//! Answers on cycle times: of each part, and of the whole net (chapters 2 and 3).
use crate::circuits::Circuit;
use crate::entries::TransitionId;
use crate::ratios::Ratio;

/// The potential of a transition at a ratio a/b: the greatest sum of b times holding time less a
/// times tokens along the paths in its part that lead to it from where the circuit of the part
/// begins, in the user's unit times the tokens of the ratio.
#[derive(Clone, Copy, Debug, PartialEq, Eq)]
pub struct Potential {
    pub transition: TransitionId,
    pub value: i128,
}

/// What is told of one part of a net.
#[derive(Debug, Drop)]
pub enum PartAnswer {
    /// No circuit lies in the part.
    NoCircuit,
    /// The greatest ratio of holding time to tokens over the circuits in the part, a circuit that
    /// has it, and a potential for each member in order of number.
    Best {
        ratio: Ratio,
        circuit: Circuit,
        potentials: Vec<Potential>,
    },
}

/// The cycle times of a net and of its parts.
#[derive(Debug, Drop)]
pub struct CycleAnswer {
    /// For each transition, in order, the number of its part, counted from 0.
    pub part_of: Vec<u32>,
    /// The answer of each part, by number.
    pub parts: Vec<PartAnswer>,
    /// The number of the first part of greatest ratio; none where the net has no circuit.
    pub best: Option<u32>,
}
