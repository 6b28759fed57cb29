//! The greatest ratio of a part of a net (chapter 3), by policy iteration (Howard's algorithm).
//!
//! [`howard`] gives the rounds of the part and the answer of the last: its greatest ratio of
//! holding time to tokens, a circuit that has it, and potentials. The rounds are a policy run
//! (`IsPolicyRun`), and the answer tells what `IsPartAnswer` says of circuits and paths alone.
//! [`last_round`] gives the answer alone, and keeps one round at a time; [`last_round_from`] begins
//! with what an earlier answer tells, and not with the lowest numbered places. The crate stands on
//! `teg_parts` for parts, on `teg_check` for ranks, on `teg_certificates` for lemmas on what paths
//! weigh, and on `teg_net` for nets. Whole calls try it, in `worked_examples`.
//!
//! From round to round the ratio rises, or the circuit stays and the sum of potentials rises.
//!
//! ## How it works
//!
//! The greatest ratio of a part is found by policy iteration, whose rounds are stated as a relation
//! between neighbouring rounds, apart from the loop. What an answer tells is stated a second time,
//! of circuits and paths alone, and a third time as a certificate (`teg_certificates`).
#![tactic(auto)]

mod beginnings;
mod circuit_starts;
mod following;
mod inside;
mod iteration;
mod laws;
mod offers;
mod part_answers;
mod policies;
mod policy_circuits;
mod settling;
mod steps;

pub use laws::policy_runs_are_one;
pub use part_answers::{howard, last_round, last_round_from};
