//! What the commands on the pace of a net come to: its cycle times, the slack of its places, the
//! tokens that a place lacks for a target, how soon its dates repeat, and the line of machines.
//!
//! Each command is one function (`cycle` has a second one for its rounds) with one definition of
//! what it says: `Tells (SaysX ..) (outcome_of result)`. All of them but `size` begin with the
//! cycle times. The crate stands on the crates that answer, `teg_cycle`, `teg_critical`,
//! `teg_sizing`, `teg_bound` and `trial_net`, on `teg_report` for the texts, and on `teg_outcome`
//! for how a command ends. What holds of all commands is told by `teg_commands`. Whole calls try
//! it, in `worked_examples`.
#![tactic(auto)]

mod bound;
mod cycle;
mod laws;
mod size;
mod slack;
mod trial;

pub use bound::tell_bound;
pub use cycle::{tell_cycle, tell_rounds};
pub use laws::{no_circuit_is_told, rounds_follow_times};
pub use size::tell_size;
pub use slack::tell_slack;
pub use trial::tell_trial;
