//! What the commands on plans and runs come to: the latest inputs by which due dates are met, and
//! how a recorded run is replayed.
//!
//! Each command is one function with one definition of what it says: `Tells (SaysX ..) (outcome_of
//! result)`. The crate stands on the crates that answer, `teg_jit` and `teg_replay`, on `teg_due`
//! for the rows of their files, on `teg_report` for the texts, on `teg_outside` for monitors, and
//! on `teg_outcome` for how a command ends. What holds of all commands is told by `teg_commands`.
//! Whole calls try it, in `worked_examples`.
#![tactic(auto)]

mod jit;
mod replay;

pub use jit::tell_jit;
pub use replay::tell_replay;
