//! What the commands on a net itself come to: its size, its standard form, its file of the second
//! version; and the value of an expression.
//!
//! Each command is one function with one definition of what it says: `Tells (SaysX ..) (outcome_of
//! result)`. It stands on the crates that answer, `teg_form`, `teg_reader` and `teg_calc`, on
//! `teg_report` for the texts, and on `teg_outcome` for how a command ends. What holds of all
//! commands is told by `teg_commands`. Whole calls try it, in `worked_examples`.
#![tactic(auto)]

mod calc;
mod check;
mod form;
mod migrate;

pub use calc::tell_calc;
pub use check::tell_check;
pub use form::tell_form;
pub use migrate::tell_migrate;
