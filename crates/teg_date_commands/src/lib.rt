//! What the commands on the dates of a net come to: its dates for ever and one of them, the times
//! from its inputs to its outputs, and how the delays of a timetable spread.
//!
//! Each command is one function with one definition of what it says: `Tells (SaysX ..) (outcome_of
//! result)`. The crate stands on the crates that answer, `teg_settle`, `run_rows`, `teg_transfer`
//! and `teg_timetable`, on `date_rows` for the rows of which the first two are asked in turn, on
//! `teg_report` for the texts, on `teg_text` for dates in that of `dates`, which is written from
//! the rows of the search, and on `teg_outcome` for how a command ends. What holds of all commands
//! is told by `teg_commands`. Whole calls try it, in `worked_examples`.
#![tactic(auto)]

mod dates;
mod limits;
mod one_date;
mod timetable;
mod told_dates;
mod transfer;

pub use dates::{tell_date, tell_dates};
pub use timetable::tell_timetable;
pub use transfer::tell_transfer;
