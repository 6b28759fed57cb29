//! What the checkers of `delay_check` show of a timetable is what the command says, and what it says
//! is what they ask: the same text, of the same delays, as a law. Each law is a function that does
//! nothing when it runs: its contract is the law.
//!
//! The crate stands on `delay_check`, and, for what the command says, on `teg_date_commands` and
//! `teg_timetable`, on `delay_laws`, `timetable_files` and `release_nets` for timetables and their
//! delays, on `settled_laws` for settled forms, on `teg_text` for words, and on `teg_net` for nets.
#![tactic(auto)]

mod laws;

pub use laws::{said_timetables_are_shown, shown_kept_is_said, shown_recovered_is_said};
