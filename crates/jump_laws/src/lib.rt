//! How far dates that move by turns go on so (chapter 3).
//!
//! Where in a window of its rows each date of the least dating moves in a turn by a step of its own
//! residue, it goes on so for a number of turns more that is read off the slacks of the last turn:
//! so rows need be made only near the numbers at which a place overtakes another. Each law is the
//! contract of a function that does nothing when it runs. The crate stands on `teg_model` for least
//! datings, and on `settled_laws` for settled forms.
#![tactic(auto)]

mod laws;

pub use laws::{
    dates_jump, dates_jump_in, forms_come_after_jumps, forms_reach_back, listed_dates_jump,
    no_fall_is_for_ever, runs_keep_dues, runs_tell_dates, turns_are_read_off, turns_are_told,
};
