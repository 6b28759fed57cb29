//! What the checkers of `answer_check`, `bound_check` and `round_check` show is what the commands
//! say: the same text, of the same dates, ratios and places, as a law. Each law is a function that
//! does nothing when it runs: its contract is the law. So a text that is shown is just one that
//! `teg list`, `teg bound` or, where the net has a circuit, `teg cycle --rounds` prints, of nets
//! without a circuit one that `teg slack` does, and of others one that tells the slack of each place.
//!
//! The crate stands on `answer_check`, `bound_check` and `round_check`, and, for what commands say, on
//! `teg_files` and `teg_pace_commands`, on `teg_critical` for slacks, on `teg_bound` for bounds, on
//! `teg_parts`, `teg_loops`, `teg_certificates`, `teg_howard`, `teg_cycle` and `pace_check` for cycle
//! times, and on `teg_net` for nets.
#![tactic(auto)]

mod laws;

pub use laws::{
    shown_bounds_are_said, shown_dates_are_said, shown_lists_are_said, shown_no_circuit_is_said,
    shown_rounds_are_said, shown_slacks_are_said,
};
