//! Counters of a timed event graph: how many firings of each transition come up to each date
//! (chapter 5, counters and daters).
//!
//! Counters and datings tell each other: the counter of a transition reaches k just where its
//! firing k has come; and counters count the firings of earliest runs. Those of the least dating
//! solve min-plus equations, and are the greatest that keep within them, as the dates are the least
//! that keep within theirs. Each law is the contract of a function that does nothing when it runs.
//! The crate stands on `game_laws` and `run_laws` for runs, on `dating_laws` and `teg_model` for
//! datings, on `teg_net` for nets and on `dioid` for dates; no crate of the program stands on it.
#![tactic(auto)]

mod laws;

pub use laws::{counters_count_firings, counters_exist, counters_solve_min_plus_equations};
