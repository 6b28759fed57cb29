//! The token game of a timed event graph, beside its least dating (chapter 2).
//!
//! The tokens of a circuit stay along each legal run, so none of its places ever holds more than
//! they are, and some run fills each with the fewest of a circuit; a circuit without tokens never
//! fires, and a net whose input lists go on is live just where its transitions can fire on and on.
//! A live net has an earliest run up to each number, one in the order of each rank, with all
//! firings that have a date; so its least dates are the earliest that legal runs reach. And each
//! firing may follow a run, from an earliest date on, or fails in one of three ways. Each law is
//! the contract of a function that does nothing when it runs. The crate stands on `run_laws` for
//! runs, on `dating_laws` and `teg_model` for datings, on `teg_loops` and `slope_laws` for circuits
//! in paths and walks, on `teg_net` for nets and on `dioid` for dates; no crate of the program
//! stands on it.
#![tactic(auto)]

mod laws;

pub use laws::{
    earliest_dates_exist, earliest_runs_are_first, earliest_runs_are_whole, earliest_runs_exist,
    firings_are_legal_or_fail, legal_runs_reach_least_dates, live_nets_fire_on, places_fill_up,
    places_hold_within_circuits, token_free_circuits_never_fire, tokens_on_circuits_stay,
};
