//! Runs of the token game of a timed event graph: lists of firings, each a transition with a date
//! (chapter 2).
//!
//! The definitions say when a firing may follow a run, the three ways in which it fails, in their
//! order, from when on all that it waits for is there, and what the earliest run of a dating is.
//! They speak of lists alone, and of initial tokens from their ready dates on. The laws are the
//! contracts of functions that do nothing when they run: in a live net no firing of a legal run
//! comes before its least date, and where all came at their least dates, the earliest date of the
//! next is its least date; first parts of earliest runs are legal. The crate stands on `teg_net`
//! for nets, on `teg_model` for the least dating and on `dioid` for dates.
#![tactic(auto)]

mod fired;
mod laws;

pub use fired::Fired;
pub use laws::{
    earliest_is_least, earliest_runs_are_legal, failures_are_not_legal, legal_runs_are_not_early,
};
