//! How many rounds policy iteration takes (chapter 3, Howard's algorithm).
//!
//! Of one ratio there are at most as many rounds as members, and the ratios of circuits have a
//! bounded number. Each law is the contract of a function that does nothing when it runs. The crate
//! stands on `teg_howard` for policy runs, on `teg_loops` for circuits in paths, and on `teg_net`
//! for nets; no crate of the program stands on it.
#![tactic(auto)]

mod laws;

pub use laws::rounds_are_few;
