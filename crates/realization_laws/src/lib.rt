//! Realization (chapters 5 and 6): each causal periodic series has the greatest times of walks of a
//! live net of some size, and each transfer of a live net is such a series.
//!
//! Each law is the contract of a function that does nothing when it runs. The crate stands on
//! `walk_times` for transfers and, below it, for datings, nets and dates, and on `teg_check` for
//! ranks; no crate of the program stands on it.
#![tactic(auto)]

mod laws;

pub use laws::{series_are_realized, transfers_are_periodic};
