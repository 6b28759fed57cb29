//! Stars of matrices of dates as greatest weights of walks (chapter 3).
//!
//! The entry of a star is the greatest weight of the walks between its row and its column, or
//! `Never` where their weights pass every number. The law is the contract of a function that does
//! nothing when it runs. The crate stands on `dioid_matrix` for stars and on `dioid` for dates; no
//! crate of the program stands on it.
#![tactic(auto)]

mod laws;

pub use laws::stars_have_greatest_weights;
