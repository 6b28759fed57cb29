//! Inputs whose places lead on alike, but that from one all places are held so much longer than
//! from the other (chapter 5).
//!
//! [`lag_between`] answers by how much, if two transitions lead on so. Walks from such an input
//! take so much longer than those from the other, to each transition that is no input: so the times
//! of walks that `transfer` of `teg_settle` answers for the one are those for the other, moved, in
//! a form of the same length ([`lagged_times_are_moved`]). The crate stands on `teg_settle` for
//! times of walks, on `settled_laws` for settled forms, on `teg_net` for nets, and on `dioid` for
//! dates. Whole calls try it, in `worked_examples`.
#![tactic(auto)]

mod lags;
mod laws;

pub use lags::lag_between;
pub use laws::lagged_times_are_moved;
