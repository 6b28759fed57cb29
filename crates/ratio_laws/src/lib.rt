//! The greatest ratio of a net is one (chapters 2 and 3).
//!
//! What two calls tell as the greatest ratio over the circuits of a net, or of a part, is one
//! fraction (`greatest_ratios_are_one`), and in lowest terms one value (`lowest_ratios_are_one`): so
//! the pace of `cycle`, that of `size` at its target and that of a checker may be compared by `==`.
//! Each law is the contract of a function that does nothing when it runs. The crate stands on
//! `teg_net` for ratios and circuits, and on `pace_laws` for lemmas.
#![tactic(auto)]

mod laws;

pub use laws::{greatest_ratios_are_one, lowest_ratios_are_one};
