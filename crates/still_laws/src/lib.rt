//! Still nets: timed event graphs whose circuits take no time (chapter 3, cyclicity).
//!
//! Their greatest ratio is 0, and a strongly connected one is periodic from the first firing on,
//! with period 1. This is what the settling bound leaves out, which asks for a ratio above 0; all
//! other strongly connected nets keep it. Each law is the contract of a function that does nothing
//! when it runs. The crate stands on `bound_laws` and what it stands on, on `teg_model` for datings,
//! and on `teg_loops` for circuits in ways round; no crate of the program stands on it.
#![tactic(auto)]

mod laws;

pub use laws::{other_nets_are_strong, still_nets_settle_at_once};
