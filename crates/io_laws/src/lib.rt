//! Input and output of a timed event graph (chapters 2 and 5, y = H u).
//!
//! The dates of a net are linear in its releases over max and plus: each is that of the net without
//! releases, or a response to a release, the latest of them. Each law is the contract of a function
//! that does nothing when it runs. The crate stands on `walk_times` for transfers and on what it
//! stands on; no crate of the program stands on it.
#![tactic(auto)]

mod laws;

pub use laws::dates_are_outputs;
