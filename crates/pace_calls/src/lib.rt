//! The pace of a live net in one call, for programs on the library.
//!
//! [`pace`] tells the greatest ratio of time to tokens over the circuits of the net (`IsPace`), and
//! [`bottleneck`] a circuit with it that has this ratio. Each makes the calls that the chain from a
//! net to its pace has. Where a net is changed and asked again and again, [`pace_from`] begins with
//! an answer of [`cycle_times`]. It has no proof file: the contracts of these calls tell all that it
//! promises. It stands on `teg_parts` and `teg_cycle` for the ratio, on `teg_check` for ranks and
//! on `teg_net` for nets. It is called by `pace_example`, `scheduler_loop` and `whatif`.
#![tactic(auto)]

mod paces;

pub use paces::{PaceWithCircuit, bottleneck, cycle_times, pace, pace_from};
