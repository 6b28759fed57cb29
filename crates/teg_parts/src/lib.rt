//! The strong parts of a timed event graph.
//!
//! Two transitions have one part exactly where each reaches the other by a path. A [`Parts`] is
//! seen by contracts as its lists; it stands for a net where `AreParts` ties the two, which is what
//! calls above ask. [`split`] finds the parts by searches along the places and against them, and
//! [`are_parts`] tells whether a value has those of a net. The crate stands on `teg_net` alone. Its
//! examples stand in `library_examples`, in `chapters_nets.rt`, and in `net_examples`, in
//! `conditions.rt`.
#![tactic(auto)]

mod components;
mod laws;
mod numbering;
mod numbers;
mod parts;
mod places_along;
mod strong_parts;

pub use laws::parts_are_one;
pub use parts::Parts;
pub use strong_parts::{are_parts, split};
