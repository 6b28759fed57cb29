//! The numbers of a net's transitions and places, one after another.
//!
//! [`transition_ids`] and [`place_ids`] give iterators over all of them, in order, which contracts
//! see as the list of those that are left. The crate stands on `teg_net` alone.
//! Its examples stand in `library_examples`, in `numbers.rt`.
#![tactic(auto)]

mod ids;

pub use ids::{PlaceIds, TransitionIds, place_ids, transition_ids};
