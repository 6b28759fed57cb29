//! What a transition waits for: the part of a net upstream of it, which has its dates (chapter 2).
//!
//! [`part_to`] answers the net of the same transitions with those places and input lists alone from
//! which a path leads to a transition. Nothing else delays it, so its dates by the least dating are
//! the same there, and where other circuits stand in the net they need not be looked at. A live net
//! has a live part, with the same ranks. The crate stands on `teg_check` for ranks, on `teg_model`
//! for datings, and on `teg_net` for nets.
//!
//! ## How it works
//!
//! The transition is marked, and in passes over the places each transition at which a place begins
//! that leads to a marked one, until each such place begins at a marked one (`marks_to`). Of a net
//! whose other transitions are left without places these have the dates 0, so no date is later than
//! in the net; and with the dates of the part at the marked transitions and their own elsewhere the
//! net's dates are feasible, so none is earlier (`PartDates`).
#![tactic(auto)]

mod copies;
mod marks;
mod parts;

pub use parts::part_to;
