//! The net by whose dates the delays of a timetable are told (chapters 2 and 3).
//!
//! [`Planned::checked`] answers a live net with a timetable of it whose delays can be followed, or
//! why there is none: an [`Unplanned`]. [`release_net`] makes of it the net in which each departure
//! also waits for an input of its own: to each transition an input is added, with a place without
//! hold and token to the transition; the input's list has the releases of the departures up to a
//! number past all delays of the transition, from where it goes on by the period. No transition of
//! the net is an input there. The least dating of that net has the delayed dates in its first half
//! and the releases in its second (`delay_laws`). With no more than 200 transitions, and 4,000
//! transitions and places together, it keeps the limits of a net.
//!
//! The crate stands on `delay_laws` for timetables and what delays are, on a definition of
//! `timetable_files`, and on `teg_net` for nets; no search is below it. Its examples stand in
//! `witness_examples`, in `planned_nets.rt`.
#![tactic(auto)]

mod derived;
mod planned;
mod releases;
mod workable;

pub use derived::release_net;
pub use planned::{Planned, Unplanned};
