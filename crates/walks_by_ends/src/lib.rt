//! The settled form of the times of walks from an input, by those from the ends of its places
//! (chapters 2, 3 and 5).
//!
//! A walk from an input goes on from the end of one of its places. Where many inputs lead to few
//! ends, the times from each end are settled once ([`Ends`]), and the times from an input are the
//! latest of these, so many numbers on and so much later. Their settled form is told by few of
//! them: past the numbers of all ends each goes on by a step, so once the latest goes on by the
//! greatest of these steps it does so for ever. [`walk_times_of`] answers the form of
//! `transfer_dates` of `teg_settle`, as an [`InputTimes`], by the ends where these serve, and by a
//! search of its own where not. An end serves where its form has period 1 and at most 500 numbers,
//! and those of all ends have no more than 2,000 together; and an input where it has 64 places at
//! most.
//!
//! The crate stands on `end_laws` for walks by ends, on `own_period_laws` for forms, on
//! `teg_settle` for times of walks, on `teg_due` for inputs, on `teg_check` for ranks, on `teg_net`
//! for nets, and on `dioid` for dates. Whole calls try it, in `worked_examples`.
#![tactic(auto)]

mod ends;
mod form;
mod inputs;
mod led;
mod times;
mod ways;

pub use ends::Ends;
pub use inputs::{InputTimes, walk_times_of};
