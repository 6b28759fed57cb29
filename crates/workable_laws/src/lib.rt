//! Periods at which a net can keep a timetable (chapters 2 and 3).
//!
//! A net can keep to a period just where the period leaves each circuit the time that its places
//! take, so just where the period is at least the greatest ratio. Each law is the contract of a
//! function that does nothing when it runs. The crate stands on `pace_laws` for greatest ratios and
//! best paths, and on `delay_laws` for timetables and nets; no crate of the program stands on it.
#![tactic(auto)]

mod laws;

pub use laws::{periods_from_the_ratio_are_workable, workable_periods_leave_time};
