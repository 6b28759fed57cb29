//! The earliest timetable that a net can keep at a period (chapters 2 and 3).
//!
//! [`earliest_timetable`] answers the least first departures with which each place has its time,
//! or a circuit that takes longer than the period gives it, exactly where there are no such
//! departures, and [`earliest_timetable_at`] the same where the period is a fraction, in parts of
//! the unit, of which [`whole_date`] tells the whole dates. The crate stands on `teg_cycle` for the
//! circuit of greatest ratio, on `workable_laws` for what a period leaves a net, on `teg_loops` for
//! paths, on `teg_parts`, on `teg_check` for nets that are live, and on `teg_net`. No crate of the
//! program stands on it.
//!
//! ## How it works
//!
//! A period leaves each circuit its time just where the circuit of greatest ratio has it. Where it
//! does, rounds over the places move departures that are too early, from the least that ready dates
//! allow: after as many rounds as there are transitions none is too early, since a path that comes
//! to a transition twice asks for no more than one that does not.
#![tactic(auto)]

mod earliest;
mod laws;
mod longest;
mod refusal;
mod rounds;
mod starts;

pub use earliest::{earliest_timetable, earliest_timetable_at, whole_date};
pub use laws::{earliest_timetables_exist, whole_dates_keep_places};
pub use refusal::PeriodRefused;
