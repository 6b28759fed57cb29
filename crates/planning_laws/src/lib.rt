//! What a planner asks of a timetable and of a table of dates (chapters 2, 3, 5 and 6).
//!
//! Greatest times between firings can be kept in a timetable just where places back can; a job may
//! take longer by the least slack of its places, at the net's own pace or at that of a clock; parts
//! pile up in a place just where its end is slower than its start; holding times that vary keep
//! dates between two tables; releases that move, move dates; and where the first inputs are given,
//! the latest dates tell what may still come. Each law is the contract of a
//! function that does nothing when it runs. The crate stands on `workable_laws` for timetables, on
//! `teg_critical` for slack, on `growth_laws` for slopes, on `dating_laws` and `io_laws` for
//! releases, on `due_changes` and `due_laws` for latest dates, and on what they stand on; no crate of
//! the program stands on it.
#![tactic(auto)]

mod laws;

pub use laws::{
    clocks_tell_periods, given_inputs_meet_in_time, greatest_times_are_places_back,
    jobs_may_take_longer, periods_between_keep_greatest_times, releases_move_dates,
    varying_holds_lie_between, waits_are_bounded_by_equal_slopes,
};
