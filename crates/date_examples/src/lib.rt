//! Examples of dates: row after row, one by one, by jumps, in the part of a net that a transition
//! waits for, and settled by rows of one's own; tables of dates that are checked by the net alone;
//! timetables and due dates without end that a program makes itself; and what planners ask beside
//! dates. The crate has tests alone: they show what no contract says, that memory is found.
#![tactic(auto)]

#[cfg(test)]
mod jumps;
#[cfg(test)]
mod kept_delays;
#[cfg(test)]
mod kept_orders;
#[cfg(test)]
mod one_dates;
#[cfg(test)]
mod own_rows;
#[cfg(test)]
mod parts;
#[cfg(test)]
mod planner_calls;
#[cfg(test)]
mod streams;
#[cfg(test)]
mod told_dates;
