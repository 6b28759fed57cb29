//! The cycle time and the cyclicity of nets (chapter 3): how fast dates grow, and their period, by
//! the strong parts of the critical graph.
//!
//! Dates grow by the greatest ratio. Of each strong part of the critical graph take the greatest
//! common divisor of the tokens of its circuits: the period of the dates of a strongly connected
//! net divides each common multiple of these numbers, and the periods of its transfers are
//! multiples of them. In a net with inputs and several parts the same holds of each transition, of
//! what leads to it at its slope, with the `every` of input lists, and of the times from one
//! transition to another, of what lies between. Each law is the contract of a
//! function that does nothing when it runs. The crate stands on `growth_laws` for the growth of
//! dates, on `slope_laws` for slopes, on `bound_laws` for critical circuits and walks with rounds
//! put in, on `periodic_laws` for the periods of least datings, and on `walk_times` for what a
//! transfer is; no crate of the program stands on it.
#![tactic(auto)]

mod laws;

pub use laws::{
    common_numbers_exist, cyclicity_is_by_parts, dates_grow_by_cycle_time, dates_repeat_by_parts,
    periods_divide_by_parts, transfers_repeat_by_parts,
};
