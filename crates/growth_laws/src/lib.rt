//! How fast dates grow (chapter 3).
//!
//! Potentials of a set of transitions draw lines over its dates, certificates of cycle times draw
//! such lines over all of them, and the dates of a transition stay near a line of its slope, so
//! that date over number tends to the slope: the cycle time is the growth rate. Each law is the
//! contract of a function that does nothing when it runs. The crate stands on `slope_laws` for
//! slopes, and on `periodic_laws` for the periods of least datings and, below it, for settled
//! forms, datings, nets and dates; no crate of the program stands on it.
#![tactic(auto)]

mod laws;

pub use laws::{certificates_draw_lines, dates_grow_by_slopes, potentials_bound_dates};
