//! When endless due dates are met (chapter 3).
//!
//! Past the number at which the line that potentials draw over the dates of a row's transition
//! passes under its due dates, none is late; and where due dates rise by less than the dates of a
//! circuit that leads to their transition, some are. Each law is the contract of a function that
//! does nothing when it runs. The crate stands on `growth_laws` for lines, and on `forever_laws`
//! for endless rows and what is late; no crate of the program stands on it.
#![tactic(auto)]

mod laws;

pub use laws::{none_late_past_line, slow_dues_are_late};
