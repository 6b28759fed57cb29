//! Semirings with their laws: the traits of a dioid, of one with stars and of one with residuals,
//! and two instances, the truth values and the dates.
//!
//! Its one contract: each call of the traits answers the value of an unbounded model exactly where
//! its operands fit, says so exactly where they do not, and the model obeys the laws of a dioid, of
//! its star (least solutions) and of its residual (greatest solutions). Beside the traits it has
//! the calls on dates that need no memory, and the one order of dates. It stands on nothing but
//! std.
//! Its examples stand in `library_examples`.
#![tactic(auto)]

mod algebra;
mod dates;
mod flags;
mod max_plus;

pub use algebra::{Dioid, Kleene, Refused, Residuated};
pub use dates::{Date, Misfit, dates_are_ordered};
pub use flags::Flag;
