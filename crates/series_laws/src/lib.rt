//! The theory of periodic series: what a form is (a list of values, a period and a step), what sum,
//! minimum, product, residual and star of two functions from shifts to dates are, from where each
//! repeats, and that the results have one canonical form each. Its definitions speak of lists of
//! any length and numbers of any size.
//!
//! Its one contract: each function that never falls and repeats has one canonical form, and the
//! operations lead from forms to the forms of their functions within the stated needs. Each law is
//! the contract of a function that does nothing when it runs. The crates above cite the
//! definitions, and series with the bounds of the types are made there. The crate stands on `dioid`
//! for dates, and on `number_laws` for laws of whole numbers.
#![tactic(auto)]

mod laws;
mod plans;

pub use laws::{forms_are_lawful, series_are_closed};
pub use plans::{Anchor, NeedPlan, Slopes};
