//! The numbers up to which calls of the library may be asked.
//!
//! A contract of a call names its bound by a definition of its own crate, or by the number; here
//! each stands once as a constant, for code that tests what it was given before it asks. That each
//! constant is the number of the definition says [`limits_are_those_of_calls`], which does nothing
//! when it runs. The greatest holding time, input date and firing number are constants of `teg_net`.
#![tactic(auto)]

mod limits;

pub use limits::{
    GREATEST_EVERY, GREATEST_FIRED_DATE, GREATEST_LIMIT, GREATEST_PERIOD, GREATEST_SERIES_SHIFT,
    GREATEST_SERIES_VALUE, GREATEST_TARGET_TIME, MONOMIAL_BOUND, MOST_EXPRESSION_NODES,
    MOST_FILE_BYTES, MOST_FIRINGS, MOST_INPUT_DATES, MOST_LISTED_NUMBERS, MOST_MATRIX_ROWS,
    MOST_PLACE_TOKENS, MOST_PLACES, MOST_TARGET_TOKENS, MOST_TRANSITIONS,
    limits_are_those_of_calls,
};
