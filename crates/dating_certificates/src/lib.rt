//! Checks of rows of dates that are told: by the net alone, without a search (chapter 2).
//!
//! [`check_rows`] tells whether rows of dates are each the latest of what its firing waits for. The
//! law [`tight_rows_are_first_rows`]: such rows of a live net are the first rows of its least
//! dating. It is [`first_rows_are_least`] for the releases of the net's own input lists.
//! [`least_dates`] finds rows to be looked at. How many rows a list of dates is, what their dates
//! are and when a firing is released ([`rows_of`], [`ToldRows`], [`release`]) is what checkers of
//! settled forms (`settled_certificates`) and of latest dates (`latest_certificates`) read too. The
//! crate stands on `teg_model` for what a least dating is.
//! Its examples stand in `library_examples`.
#![tactic(auto)]

mod laws;
mod least_rows;
mod rows;
mod told_rows;
mod waits;

pub use laws::{first_rows_are_least, tight_rows_are_first_rows};
pub use least_rows::least_dates;
pub use rows::{check_rows, rows_of};
pub use told_rows::ToldRows;
pub use waits::release;
