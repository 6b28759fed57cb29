//! Checks of latest dates that are told: by the net and the due dates alone, without a search
//! (chapter 5).
//!
//! [`check_latest`] tells whether a whole table of dates solves the backward equations for the due
//! dates of a list. The law [`locally_latest_rows_are_latest`]: such a table of a live net is that
//! of its latest dates, and no other is; and [`due_rows_are_listed`]: a list says what is due.
//! [`check_plan`] tells besides whether some inputs keep such a table: no date is before the start
//! of its firing. The crate stands on `dating_certificates` for rows of dates, on `teg_due` for the
//! rows of due dates, and on `due_laws` and `latest_laws` for latest dates.
//! Its examples stand in `date_examples`.
#![tactic(auto)]

mod latest;
mod laws;
mod plan;
mod solved_rows;

pub use latest::check_latest;
pub use laws::{due_rows_are_listed, locally_latest_rows_are_latest};
pub use plan::check_plan;
