//! Checks of settled forms that are told: by the net alone, without a search (chapter 3).
//!
//! The law [`windows_go_on`]: where the least dating moves by steps in a window of its rows, it does
//! so for ever. [`check_settled`] tells whether rows move so by a period and steps; by the law they
//! then show the least dating at every number. [`check_shortest`] tells besides whether number and
//! period are the least. The crate stands on `dating_certificates` for rows of dates, on `teg_model`
//! for what a least dating is, and on `settled_laws` for dates that go on.
//! Its examples stand in `date_examples`.
#![tactic(auto)]

mod laws;
mod settled;
mod shortest;
mod told_form;

pub use laws::windows_go_on;
pub use settled::check_settled;
pub use shortest::check_shortest;
