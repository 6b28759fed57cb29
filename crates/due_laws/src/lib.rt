//! Due dates, the inputs that meet them, and the latest dates of firings (chapter 5).
//!
//! The definitions say when a dating keeps due dates, when inputs meet them, which inputs are the
//! latest that do, what the latest date of a firing is, and which walks show that dates are tight
//! or late. What is due is a function of the firing: by a list of rows, or without end. The laws,
//! of any due dates, are the contracts of functions that do nothing when they run. The crate stands
//! on `teg_model` for datings, on `teg_net` for walks and on `dioid` for dates.
#![tactic(auto)]

mod laws;

pub use laws::{free_where_no_walk_leads, latest_dates_are_latest_inputs, zero_inputs_meet};
