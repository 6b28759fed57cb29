//! Settled forms of datings: past some number the dates of each transition go on by a fixed step in
//! each period (chapter 3, cyclicity).
//!
//! The definitions say when a form stands for a dating, which form is the shortest, and what the
//! settling length is. The laws, of any dating, are the contracts of functions that do nothing when
//! they run. What tells in a window of rows whether the least dating of a system has settled is
//! proved here too, for the crate that looks for it. The crate stands on `teg_model` for datings,
//! on `teg_net` for nets, and on `dioid` for dates.
#![tactic(auto)]

mod laws;

pub use laws::{
    forms_tell_dates, settled_forms_are_one, shortest_forms_are_one, shortest_forms_exist,
};
