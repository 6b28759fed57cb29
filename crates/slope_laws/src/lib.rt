//! How fast the dates of a settled form rise (chapter 3).
//!
//! In a settled form of the least dating of a live net the last dates of a transition are `Never`
//! exactly where an input whose list ends reaches it; otherwise its step over the period is the
//! greatest of 0, the ratios of the circuits from which a path leads to it, and gap over `every` of
//! the inputs that reach it. The one contract: each law is the contract of a function that does
//! nothing when it runs, and holds of every form, of whatever length. The crate stands on
//! `settled_laws` for settled forms, on `teg_loops` for paths split into circuits, on `teg_model`
//! for datings, on `teg_net` for nets, and on `dioid` for dates.
#![tactic(auto)]

mod laws;

pub use laws::{forms_have_slopes, nevers_come_from_ended_lists, settled_forms_have_slopes};
