//! How latest dates move with the due dates, and which inputs meet due dates beside others that do
//! (chapter 5, residuation).
//!
//! The later of two inputs that meet the due dates are inputs that meet them, and in a live net so do
//! all that come no later than some that do, just up to the latest dates; later due dates have later
//! latest dates, and due dates that all come late enough are met. Each law is the contract of a
//! function that does nothing when it runs. The crate stands on `latest_laws` and `due_laws` for due
//! and latest dates, on `dating_laws` for datings beside each other, and on `teg_model` for datings;
//! no crate of the program stands on it, and no checker.
#![tactic(auto)]

mod laws;

pub use laws::{
    inputs_meet_together, inputs_meet_up_to_latest, late_due_dates_are_met,
    latest_dates_move_with_dues,
};
