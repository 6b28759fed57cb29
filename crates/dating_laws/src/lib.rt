//! How the least datings of timed event graphs stand to each other, and feasible ones together
//! (chapter 2, the dater equations).
//!
//! Later releases lead to later dates; the later of two releases has the later of the two least
//! datings, so dates superpose; releases that are moved move no date by more; feasible datings have
//! the earlier of two among them; and a net with longer holding times, fewer tokens or further
//! places has later dates. Each law is the contract of a function that does nothing when it runs.
//! The crate stands on `change_laws` for slower nets, on `teg_model` for datings, on `teg_net` for
//! nets and on `dioid` for dates; no crate of the program stands on it.
#![tactic(auto)]

mod laws;

pub use laws::{
    dates_rise_with_the_net, feasible_datings_meet, later_releases_lead_to_later_dates,
    no_shift_grows, releases_are_superposed,
};
