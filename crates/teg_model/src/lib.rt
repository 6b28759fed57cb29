//! What a dating of a timed event graph is: a date for each firing of each transition. The
//! definitions say which datings are feasible, which is the least, and what the dates of walks over
//! firings are (chapter 2).
//!
//! Its laws: a system of places, with any dates of its initial tokens and any releases from
//! outside, has exactly one least dating where ranks rise along its places without tokens; a
//! feasible dating is the least just where it is tight; and each of its dates is the greatest start
//! plus time of the walks that end there. A live net under releases of its inputs is the instance
//! that most crates need. Each law is the contract of a function that does nothing when it runs.
//! The crates above cite the definitions. The crate stands on `teg_net` for nets and walks and on
//! `dioid` for dates.
#![tactic(auto)]

mod laws;
mod systems;

pub use laws::{
    least_dates_are_walks, least_dates_are_within, least_datings_are_one, least_datings_are_tight,
    least_datings_exist, live_nets_are_ranked,
};
pub use systems::{
    least_in_are_tight, least_in_are_walks, least_in_are_within, systems_have_least,
};
