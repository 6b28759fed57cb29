//! State as a value: what a timed event graph has still to do after a run, as a system and as a net
//! again (chapter 2, the dater equations and their initial conditions).
//!
//! The least dating goes on: where each transition t fired n(t) times, and no place gave more tokens
//! than it had and got, the firings to come are those of a system with the same places and holds, in
//! which a place has the tokens that are left in it, each available as it was for the firing that
//! takes it, and firing j waits for the release of firing n(t) + j. A run of a net so leaves a net:
//! its places with the tokens that are left, each with its ready date, none before now, and the
//! inputs' dates from their next firings on. What is asked of that net is asked of the old one from
//! now on. Each law is the contract of a function that does nothing when it runs. The crate stands
//! on `run_laws` for runs, on `teg_model` for datings and on `teg_net` for nets; no crate of the
//! program stands on it.
#![tactic(auto)]

mod laws;

pub use laws::{least_datings_go_on, legal_runs_go_on, nets_go_on};
