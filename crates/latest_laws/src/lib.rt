//! The latest dates of a timed event graph by their equations, and the inputs that meet due dates
//! (chapter 5, residuation and the backward equations).
//!
//! The latest dates solve equations that go back from the firings ahead, in a live net alone; they
//! are a feasible dating, the greatest that keeps the due dates; inputs meet the due dates just
//! where no float is negative; and a walk shows by itself that a date is bound or that a firing is
//! late. Each law is the contract of a function that does nothing when it runs. The crate stands on
//! `due_laws` for due and latest dates, on `teg_model` for datings, on `teg_net` for walks and on
//! `dioid` for dates; no crate of the program stands on it.
#![tactic(auto)]

mod laws;

pub use laws::{
    inputs_meet_by_floats, late_walks_refuse, latest_dates_are_feasible,
    latest_dates_are_solutions, latest_dates_solve_backwards, tight_walks_bound,
    zero_inputs_meet_by_starts,
};
