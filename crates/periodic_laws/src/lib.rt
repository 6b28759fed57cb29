//! The least dating of every live net settles: with several parts, with input lists that end or go
//! on, with any ready dates, past some firing the dates of each transition go on by a fixed step in
//! each period (chapters 3 and 5).
//!
//! The least dating is the least solution of one linear system over gains, the star of the entries
//! times the right side. Gains are closed under the operations, so the solution has canonical
//! forms, and these repeat. The same holds of every system of a live net whose releases never fall
//! and repeat, whatever the dates of its initial tokens. Each law is the contract of a function
//! that does nothing when it runs. No operand has to fit a type: the laws speak of the unbounded
//! model. The crate stands on `dioid_matrix` for the law of stars, on `series_ops` and
//! `series_laws` for gains, on `settled_laws` for settled forms, on `teg_model` for datings, on
//! `teg_net` for nets, and on `dioid` for dates.
#![tactic(auto)]

mod laws;

pub use laws::{
    least_datings_repeat, least_datings_solve, live_nets_settle, periodic_datings_settle,
    systems_settle,
};
