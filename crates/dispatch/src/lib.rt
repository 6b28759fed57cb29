//! A service on the library: what happened so far in a live net, the earliest dates from now on, and
//! which due dates they miss.
//!
//! A [`Dispatcher`] is seen by contracts as its net and the firings that happened (`ShopState`).
//! [`Dispatcher::fire`] takes down a firing that may follow them, exactly where it may.
//! [`Dispatcher::outlook`] tells the least dates of the system in which no firing that happened
//! comes before it did, and no other one before now nor before its input's list (`system_after`);
//! by `legal_runs_go_on` of `state_laws` they are, past what happened, those of the net that the
//! run leaves, which `net_after` of `teg_state` makes where one wants to ask it more.
//! [`Dispatcher::missed`] tells just the due rows that these dates miss (`is_missed`). The crate
//! stands on `teg_replay` for what happened, on `date_rows` for rows, on `state_laws` and
//! `run_laws` for what comes after a run, on `teg_due` for due rows, on `teg_check` for live nets,
//! on `teg_net` and `teg_outside`, and on `dioid` for dates. Its example stands in
//! `library_examples`, in `chapters_states.rt`.
#![tactic(auto)]

mod dispatcher;
mod forecast;
mod happened;

pub use dispatcher::{Dispatcher, NotFired};
pub use forecast::{is_after, missed, outlook};
pub use happened::Happened;
