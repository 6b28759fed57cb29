//! State as a value: what a timed event graph has still to do after a run, as a net again (chapter
//! 2).
//!
//! [`net_after`] gives the net that a run leaves, and [`live_net_after`] that of a live net, which is
//! live; every answer of the library is then one from now on. What stands in a place is told by its
//! tokens and their ready dates, and what an input has still to come by its list. The contract says
//! which net it is (`IsNetAfter`), and the laws of `state_laws` that its least dating is that of the
//! old net from there on. A [`History`] keeps what happened, and tells how often each transition
//! fired and when ([`History::fired`], [`History::date`]), what now stands in a place
//! ([`History::tokens`]), and which due rows are still to be met, by their numbers from now on
//! ([`History::due_left`]). The crate stands on `state_laws` and `run_laws` for what is left of a
//! run, on `teg_due` for due rows, on `teg_check` for live nets and on `teg_net` for nets.
#![tactic(auto)]

mod due_rows;
mod held;
mod history;
mod inputs;
mod places;
mod refusal;
mod rest;

pub use held::{is_fed, live_net_after};
pub use history::History;
pub use refusal::NotLeft;
pub use rest::net_after;
