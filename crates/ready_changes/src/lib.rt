//! Other ready dates of a place of a live net, which stands beside `LiveNet::set_hold` and its like.
//!
//! [`set_ready`] gives the tokens of a place the dates from which each may be taken (chapter 2), or
//! says why it may not have them. The net stays live (`ready_dates_keep_rankings`), with its
//! circuits and its pace (`ready_dates_keep_circuits`), and a change is taken back by one more
//! (`ready_dates_go_back`). The crate stands on `teg_check` for live nets and on `teg_net` for nets.
//! Its examples stand in `net_examples`, in `changed_nets.rt`.
#![tactic(auto)]

mod laws;
mod ready;
mod refusal;

pub use laws::{ready_dates_go_back, ready_dates_keep_circuits, ready_dates_keep_rankings};
pub use ready::set_ready;
pub use refusal::NotReady;
