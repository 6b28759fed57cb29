//! How many firings of a transition come up to a date (chapter 5, counters).
//!
//! [`count_by`] tells it of the earliest dates of a net, from their settled form: the number up to
//! which they are at most the date, or that all of them are. The law [`live_nets_have_counters`]
//! says that a live net has counters. It stands on `teg_settle` for settled forms, on `counter_laws`
//! for what counters are, on `settled_laws`, `periodic_laws`, `dating_laws` and `teg_model` for
//! datings, on `teg_net` for nets, and on `dioid` for dates. No crate of the program stands on it.
//!
//! ## How it works
//!
//! Past its number a settled form goes on by a step in each period. So whole periods are counted by
//! a division, from the last date of the form on, and what is left by halving among the numbers of
//! one period.
#![tactic(auto)]

mod counts;
mod laws;

pub use counts::count_by;
pub use laws::live_nets_have_counters;
