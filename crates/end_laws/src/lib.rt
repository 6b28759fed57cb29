//! Times of walks from an input by those from the ends of its places (chapter 5).
//!
//! A walk from an input begins with one of its places and goes on from the end of that place. So its
//! greatest times are the latest, over these places, of the times from the ends, as many numbers on
//! as the place has tokens and so much later as it is held ([`walks_go_by_ends`]); and the times
//! from an end are those from an input that leads to it alone ([`ends_are_asked`]). Where the
//! latest of dates that go on by steps goes on by the greatest of these for one period, it does so
//! for ever ([`latest_goes_on`]). Each law is the contract of a function that does nothing when it
//! runs. The crate stands on `walk_times` for times of walks, on `own_period_laws` for dates that go
//! on by periods, on `teg_net` for nets, and on `dioid` for dates.
#![tactic(auto)]

mod laws;

pub use laws::{ends_are_asked, latest_goes_on, walks_go_by_ends};
