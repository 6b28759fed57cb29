//! Transitions whose dates go on by periods of their own (chapter 3, cyclicity).
//!
//! Where circuits of coprime numbers of tokens stand in one net, the period of the net is a long
//! common multiple, though each transition goes on by a short period. What tells that each goes on so
//! for ever is read off few rows ([`own_periods_go_on`]), and then the form of the net has the least
//! common multiple of the periods ([`own_periods_tell_forms`]). Each law is the contract of a
//! function that does nothing when it runs. The crate stands on `teg_model` for least datings, and on
//! `settled_laws` for settled forms.
#![tactic(auto)]

mod laws;

pub use laws::{own_periods_go_on, own_periods_tell_forms};
