//! Tests of what contracts ask of a call, for values that a program did not get from the call that
//! promises it.
//!
//! Each answers exactly by its definition: [`may_have_tokens`] before `Net::set_tokens`,
//! [`is_ranked`] before what takes a net and its ranks, [`is_enough`] before `enough_potentials`,
//! [`is_rising`] before `Series::from_list`, [`has_few_nodes`] and [`has_short_numbers`] before
//! `evaluate`. The numbers that they compare with are those of `call_limits`.
//! Its examples stand in `library_examples`, in `conditions.rt`.
#![tactic(auto)]

mod expressions;
mod lists;
mod nets;
mod sizes;

pub use expressions::{has_few_nodes, has_short_numbers};
pub use lists::is_rising;
pub use nets::{is_ranked, may_have_tokens};
pub use sizes::is_enough;
