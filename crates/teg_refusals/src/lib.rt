//! One refusal for a whole program on the library.
//!
//! [`Refusal`] has a variant for each kind of refusal that a program meets on its way from files or
//! lists to its answers, and a conversion from each (`refusal_of_read` and its like), so that `?`
//! passes all of them up. Want of memory is one variant, whichever call met it. No crate of the
//! program stands on it: its line of `crates.txt` names the crates whose refusals it has, and
//! `thiserror`. Its examples stand in `library_examples`, in `one_refusal.rt`.
#![tactic(auto)]

mod refusal;

pub use refusal::Refusal;
