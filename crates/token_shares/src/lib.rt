//! The fewest further tokens over several places for a target pace (chapters 2 and 3).
//!
//! [`fewest_tokens`] tells how many further tokens up to six places need in all, so that no circuit
//! of the net has a greater ratio of time to tokens than a target, and how many each of them; that no
//! numbers are enough, with a circuit that shows it; or that it takes more than a budget. To find
//! the fewest over many places is as hard as to find the fewest arcs that meet each circuit of any
//! graph, so places and budget are few. `size` of `teg_sizing` answers for one place without a
//! budget, and over one place both tell the same ([`shares_of_one_are_its_size`]). The crate stands
//! on it for circuits above a target, on `teg_certificates` for how long circuits are, on
//! `teg_loops` for those that pass a place, on `teg_check` for live nets and on `teg_net` for nets.
//! No crate of the program stands on it. Its example stands in
//! `library_examples`, in `chapters_states.rt`.
//!
//! ## How it works
//!
//! Numbers are tried in rising order of their sum. A circuit that is above the target with the
//! numbers that were tried is kept, with its time, its tokens and how often it passes each of the
//! places: numbers that leave it above the target are passed over, and the net is searched only for
//! numbers that no kept circuit refutes. That no numbers whatever are enough is asked of the net in
//! which the places lead back to their own ends, so that a circuit above the target avoids them.
#![tactic(auto)]

mod bare;
mod budgets;
mod cuts;
mod fewest;
mod laws;
mod trials;

pub use fewest::{MOST_SHARED_TOKENS, MOST_SHARES, Shares, fewest_tokens};
pub use laws::shares_of_one_are_its_size;
