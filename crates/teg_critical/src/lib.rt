//! Critical places and slack: by how much each hold may rise without a slower cycle (chapters 2
//! and 3).
//!
//! Its one contract: [`critical`] tells each place of a live net whether a circuit of the greatest
//! ratio passes it, or else by how much its hold may rise, and no more, so that the net with that
//! hold raised has the same greatest ratio, or that no circuit passes it. The condition is an
//! answer on cycle times that `check_cycle` accepts; its potentials turn the search for the best
//! paths back into a search for shortest paths. The crate stands on `teg_net`, on
//! `teg_certificates` for the ratio that an answer tells, and on `teg_loops` for the laws of paths
//! and circuits. That what the checkers of `teg_certificates` show of a place is its slack is the
//! law [`witnesses_tell_slacks`], and [`slack_witness`] hands out what they say yes to, for one
//! place. Its examples stand in `net_examples`, in `slack_witnesses.rt`.
#![tactic(auto)]

mod each_place;
mod endings;
mod heights;
mod hops;
mod laws;
mod losses;
mod searches;
mod slacks;
mod witnesses;

pub use each_place::critical;
pub use laws::{gaps_tell_slacks, slacks_are_of_the_net, slacks_are_one, witnesses_tell_slacks};
pub use slacks::{Slack, Slacks};
pub use witnesses::{SlackWitness, slack_witness};
