//! Loops of paths: what holds of the paths and circuits of every timed event graph (chapter 2).
//!
//! A path splits into a straight one, which comes to no transition twice, and circuits, with all
//! its sums. So what is asked of circuits is known of all paths. The one contract: each law is the
//! contract of a function that does nothing when it runs; crates above cite the definitions of
//! `specs/` and the lemmas of `proofs/`. The crate stands on `teg_net` alone.
#![tactic(auto)]

mod laws;

pub use laws::{
    circuits_pass_where_paths_lead_back, long_paths_come_round, long_paths_have_loops,
    paths_can_be_shortened, paths_split,
};
