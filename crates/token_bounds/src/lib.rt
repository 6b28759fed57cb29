//! How many tokens a place ever holds (chapter 2).
//!
//! [`most_tokens`] tells the fewest tokens of a circuit through a place, with such a circuit: no
//! legal run of the net ever has more tokens there. It stands on `teg_sizing`, which finds the
//! circuit, on `game_laws` and `run_laws` for what runs of a net hold in its places, on
//! `teg_certificates` and `teg_loops` for circuits, on `teg_check` for nets that are live, and on
//! `teg_net`. No crate of the program stands on it.
//!
//! ## How it works
//!
//! In a copy of the net the place alone takes time, one unit more than any circuit has tokens could
//! ask. The further tokens with which the circuits through it keep to one unit for each token are
//! then that time less the fewest tokens of these circuits, and the circuit that one token less
//! leaves above it is one of the fewest.
#![tactic(auto)]

mod most;

pub use most::{MostTokens, most_tokens};
