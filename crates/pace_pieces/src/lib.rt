//! The pace of a live net as a function of one holding time: by pieces, of which each is the ratio
//! of one circuit.
//!
//! [`pace_by_hold`] answers, for a place and a range of its holding time, the pieces from the least
//! holding time on, each with the circuit that then holds the net up and the line of its ratio. It
//! stands on `whatif` for the pace at one holding time, on `pace_calls` for what a pace is, on
//! `teg_loops` for how long circuits are, on `teg_check` for live nets and on `teg_net` for nets. No
//! crate of the program stands on it.
//!
//! ## How it works
//!
//! Along one circuit the ratio is a line in the holding time, so a circuit that has the greatest
//! ratio at both ends of a range has it between. Where neither circuit of the ends does, the range
//! is cut where their lines cross, and the pace is asked on both sides of the cut: the net has there
//! what one of the lines tells, or another circuit.
#![tactic(auto)]

mod lines;
mod pieces;
mod ranges;

pub use lines::Line;
pub use pieces::Piece;
pub use ranges::pace_by_hold;
