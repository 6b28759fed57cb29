//! The texts of cycle times, of rounds of policy iteration and of a circuit without tokens.
//!
//! They stand on `teg_net` and `teg_text` alone, so a program that prints or checks these answers
//! needs no other crate of the answers. Its contracts are those of [`cycle_text`] and
//! [`token_free_text`], whose bytes are just the lines of what is told, and the laws
//! [`lines_tell_back`], that it is read back from them, and [`certificates_can_be_told`]. What else
//! has a line with names of a net is [`LineOf`], and [`push_each`] appends the lines of a list of
//! it. Its examples stand in `library_examples`.
#![tactic(auto)]

mod circuits;
mod cycles;
mod laws;
mod rounds;
mod told;

pub use circuits::token_free_text;
pub use cycles::cycle_text;
pub use laws::{certificates_can_be_told, lines_tell_back};
pub use told::{LineOf, push_each};
