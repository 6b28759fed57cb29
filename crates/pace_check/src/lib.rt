//! Checks of printed paces and sizes: what a text shows of them, by the net and the text alone.
//!
//! | Answer | What is read | Call |
//! |---|---|---|
//! | `cycle` | the circuits and potentials of the parts | [`shown_times`], [`shown_pace`] |
//! | `size` | the circuit; potentials are searched for | [`shown_size`] |
//!
//! Each call reads a text, lets a checker look at what was read, prints the whole text anew, and
//! compares. So what it tells rests on the checker, on its law and on the words of the lines, and
//! neither on the parser nor on whatever found the answer. Where no pace is told, the clause says
//! nothing; where no size is, the text tells none that is so: whatever may be told is read, and
//! potentials are found wherever a number is enough.
//!
//! The crate stands on `teg_certificates` for checkers, on `teg_loops` for the law that paths can be
//! shortened, on `teg_parts` for strong parts, on `teg_lines`, `teg_text` and `word_lines` for texts,
//! on `witness_check` for whether a net is live, how places are named and where circuits are told from,
//! and on `teg_net` for nets; no crate that finds paces or sizes is below it. Its examples stand in
//! `witness_examples`.
#![tactic(auto)]

mod pace;
mod path_sums;
mod potentials;
mod reading;
mod size_reading;
mod sizes;

pub use pace::{shown_pace, shown_times};
pub use sizes::{ShownSize, shown_size};
