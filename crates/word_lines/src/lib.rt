//! Texts of lines of words, read whole: each text that is written so is read, and no other.
//!
//! [`lines_of`] gives the lines of a text, [`words_of`] the words of a line, [`text_at`] one of
//! either, and [`number_of`] the number that a word writes. What they read is just what was written
//! (`teg_text`), so a checker that finds something else in a text may say that the text is false,
//! and a text of which nothing is read is none of its kind. It stands on `teg_text` for what lines
//! and words are. Its examples stand in `witness_examples`.
#![tactic(auto)]

mod reading;

pub use reading::{lines_of, number_of, text_at, words_of};
