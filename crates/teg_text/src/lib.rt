//! Texts as lines of words, and how they are read back.
//!
//! It answers what words, lines, dates, ratios, labels and the names of a net look like, appends
//! those that std's formats do not write, and says that all of them can be read back, so that a
//! text of lines that tell different things differs. Its contracts are those of [`push_date`],
//! [`push_dates`], [`push_label`], [`push_places`], [`push_circuit`] and [`push_settled`], which
//! append just these words, that of [`row_fault`], and the laws [`lines_are_read`],
//! [`words_are_read`] and [`names_are_read`]. It stands on `dioid` for dates and on `teg_net` for
//! names and circuits.
//! Its examples stand in `library_examples`.
#![tactic(auto)]

mod faults;
mod laws;
mod names;
mod writing;

pub use faults::row_fault;
pub use laws::{lines_are_read, names_are_read, words_are_read};
pub use names::{push_circuit, push_places, push_settled};
pub use writing::{push_date, push_dates, push_label};
