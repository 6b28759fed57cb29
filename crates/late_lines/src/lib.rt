//! The text of a firing that comes later than it is due, and of a walk that shows it (chapter 5).
//!
//! [`late_text`] gives the lines that `teg jit` prints where no inputs meet the due dates: its bytes
//! are just the lines of what is told. A checker prints them anew, without the crates that found the
//! firing. It stands on `teg_net` for nets and walks, and on `teg_text` for words. Its examples stand
//! in `witness_examples`, where a checker calls it.
#![tactic(auto)]

mod late;

pub use late::{LateFiring, late_text};
