//! Checks of further printed answers: what a text shows, by the net and the text alone.
//!
//! | Answer | What is read | Call |
//! |---|---|---|
//! | `list` | its dates | [`shown_list`] |
//! | `list`: false | its dates | [`refutes_list`] |
//! | the same, of dates that are known | nothing | [`is_other_list`] |
//! | `date` | the dates of the list of as many firings | [`shown_date`] |
//! | `date`: false | the same | [`refutes_date`] |
//! | `cycle`, `slack`: no circuit | numbers are searched for | [`shown_no_circuit`] |
//! | `slack` | circuits, potentials and numbers are searched for | [`shown_slack`] |
//!
//! Lists and dates are read as just what was written, and a net is seen to have no circuit just where
//! it has none: the calls on them say what is so both ways. The text of slacks is read without a
//! promise: what was read is looked at, and the whole text printed anew and compared. So what a call
//! tells rests on the checker, on its law and on the words of the lines, and on nothing that found the
//! answer.
//!
//! The crate stands on `dating_certificates` for checkers of dates, on `teg_certificates` for those
//! of ratios, on `witness_check` for whether a net is live, on `teg_model` for least datings, on
//! `teg_text` for words, and on `teg_net` for nets; no crate of the program's search is below it.
//! Its examples stand in `witness_examples`.
#![tactic(auto)]

mod date;
mod date_words;
mod firing_reading;
mod heights;
mod list;
mod list_reading;
mod no_circuit;
mod paths;
mod refuted_list;
mod slack;
mod slack_reading;
mod slack_search;

pub use date::{ShownDate, refutes_date, shown_date};
pub use list::shown_list;
pub use no_circuit::shown_no_circuit;
pub use refuted_list::{is_other_list, refutes_list};
pub use slack::{ShownSlack, shown_slack};
