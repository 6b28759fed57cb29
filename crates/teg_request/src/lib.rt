//! What the words of the command line ask for.
//!
//! [`read_request`] gives the [`Request`] of the words, if they give one: `request_of` in
//! `specs/Requests.antt`, which tells also the files that a request names. The law
//! [`commands_are_those_of_the_usage`] says which commands words may ask for. The crate stands on
//! `teg_words` for words, on `teg_outcome` and `teg_net` for the numbers and texts that commands
//! take, on `teg_report` for the usage, and on `teg_timetable` for the greatest period. Whole calls
//! try it, in `worked_examples`.
#![tactic(auto)]

mod asked;
mod laws;
mod request;

pub use asked::read_request;
pub use laws::commands_are_those_of_the_usage;
pub use request::{FileCommand, NetCommand, Question, Request};
