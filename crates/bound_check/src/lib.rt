//! A check of the printed bound: what the text of `teg bound` shows, by the net and the text alone.
//!
//! | Answer | What is read | Call |
//! |---|---|---|
//! | `bound`: a number, and from when on dates repeat | its numbers; rows and ratio are found anew | [`shown_bound`] |
//! | `bound`: why there is none | the cause | [`shown_bound`] |
//! | `bound`: false, by the cause | the same | [`refutes_bound`] |
//!
//! The text tells neither dates nor the greatest ratio of the net. So rows of the least dating are
//! found, and `check_shortest` looks at whether they settle as the second line says. Their steps
//! tell the ratio, their first period the potentials and a circuit, which `check_cycle` looks at;
//! then the number of the first line is compared with the formula. Nothing rests on the parser, nor
//! on what finds rows, ratio and circuit.
//!
//! The crate stands on `dating_certificates` for rows that are found, on `witness_check` for
//! whether a net is live, on `settled_certificates` and `teg_certificates` for checkers, on
//! `teg_parts` for strong parts, on `bound_laws` for the formula, on `settled_laws` and `dioid` for
//! forms and dates, on `teg_text` for words, and on `teg_net` for nets; no crate of the program's
//! search is below it but that of parts. That what is shown is what the command says is a law of
//! `answer_laws`. Its examples stand in `witness_examples`.
#![tactic(auto)]

mod bound;
mod cause;
mod formula;
mod reading;
mod settled_pace;
mod texts;

pub use bound::{ShownBound, refutes_bound, shown_bound};
pub use cause::WhyNone;
