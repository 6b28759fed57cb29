//! A check of printed dates: what the text of `teg dates` shows, by the net and the text alone.
//!
//! | Answer | What is read | Call |
//! |---|---|---|
//! | `dates` | its dates and steps | [`shown_settled`] |
//!
//! The call asks first whether the net is seen to be live. It reads the text without a promise, as
//! those of `witness_check` do, lets `check_shortest` look at what was read, prints the text anew, and
//! compares. So what it tells rests on the checker, on its law and on the words of the lines, and
//! neither on the parser nor on whatever found the answer. Where it tells nothing, its clause says
//! nothing.
//!
//! The crate stands on `settled_certificates` and `dating_certificates` for the checker of settled
//! forms and the rows that they tell, on `settled_laws`, `teg_model` and `dioid` for forms and dates,
//! on `witness_check` for whether a net is live and for first lines, on `teg_text` for words, and on
//! `teg_net` for nets; no crate of the program's search is below it.
//! Its examples stand in `witness_examples`.
#![tactic(auto)]

mod settled;
mod settled_reading;

pub use settled::{ShownSettled, shown_settled};
