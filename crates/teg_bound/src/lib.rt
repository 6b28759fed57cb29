//! How soon a net becomes periodic (chapter 3, cyclicity).
//!
//! [`settling_bound`] tells a number, read off a strongly connected net without dates from outside
//! and its greatest ratio, past which the least dates of the net go on by steps; or the first cause
//! why there is none. The period divides the least common multiple of the tokens of any choice of
//! critical circuits, one through each critical transition. [`settled_numbers`] tells the number
//! and the period of the shortest settled form of such a net: by runs, for which rows of the least
//! dating are made near overtakings alone, and where few rows tell no form, in memory that does not
//! grow with them: rows are made until the last ones come again, all moved by one step, and two
//! streams as far apart as that period tell from where on. [`bound_text`] and [`no_bound_text`] are
//! the texts of an answer, and different answers have different texts. The crate stands on
//! `teg_net`, on `teg_check`, `teg_parts` and `teg_certificates` for nets that are live, parts and
//! certificates, on `date_rows` for rows and those that are kept, on `run_rows` and `jump_laws` for
//! runs, on `bound_laws` for the laws of the bound, on `periodic_laws` for that each net settles,
//! on `dioid` for dates, and on `teg_text` for texts. Whole calls try it, in `worked_examples`.
//!
//! ## How it works
//!
//! [`settling_bound`] reads the number of chapter 16 of docs/GUIDE_PLANS.md off the net and its
//! greatest ratio a/b, without a date; the laws of `bound_laws` say why it is enough. T and C are
//! as there. Call b times the time of a walk less a times its tokens its worth: no circuit is worth
//! more than 0, and a critical one is worth 0.
//!
//! - A walk that meets no critical transition loses 1 or more with each loop, of at most C tokens;
//!   one by a critical circuit and a short path is worth -a (T + C) or more. So past the bound a
//!   best walk meets a critical transition, and rounds of a critical circuit there can be put in.
//! - They can be taken out too: where such a walk is long, it comes back somewhere with a multiple
//!   of m tokens (a pigeonhole), and rounds of the critical circuit of m tokens may stand in the
//!   place of that closed piece. So dates go on by every common multiple of the tokens of critical
//!   circuits, one through each critical transition.
//! - Two periods have their greatest common divisor as a period, so that of the shortest form
//!   divides each common multiple.
//!
//! `settled_numbers` tells from when on such a net is periodic, without its dates. A step never
//! falls along a place, so where each transition reaches each all steps of a form are one, and as
//! many rows as a place may have tokens that come again, all moved by one step, go on so for ever.
//! Of runs up to 10^17 the period is looked for at half of that, and the number by halving: that so
//! many numbers past it are moved and it is not is seen at last. Else two streams of rows look for
//! that among the rows that they keep, from a number that is doubled; two streams a period apart
//! then tell the last number at which they differ.
#![tactic(auto)]

mod bound;
mod jumps;
mod made_rows;
mod numbers;
mod readings;
mod texts;
mod two_streams;

pub use bound::{BoundAnswer, settling_bound};
pub use jumps::settled_numbers;
pub use texts::{bound_text, no_bound_text, texts_of_bounds_differ};
pub use two_streams::SettledNumbers;
