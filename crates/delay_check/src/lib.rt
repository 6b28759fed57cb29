//! Checks of printed delays: what the text of a timetable's answer shows, by the net, the timetable
//! and the text alone.
//!
//! | Answer | What is read | Call |
//! |---|---|---|
//! | `timetable`: delays are kept | the circuit and the delays | [`shown_kept`] |
//! | `timetable`: delays die out | the number after which none is left, and the delays | [`shown_recovered`] |
//!
//! Each call reads a text without a promise, as those of `witness_check` do, looks at the net, at
//! the timetable and at what was read, prints the whole text anew, and compares. The delays, with
//! the plan and the releases, are rows of dates of the net with the releases as inputs
//! (`release_net`), which `check_shortest` looks at. Past the number of the first line they come
//! again in each period, so the lines show the number after which none is left by themselves. So
//! what the calls tell rests on the laws of delays and on the words of the lines, and neither on the
//! parser nor on whatever found the answer. Where they tell nothing, their clauses say nothing.
//!
//! The crate stands on `delay_laws` for timetables and what delays are, on `release_nets` for the
//! net with the releases, on `csv_records` and `seen_rows` for that no departure is delayed twice,
//! on `dating_certificates` and `settled_certificates` for rows of dates, on `witness_check` for
//! whether a net is live and how a circuit is told, on `teg_text` for words, on `settled_laws`,
//! `teg_model` and `dioid` for forms and dates, and on `teg_net` for nets; no crate of the
//! program's search is below it. Its examples stand in `witness_examples`.
#![tactic(auto)]

mod form_rows;
mod kept;
mod left;
mod over;
mod recovered;
mod spread_text;
mod tables;
mod telling;
mod told_delays;

pub use kept::shown_kept;
pub use recovered::shown_recovered;
