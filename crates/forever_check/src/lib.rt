//! A check of the printed answers about endless due dates: what the text of `teg forever` shows, by
//! the net, the rows of its file and the text alone (chapter 5).
//!
//! | Answer | What is read | Call |
//! |---|---|---|
//! | `forever`: releases without end | the dates of each input; rows of dates are found anew | [`shown_met`] |
//! | `forever`: the same, and that they are the latest | the same, and tables of latest dates | [`shown_forever`] |
//! | `forever`: late | the firing; rows of dates with all inputs at 0 are found anew | [`shown_endless_late`] |
//!
//! The lines are input lists, so the releases make a net of their own. Rows of its least dating are
//! found, and `check_shortest` looks at whether they settle; by `keeps_due_rows` of `endless_laws`
//! a window of that form tells whether what is due is met for every firing. That no release can be
//! later is shown by walks to due firings: a table of latest dates for finitely many of them is
//! made from the last number back, `check_latest` looks at it, and where it has the dates of an
//! input a walk has them; by the law `walks_move_on` those up to one turn tell all. Of a firing
//! that comes late a form of the net without its input lists tells by such windows that no row
//! before has one, and by `least_late` of `endless_laws` that its own has none before. Nothing
//! rests on the parser, nor on what finds rows.
//!
//! The crate stands on `endless_laws` and `forever_laws` for due dates that are kept and walks to
//! them, on `endless_due`, `teg_due` and `due_laws` for what is due, on `dating_certificates`,
//! `settled_certificates` and `latest_certificates` for rows, on `witness_check` for whether a net
//! is live, on `settled_forms` and `settled_laws` for settled forms, on `list_spans` for lists that
//! go on, on `teg_model` and `dioid` for dates, on `teg_text` and `late_lines` for words, and on
//! `teg_net` for nets; no crate of the program's search is below it. Its examples stand in
//! `witness_examples`, in `forever.rt`.
#![tactic(auto)]

mod due_rows;
mod found_rows;
mod going;
mod late;
mod latest;
mod made_rows;
mod met;
mod shortest;
mod stored;
mod texts;
mod told_lists;
mod turns;
mod with_lists;

pub use late::shown_endless_late;
pub use latest::shown_forever;
pub use met::shown_met;
