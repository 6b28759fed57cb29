//! Checks of printed latest dates: what a text shows of them, by the net, the due list and the text
//! alone.
//!
//! | Answer | What is read | Call |
//! |---|---|---|
//! | `jit`: all its lines | the dates and steps of the lines | [`shown_table`] |
//! | `jit`: what is false | all lines; latest dates are made anew | [`table_fault`] |
//! | `jit`: a line | the steps of the lines that it leads to | [`shown_latest`] |
//! | `jit`: late | the walk | [`shown_late`] |
//! | `jit`: late, and first | the walk; least dates are found anew | [`shown_first_late`] |
//!
//! Each call but those on one walk asks first whether the net is seen to be live. It reads a text
//! without a promise, as those of `witness_check` do, lets a checker look at what was read, prints
//! the text anew, of a line of `jit` that line, and compares. So what it tells rests on the checker,
//! on its law and on the words of the lines, and neither on the parser nor on whatever found the
//! answer. Where it tells nothing, its clause says nothing, but of [`table_fault`]: it reads the
//! lines whole, and so it tells nothing just where nothing is false or the text is no table.
//!
//! The crate stands on `dating_certificates` and `latest_certificates` for checkers of dates, on
//! `latest_laws` for what walks show, on `witness_check` for whether a net is live, on `teg_due` and
//! `csv_records` for rows that are due, on `seen_rows` for rows that are seen once, on `teg_text`,
//! `word_lines` and `late_lines` for texts, and on `teg_net` for nets; no crate of the program's
//! search is below it.
//! Its examples stand in `witness_examples`.
#![tactic(auto)]

mod back_order;
mod due_rows;
mod first_late;
mod late;
mod latest;
mod made_rows;
mod rows;
mod table;
mod table_faults;
mod table_lines;
mod table_reading;
mod walk_reading;
mod ways;
mod wrong_line;

pub use first_late::shown_first_late;
pub use late::shown_late;
pub use latest::{ShownLatest, shown_latest};
pub use table::shown_table;
pub use table_faults::{TableFault, table_fault};
