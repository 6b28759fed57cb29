//! The files of a call and its output: what a read opens, and how an answer is written.
//!
//! [`open_net`] and [`open_bytes`] read a file once and open it, or tell its refusal (`OpensNet`
//! and `OpensBytes` in `specs/Openings.antt`); [`finish`] writes how the work ended (`Finished` in
//! `specs/Finishing.antt`), and [`write_list`] the dates of `list` as they are made, of which
//! `SaysList` stands here. [`Status`] is how a call ends. The crate stands on `teg_outside` for
//! files and output, on `teg_reader` and `teg_check` for what is accepted, on `date_rows` for the
//! rows of a list, on `teg_report` for the texts, and on `teg_outcome` for how a command ends.
//! Whole calls try it, in `worked_examples`.
#![tactic(auto)]

mod ending;
mod fetching;
mod listing;
mod net_file;
mod opening;
mod second_file;
mod status;
mod writing;

pub use ending::{Ending, closed};
pub use listing::write_list;
pub use net_file::open_net;
pub use opening::Opened;
pub use second_file::{FileBytes, open_bytes};
pub use status::Status;
pub use writing::finish;
