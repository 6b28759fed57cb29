//! What each command comes to on accepted files: how it ends, and its text.
//!
//! Each command but `list` is one function (`cycle` has a second one for its rounds) over values
//! that are accepted already, as a live net, with one definition of what it says of them:
//! `Tells (SaysX ..) (outcome_of result)`. Words, files, faults and writing are none of its
//! business; `teg_run` puts them before it and behind it. The commands stand by what they answer in
//! `teg_net_commands`, `teg_pace_commands`, `teg_date_commands` and `teg_plan_commands`, the outcome
//! and what commands take in `teg_outcome`; `list`, which is written as its rows are made, stands in
//! `teg_files`. The last of them stands here, `forever`, and what holds of all: the law that their
//! answers are told. The crate stands on those, on `teg_forever`, and on the crates whose texts the
//! law is about.
//! Whole calls try it, in `worked_examples`.
//!
//! Each command takes the allocator first, and answers `OutOfMemory` only where no memory is found.
//! Dates and holding times are whole numbers in the user's unit, firings are numbered from 1. A
//! command takes its net as `teg_check::LiveNet`, a net with its ranks, and asks the crates that
//! answer by both. Each case of what a command says has its cause, so no two hold of one net.
#![tactic(auto)]

mod forever;
mod laws;

pub use forever::tell_forever;
pub use laws::{answers_of_commands_are_told, unread_files_are_told};
