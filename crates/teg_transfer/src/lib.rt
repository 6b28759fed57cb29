//! The times from the inputs of a net to its outputs (chapter 5).
//!
//! [`transfer_times`] answers the greatest times of walks from the first firing of each input to
//! the firings of each output, as shortest settled forms (`AreTimesFrom` in
//! `specs/TimesFromInputs.antt`), and [`transfer_text`] tells them, one input after another
//! (`IsTransferText` in `specs/TransferTexts.antt`). The crate stands on `walks_by_ends` for the
//! times of walks from one input, by the ends of its places where these serve, on `teg_settle` for
//! limits, on `teg_lags` for inputs that lead on as one before does, and on `teg_report` for the
//! types of the answer and the lines of an input. Whole calls try it, in `worked_examples`.
#![tactic(auto)]

mod texts;
mod transfer;

pub use texts::transfer_text;
pub use transfer::transfer_times;
