//! A small crate on the library, to begin one's own with: the pace of a net as a line of text, and
//! the latest inputs that meet its due dates. It reads a net and a due file from bytes, and its one
//! contract is that of [`advise`]: the number in the line is the greatest ratio of time to tokens
//! over the circuits of the net, and the plan has the latest inputs; or each refusal has its cause.
//! It has no proof file: the contracts of the calls that it makes tell all that it promises. It
//! stands on `teg_reader` and `teg_due` for files, on `teg_net` and `teg_check` for a live net, on
//! `pace_calls` for the pace, on `teg_jit` for the latest inputs, on `teg_refusals` for the refusals
//! of all these calls as one type, and on `teg_text` for the words of its line. Its example stands
//! in `library_examples`.
#![tactic(auto)]

mod advice;

pub use advice::{Advice, advise};
