//! What a command comes to, and what commands take.
//!
//! A command on accepted files ends with a [`Verdict`] and a text, together a [`CommandOutcome`]; a
//! claim on both is `Tells`, in `specs/CommandOutcomes.antt`. The numbers and the text that
//! commands take are types with their bounds: `teg_net::UpTo` is a number from 1 on, of which
//! [`Count`], [`Limit`], [`Period`] and [`Machines`] are named here, [`Target`] a time of at most
//! 10^12 to tokens from 1 to 10^6, [`Expression`] a text of at most 4,096 bytes. The crate stands
//! on `teg_net`, and on `teg_text` for what a text is. Whole calls try it, in `worked_examples`.
#![tactic(auto)]

mod expression;
mod numbers;
mod outcome;

pub use expression::{Expression, MOST_EXPRESSION};
pub use numbers::{
    Count, GREATEST_TARGET_TIME, Limit, MOST_TARGET_TOKENS, Machines, Period, Target,
};
pub use outcome::{CommandOutcome, Verdict};
