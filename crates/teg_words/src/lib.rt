//! The words of the command line, read by `clap` into plain data.
//!
//! The one contract is that of [`read_words`]: the words are refused exactly where `clap` refuses
//! them for one simple command, and what is given is what `clap` says they give. The command has no
//! subcommands: a required first positional, any number of others, the option `--limit VALUE` and
//! the flag `--rounds`, without help and version. Which commands there are, and what each takes, is
//! the business of the caller. [`number`] is the one reading of a number among the words. It stands
//! on `clap`. Whole calls try it, in `worked_examples`.
#![tactic(auto)]

mod numbers;
mod simple_command;

pub use numbers::number;
pub use simple_command::{GivenWords, WordsRefusal, read_words};
