//! Checks of whether a net can run, by the net and the text alone, and what checks of other printed
//! answers share.
//!
//! | Answer | What is read | Call |
//! |---|---|---|
//! | each: the net is live | ranks are searched for | [`is_seen_live`] |
//! | no circuit at all, or none without tokens | numbers are searched for | [`rising_numbers`] |
//! | `check`: live | the counts | [`shows_live`] |
//! | `check`: refused | the circuit | [`shows_deadlock`] |
//!
//! Each of these calls says yes just where it is so: a text is read as just what was written, and a
//! checker looks at what was read. So what it tells rests on the checker, on its law and on the words
//! of the lines, and on nothing that found the answer. Paces and sizes are those of `pace_check`,
//! dates those of `dating_check` and `settled_check`, and delays those of `delay_check`. For them
//! stand here how places are named ([`places_of`], [`places_named`]) and ratios told ([`ratio_in`]),
//! how a first line tells where dates settle ([`settled_in_line`]), and where circuits are told from
//! ([`begins_lowest`]).
//!
//! The crate stands on `word_lines` for the words of a line, on `teg_net` for nets, on `teg_text` for
//! what the words are, on `teg_certificates` for checkers, and on `teg_loops` for circuits in paths;
//! no crate that finds paces, plans or dates is below it. Its examples stand in `witness_examples`.
#![tactic(auto)]

mod circuits;
mod climbs;
mod deadlock;
mod live;
mod names;

pub use circuits::begins_lowest;
pub use climbs::rising_numbers;
pub use deadlock::shows_deadlock;
pub use live::{is_seen_live, shows_live};
pub use names::{number_in, places_named, places_of, ratio_in, settled_in_line, words_behind};
