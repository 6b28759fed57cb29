//! Which changes of a net keep its strong parts (chapter 2).
//!
//! Parts hang on the ends of places alone. So a place that holds longer, or has more tokens or other
//! ready dates, leaves the parts as they are (`same_ends_keep_parts`, `holds_keep_parts`,
//! `tokens_keep_parts`): who tries such changes calls `split` of `teg_parts` once. Each law is the
//! contract of a function that does nothing when it runs. The crate stands on `teg_parts` for parts
//! and on `teg_net` for nets.
#![tactic(auto)]

mod laws;

pub use laws::{holds_keep_parts, same_ends_keep_parts, tokens_keep_parts};
