//! Laws of rows of which each is seen once: a loop over rows that asks a table of numbers
//! (`Seen` of `csv_records`) whether it has seen the row, and then sees it, finds in one step a row
//! whether two of them are of one column and number.
//!
//! It has no code: its lemmas stand in `proofs/`, for rows of any kind, and proofs above cite them.
//! The crate stands on `csv_records`.
#![tactic(auto)]
