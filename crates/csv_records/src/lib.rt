//! The records of a text whose fields are separated by commas, and the rows that they give.
//!
//! [`Records`] reads a text as the `csv` crate does: commas, quotes, any number of fields, no
//! trimming, no header; empty lines are no records, and one byte order mark at the start is passed
//! over. Contracts see the list of the records that are left. So the theory of `csv`'s machine is
//! used here alone. [`read_rows`] reads a file of any kind of rows: the kind is a [`RowFile`],
//! which gives the header, the row of a record and its faults, and may keep a [`Seen`] of what was
//! read. The crate stands on `csv`. Its examples stand in `library_examples`.
//!
//! A number is one decimal digit or more and nothing else, of any length.
#![tactic(auto)]

mod fields;
mod numbers;
mod records;
mod rows;
mod seen;

pub use csv::ByteRecord;
pub use fields::{ThreeFields, TwoFields, three_fields, two_fields};
pub use numbers::{is_number, number_up_to};
pub use records::{OutOfMemory, Records};
pub use rows::{RowFile, read_rows};
pub use seen::{GREATEST_SEEN_NUMBER, Seen};
