//! Files of rows about a net: due dates, and logs of recorded runs.
//!
//! [`read_due`] and [`read_log`] answer the rows of a file in order, or its first faulty row with
//! the first of its faults. Rows are counted from 1, a header included. The rows that are answered
//! keep the rules that the crates above ask for (`IsDueOf`, `IsLogOf`); rows that a program makes
//! itself are tested by [`is_due_of`] and [`is_log_of`]. [`transition_named`] and [`is_input`] are
//! what other readers of rows ask of a net too. The crate stands on `teg_net` for the names of
//! transitions and on `csv_records` for the reader of rows. Its examples stand in
//! `library_examples`, in `calls.rt`.
//!
//! ## Call it
//!
//! `LOOP` is the file of two transitions: `b` fires 3 units after `a` by the place `ab`, and `a`
//! again 2 units after `b` by `ba`, which has a token. From
//! `library_examples::calls::due_dates_are_read`:
//!
//! ```rust
//! let net = read_net(alloc, LOOP)?;
//! let due = read_due(alloc, &net, b"transition,number,date\nb,1,10\nb,2,20\n")?;
//! assert!(rt;
//!     due.rows
//!         .iter()
//!         .all(|row| row.date == 10 * u64::from(row.number))
//! );
//! let twice = read_due(alloc, &net, b"b,1,10\nb,1,20\n");
//! assert!(rt; matches!(twice, Err(DueRefusal::RepeatedDue { row: 2 })));
//! ```
#![tactic(auto)]

mod dues;
mod logs;
mod names;
mod row_rules;
mod rows;

pub use dues::read_due;
pub use logs::read_log;
pub use names::{is_input, transition_named};
pub use row_rules::{is_due_of, is_log_of};
pub use rows::{Due, DueRefusal, DueRow, LogRefusal, LogRow};
