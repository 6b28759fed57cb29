//! Reads and writes net files: TOML with transitions, places and input lists.
//!
//! `read_net` answers the net that `document` defines for the bytes, or the first fault of the
//! file, or want of memory; `write_net` answers bytes of which `document` is the net. The crate
//! stands on `teg_net` for the net, on `toml` for the grammar and on `indexmap` for the numbers of
//! names.
//! Its examples stand in `library_examples`.
//!
//! A file is judged in fourteen passes: the first reads TOML, each other is one statement over the
//! whole tree, and the first finding is the refusal. The hold of a place is that of its entry and
//! the duration of its upstream transition.
//!
//! ## Call it
//!
//! `LOOP` is the file of two transitions: `b` fires 3 units after `a` by the place `ab`, and `a`
//! again 2 units after `b` by `ba`, which has a token. From
//! `library_examples::calls::a_net_is_read_and_written`:
//!
//! ```rust
//! let net = read_net(alloc, LOOP)?;
//! let back = net.find_place("ba").ok_or("no such place")?;
//! assert!(rt; net.place(back).hold == 2);
//! let file = write_net(alloc, &net)?;
//! let again = read_net(alloc, &file)?;
//! assert!(rt; again.places().len() == 2);
//! let empty = read_net(alloc, b"");
//! assert!(rt; matches!(empty, Err(ReadRefusal::NoTransitions)));
//! ```
#![tactic(auto)]

mod bad_names;
mod entries;
mod event_graph;
mod fields;
mod holds;
mod input_lists;
mod keys;
mod missing_keys;
mod numbers;
mod ranges;
mod reader;
mod ready_dates;
mod refusals;
mod repeats;
mod trees;
mod unknown_keys;
mod unknown_transitions;
mod walk;
mod writer;
mod wrong_kinds;

pub use keys::Key;
pub use reader::{read_net, refusals_are_plain};
pub use refusals::{ReadRefusal, Section, Spot};
pub use writer::write_net;
