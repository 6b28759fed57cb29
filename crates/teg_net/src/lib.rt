//! Timed event graphs: their entries, names and rules, from when their inputs and initial tokens
//! are there, and what paths, circuits and walks of them are.
//!
//! A [`Net`] is seen by contracts as its three lists (`NetLists`), which keep the rules of `IsNet`.
//! What speaks of dates of firings stands in crates above it. The crate stands on `number_laws` for
//! divisors and fractions in lowest terms.
//! Its examples stand in `library_examples`, in `made_nets.rt` and `held_nets.rt`.
//!
//! [`Net::checked`] makes a net of lists that a program made, or tells the first rule that they
//! break and where ([`NetFault`]); [`place_fault`] and [`input_fault`] tell that of one entry alone.
//! [`Names`] finds transitions and places by name, [`PlacesOf`] the places that leave or enter a
//! transition; both are made once and borrow nothing. The checkers (`is_net`, `is_path`,
//! `is_circuit`, `is_walk`) are true exactly by their definitions. What answers on parts and cycle
//! times mean stands here too.
//!
//! ## Call it
//!
//! `LOOP` is the file of two transitions: `b` fires 3 units after `a` by the place `ab`, and `a`
//! again 2 units after `b` by `ba`, which has a token. From
//! `library_examples::calls::a_circuit_has_a_time_and_tokens`:
//!
//! ```rust
//! let mut net = read_net(alloc, LOOP)?;
//! let there = net.find_place("ab").ok_or("no such place")?;
//! let back = net.find_place("ba").ok_or("no such place")?;
//! let circuit = [there, back];
//! assert!(rt; is_circuit(&net, &circuit));
//! assert!(rt; time_of(&net, &circuit) == 5 && tokens_of(&net, &circuit) == 1);
//! net.set_hold(there, 7);
//! assert!(rt; time_of(&net, &circuit) == 9);
//! ```
#![tactic(auto)]

mod answers;
mod bounded;
mod changes;
mod circuits;
mod copies;
mod entries;
mod faults;
mod inputs;
mod labels;
mod limits;
mod lookups;
mod memory;
mod name_order;
mod name_tables;
mod names;
mod net;
mod paths;
mod places_of;
mod ratios;
mod ready;
mod rounds;
mod rules;
mod walks;

pub use answers::{CycleAnswer, PartAnswer, Potential};
pub use bounded::{FiringNumber, UpTo};
pub use changes::{holds_keep_circuits, holds_keep_live_nets, holds_keep_places};
pub use circuits::Circuit;
pub use entries::{Again, DateList, InputList, Place, PlaceId, Role, Transition, TransitionId};
pub use faults::{InputFault, NetFault, PlaceFault};
pub use labels::Label;
pub use limits::{GREATEST_FIRING_NUMBER, GREATEST_HOLD, GREATEST_INPUT_DATE};
pub use memory::OutOfMemory;
pub use name_order::NameOrder;
pub use name_tables::Names;
pub use names::{Name, NameRefused};
pub use net::Net;
pub use paths::{is_circuit, is_path, time_of, tokens_of};
pub use places_of::{PlaceEnd, PlacesOf};
pub use ratios::Ratio;
pub use rounds::{Choice, Round};
pub use rules::{input_fault, is_net, place_fault};
pub use walks::{Step, Walk, is_walk, walk_end, walk_time};
