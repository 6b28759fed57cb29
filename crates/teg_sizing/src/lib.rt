//! How many more tokens a place needs for a given cycle time (chapters 2 and 3).
//!
//! [`size`] tells the least number of further tokens of a place with which no circuit of the net
//! has a greater ratio of time to tokens than a target, with a circuit that one token less leaves
//! above it; or that no number is enough, with a circuit that shows it. [`is_target`] tells which
//! ratios may be asked. [`enough_potentials`] gives the potentials that show a number to be enough,
//! as `check_enough` of `teg_certificates` reads them. [`sizing_text`] is the text of an answer,
//! [`no_place_text`] that of a name that no place has, and different answers have different texts.
//! The best paths are found in rounds over the places, with no regard to the limit on tokens. The
//! crate stands on `teg_net`, on `teg_certificates` for what is enough and what shows it, on
//! `teg_check` for nets that are live, on `teg_loops` for the laws of paths and circuits, and on
//! `teg_text` for texts. Its examples stand in `library_examples`, in `calls.rt`.
//!
//! ## How it works
//!
//! The search goes by the value of a path against the target: the target's tokens times the path's
//! time, less the target's time times the path's tokens. Rounds over the places give the greatest
//! values of paths of at most so many places. They stop at one that tells no more than that before
//! it, since those after it would tell no more either. One such search, from everywhere and without
//! the place, finds a circuit above the target that avoids the place, or shows that there is none;
//! another, from the end of the place, finds the best path back to its start, and with it the best
//! circuit that passes the place.
//!
//! ## Call it
//!
//! `LOOP` is the file of two transitions: `b` fires 3 units after `a` by the place `ab`, and `a`
//! again 2 units after `b` by `ba`, which has a token. From
//! `library_examples::calls::a_place_is_given_more_tokens`:
//!
//! ```rust
//! let held = LiveNet::new(alloc, read_net(alloc, LOOP)?)?;
//! let back = held.net().find_place("ba").ok_or("no such place")?;
//! let target = Ratio::of(2, 1);
//! let sizing = size(alloc, held.net(), held.live(), back, &target)?;
//! assert!(rt; matches!(sizing, Sizing::Enough { extra: 2, .. }));
//! ```
#![tactic(auto)]

mod loops;
mod potentials;
mod rounds;
mod sizing;
mod surpluses;
mod targets;
mod texts;
mod tracing;

pub use potentials::enough_potentials;
pub use sizing::{Sizing, size};
pub use targets::is_target;
pub use texts::{no_place_text, sizing_text, texts_of_sizings_differ};
