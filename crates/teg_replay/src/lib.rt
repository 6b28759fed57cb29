//! The token game of a timed event graph, and the replay of a log of firings in it (chapter 2).
//!
//! Its one contract: a [`Game`] keeps a legal run; [`Game::fire`] accepts a firing exactly where it
//! may follow that run, and otherwise tells the first way in which it fails; in a live net no
//! accepted firing comes before its least date. [`replay`] fires the rows of a log up to the first
//! refused one, and shows each accepted firing to each monitor, in order, once.
//!
//! The crate stands on `run_laws` for runs and what holds of them, on `teg_net` for nets, on
//! `teg_due` for the rows of a log, on `teg_outside` for monitors, and on `teg_model` and `dioid`
//! for the least dating. Its examples stand in `library_examples`, in `chapters_plans.rt`.
//!
//! A call of [`Game::fire`] that is refused, for want of memory too, changes nothing.
//!
//! ## How it works
//!
//! A run is a list of firings, and what may follow it is said of the list alone (`run_laws`). A
//! `Game` keeps such a list and beside it what makes a firing cheap: of each transition the dates
//! of its firings, the places into it, those of them that are held longest, how many places leave
//! it, and where its input list stands; and the number of tokens in all places. Its contracts say
//! of these only that they are those of the list and the net (`IsGameOf`). Of places with one
//! upstream transition and as many tokens, one that is held longest has its token last, once a
//! firing brings it: so past its first 1,000 firings, as many as a place may have tokens, a
//! transition asks these places alone, and all places only to tell the first whose token is not
//! there. All memory that a firing needs is found before anything changes.
//!
//! ## Call it
//!
//! `NET` is the file of a machine, `work`, that takes 3 units for each part: one comes `in` every 4
//! units, and is 2 units on a belt. From `library_examples::chapters_plans::firings_are_replayed`:
//!
//! ```rust
//! let held = LiveNet::new(alloc, read_net(alloc, NET)?)?;
//! let mut game = Game::new(alloc, held.net())?;
//! let entry = held.net().find("in").ok_or("no such transition")?;
//! let work = held.net().find("work").ok_or("no such transition")?;
//! let firing = game.fire(alloc, held.net(), entry, 0)?;
//! assert!(rt; firing.tokens == 2);
//! let early = game.fire(alloc, held.net(), work, 1);
//! assert!(rt; matches!(early, Err(FireRefusal::Illegal { .. })));
//! ```
#![tactic(auto)]

mod column;
mod ends;
mod game;
mod history;
mod judge;
mod longest;
mod play;
mod refusal;
mod replayed;
mod waits;
mod watching;

pub use game::Game;
pub use play::replay;
pub use refusal::FireRefusal;
pub use replayed::{Refused, Replayed};
