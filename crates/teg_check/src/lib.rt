//! Liveness of a timed event graph: whether some circuit has no tokens.
//!
//! [`check`] gives ranks that rise strictly along each place without tokens exactly where the net
//! is live, and otherwise names a circuit without tokens. A [`Live`] is seen by contracts as its
//! list of ranks; it stands for a net where `IsRanking` ties the two, which is what calls above
//! ask. [`ranks_of`] gives them of a net that is known to be live. The crate stands on `teg_net`
//! alone. Its examples stand in `library_examples`, in `calls.rt`.
//!
//! A circuit without tokens is told from its lowest numbered transition on.
//!
//! ## Call it
//!
//! `LOOP` is the file of two transitions: `b` fires 3 units after `a` by the place `ab`, and `a`
//! again 2 units after `b` by `ba`, which has a token. From
//! `library_examples::calls::a_net_is_held_and_changed`:
//!
//! ```rust
//! let mut held = LiveNet::new(alloc, read_net(alloc, LOOP)?)?;
//! let back = held.net().find_place("ba").ok_or("no such place")?;
//! held.set_hold(back, 4);
//! let place = held.net().place(back);
//! assert!(rt; place.hold == 4 && place.ready.as_slice().is_empty());
//! let refused = held.set_tokens(alloc, back, 0);
//! assert!(rt; matches!(refused, Err(CheckRefusal::TokenFree { .. })));
//! ```
#![tactic(auto)]

mod elimination;
mod exits;
mod live;
mod live_net;
mod refusal;

pub use elimination::{check, ranks_of};
pub use live::{Live, holds_keep_rankings, more_tokens_keep_rankings, ranked_nets_are_live};
pub use live_net::{LiveNet, NotHeld};
pub use refusal::CheckRefusal;
