//! Nets that a program builds, an entry at a time.
//!
//! A [`NetBuilder`] is seen by contracts as the lists of a net, which keep the rules of nets
//! (`IsNet`) from its first transition on: each call appends one entry, or is refused with the rule
//! that the lists would break ([`BuildRefusal`], `IsNetFault`) and leaves them as they were. So
//! [`NetBuilder::finish`] refuses nothing and tests nothing again. The crate stands on `teg_net` for
//! nets and their rules, and on `thiserror`. Its examples stand in `library_examples`, in
//! `built_nets.rt`.
//!
//! ## Call it
//!
//! From `library_examples::built_nets::a_net_is_built`:
//!
//! ```rust
//! let mut line = NetBuilder::new(alloc, "in", Role::Input)?;
//! let entry = TransitionId::new(0);
//! let work = line.transition(alloc, "work", Role::Internal)?;
//! line.place(alloc, "belt", entry, work, 2, 0)?;
//! let busy = line.place(alloc, "busy", work, work, 3, 1)?;
//! let net = line.finish();
//! assert!(rt; net.find_place("busy") == Some(busy));
//! ```
#![tactic(auto)]

mod builder;
mod faults;
mod refusal;

pub use builder::NetBuilder;
pub use refusal::BuildRefusal;
