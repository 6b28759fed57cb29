//! The cycle time of a timed event graph: the greatest ratio of holding time to tokens over all its
//! circuits, and over those of each part (chapters 2 and 3).
//!
//! [`cycle`] gives an answer that is a certificate (`IsCertificate`), and [`cycle_with_runs`] the
//! rounds of policy iteration with it; [`cycle_from`] begins with what an earlier answer tells, as
//! that on the net before a change. [`check_cycle`], which decides whether any answer is one,
//! and [`best_ratio`], which reads the ratio of the net off an answer, are those of
//! `teg_certificates`. The crate stands on `teg_howard` for the greatest ratio of a part, on
//! `teg_parts` for parts, on `teg_check` for ranks, on `teg_certificates` for certificates, and on
//! `teg_net` for nets. Its examples stand in `library_examples`, in `chapters_nets.rt`.
//!
//! ## Call it
//!
//! `NET` is the file of a machine, `work`, that takes 3 units for each part that comes `in`, by the
//! place `busy`. From `library_examples::chapters_nets::a_net_has_a_pace_and_a_bottleneck`:
//!
//! ```rust
//! let held = LiveNet::new(alloc, read_net(alloc, NET)?)?;
//! let parts = split(alloc, held.net())?;
//! let answer = cycle(alloc, held.net(), held.live(), &parts)?;
//! assert!(rt; best_ratio(&answer) == Some(Ratio::of(3, 1)));
//! for part in answer.parts.iter() {
//!     if let PartAnswer::Best { circuit, .. } = part {
//!         assert!(rt; circuit.places.len() == 1);
//!     }
//! }
//! ```
#![tactic(auto)]

mod again;
mod best_parts;
mod cycle_time;

pub use again::cycle_from;
pub use cycle_time::{cycle, cycle_with_runs};
pub use teg_certificates::{best_ratio, check_cycle};
