//! Checkers of answers: each is given an answer with what shows it, a circuit, potentials or ranks,
//! and the net, and tells whether it is shown.
//!
//! | Answer | What shows it | Call |
//! |---|---|---|
//! | the cycle time | a circuit and potentials for each part | [`check_cycle`] |
//! | a net is not live | a circuit without tokens | [`shows_deadlock`] |
//! | a net is live | ranks | [`is_ranking`] |
//! | so many tokens are enough for a target | potentials | [`check_enough`] |
//! | they are too few | a circuit | [`shows_too_few`] |
//! | no number is enough | a circuit | [`shows_never_enough`] |
//! | a place is critical | a circuit | [`shows_critical`] |
//! | its hold may rise by so much and no more | potentials and a circuit | [`shows_rise`] |
//! | no circuit passes it | numbers, as those of parts | [`shows_no_circuit`] |
//!
//! None takes memory, and none takes more time than what it reads has pairs. That what is shown is
//! so are laws: so a reader may distrust whatever found an answer and still believe it.
//! [`best_ratio`] reads the ratio of the net off an answer on cycle times. The crate stands on
//! `teg_net` alone. Its examples stand in `library_examples`, in `chapters_nets.rt`, and in
//! `net_examples`, in `slack_witnesses.rt`.
//!
//! ## Call it
//!
//! `NET` is the file of a machine, `work`, that takes 3 units for each part that comes `in`, by the
//! place `busy`. From `library_examples::chapters_nets::an_answer_is_checked`:
//!
//! ```rust
//! let mut held = LiveNet::new(alloc, read_net(alloc, NET)?)?;
//! let parts = split(alloc, held.net())?;
//! let answer = cycle(alloc, held.net(), held.live(), &parts)?;
//! assert!(rt; check_cycle(held.net(), &answer));
//! let busy = held.net().find_place("busy").ok_or("no such place")?;
//! held.set_hold(busy, 5);
//! assert!(rt; !check_cycle(held.net(), &answer));
//! ```
#![tactic(auto)]

mod best_ratios;
mod certificate;
mod first_best;
mod inner_places;
mod laws;
mod liveness;
mod potentials;
mod sizes;
mod slack_witnesses;
mod sums;

pub use best_ratios::best_ratio;
pub use certificate::check_cycle;
pub use laws::{
    always_above_shows_none, certificates_tell, circuits_lie_in_one_part, critical_circuits_tell,
    potentials_bound_ratios, potentials_bound_weights, rise_potentials_tell,
    rising_numbers_show_no_circuit, rising_ranks_show_live, still_above_shows_more,
    target_potentials_show_enough,
};
pub use liveness::{is_ranking, shows_deadlock};
pub use sizes::{check_enough, shows_never_enough, shows_too_few};
pub use slack_witnesses::{RiseWitness, shows_critical, shows_no_circuit, shows_rise};
