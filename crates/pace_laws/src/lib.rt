//! The pace of a timed event graph: its greatest ratio of holding time to tokens (chapters 2 and
//! 3).
//!
//! A live net has a greatest ratio, or no circuit. The ratio falls where places hold for less time
//! or have more tokens, and it is the one ratio at which a strong part has tight potentials, the
//! eigenvectors of its max-plus matrix, from which dates go on by the ratio. All of them are told
//! by those that begin at critical transitions, one for each critical part, and by no fewer. Each law is the
//! contract of a function that does nothing when it runs. The crate stands on `change_laws` for
//! slower nets, on `teg_parts` for strong parts, on `teg_loops` for circuits in paths, and on
//! `teg_net` for nets; no crate of the program stands on it.
#![tactic(auto)]

mod laws;

pub use laws::{
    critical_circuits_tell_potentials, critical_parts_are_a_basis, critical_parts_tell_potentials,
    greatest_ratios_exist, pace_rises_with_the_net, potentials_are_spanned, tight_potentials_exist,
    tight_potentials_tell_the_ratio,
};
