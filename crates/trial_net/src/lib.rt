//! A line of machines with cards between neighbours, of any length up to the widest net: a net
//! whose answers are known beforehand, to try the workbench on.
//!
//! Its one contract is that of [`make_trial`]: the net is `trial`, which `specs/Trials.antt` writes
//! out place by place. The crate stands on `teg_net` alone. Whole calls try it, in
//! `worked_examples`.
#![tactic(auto)]

mod entries;
mod trial;

pub use trial::make_trial;
