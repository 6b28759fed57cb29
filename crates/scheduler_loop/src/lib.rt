//! A service on the library, to begin one's own with: it holds a net, changes holding times by the
//! names of places, and is asked again and again for the pace, the bottleneck and the latest
//! inputs.
//!
//! A [`Scheduler`] is seen by contracts as its net, as it then is. The contract of
//! [`Scheduler::pace`] says that each pace is the greatest ratio of that net, with a circuit that
//! has it; that of [`Scheduler::latest`] that the plan has the latest inputs. A change that is
//! refused leaves the net as it was. It has no proof file: the contracts of the calls that it makes
//! tell all that it promises. It stands on `teg_reader` and `teg_due` for files, on `teg_net` and
//! `teg_check` for a net that is held, on `pace_calls` for the pace, and on `teg_jit` for the
//! latest inputs. Its examples stand in `library_examples`.
#![tactic(auto)]

mod refusals;
mod scheduler;

pub use pace_calls::PaceWithCircuit;
pub use refusals::NoAnswer;
pub use scheduler::Scheduler;
