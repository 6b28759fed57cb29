//! How delays spread through a timetable (chapters 2 and 3).
//!
//! A timetable plans a first departure of each transition, from which it departs again every
//! period. The definitions say what the planned dates are, what a table of delays makes of them,
//! when a timetable can be kept by a net, which delays are left at each firing, and whether they
//! die out or are kept for ever. The laws, of any live net, are the contracts of functions that do
//! nothing when they run. The crate stands on `periodic_laws` for that dates settle, on `teg_loops`
//! for circuits, on `settled_laws` for settled forms, on `teg_model` for datings, on `teg_net` for
//! nets, and on `dioid` for dates.
#![tactic(auto)]

mod laws;
mod outcomes;
mod rules;
mod settling;
mod table;
mod tight;

pub use laws::{delayed_datings_exist, delays_are_within, releases_follow_the_plan};
pub use outcomes::{
    circuits_keep_delays, delays_die_out, delays_die_out_or_are_kept, greatest_delays_are_passed_on,
};
pub use rules::is_table_of;
pub use settling::{
    delays_settle, forms_of_delays_are_one, forms_tell_delays, release_nets_tell_delays,
    steps_are_the_plan,
};
pub use table::{Delay, Outcome, Timetable};
pub use tight::{paths_pass_delays_on, shows_kept, tight_circuits_keep_delays};
