//! A plant that is asked from now on: its log goes in, and its dates, plans, cards and rhythm from
//! now on come out.
//!
//! A [`Plant`] is seen by contracts as its live net and the firings that happened in it, whether or
//! not they were legal. [`Plant::from_now_on`] gives the net that they leave (`IsNetAfter`), as an
//! [`Outlook`], and each answer of an outlook is one on that net: its firing j is firing n + j of a
//! transition that fired n times ([`Plant::fired`]), and by `nets_go_on` of `state_laws` its least
//! dating is that of the plant from now on. [`Plant::due_left`] gives the due rows that are still
//! to be met the numbers that an outlook asks for (`rows_left`), and [`Outlook::missed`] tells just
//! those that a table of its dates misses (`is_missed`). No call has a proof file: the contracts of
//! the calls that it makes tell all that it promises. It stands on `teg_state` for what is left, on `date_rows`, `teg_settle`, `teg_jit`, `teg_sizing` and
//! `pace_calls` for answers, on `dispatch` for what is missed, on `teg_due` for logs and due dates,
//! on `run_laws`, `state_laws`, `settled_laws` and `due_laws` for what they mean, on `teg_check` for
//! live nets and on `teg_net` for nets. Its example stands in `library_examples`, in
//! `logged_plants.rt`.
#![tactic(auto)]

mod outlook;
mod plant;

pub use outlook::Outlook;
pub use plant::{NotTaken, Plant};
