//! The form of a net whose transitions go on by periods of their own (chapter 3, cyclicity).
//!
//! Where circuits of coprime numbers of tokens stand in one net, its period is their product, and as
//! many rows come again only after so many numbers. [`own_numbers`] tells the number and the period
//! of the shortest form of 10,000 rows, or nothing: it looks for the least period of each transition
//! by itself. The crate stands on `own_period_laws` for why that is enough, on `settled_laws` for
//! forms, on `date_rows` for rows, on `teg_check` for ranks, on `teg_model` for datings, on
//! `teg_net` for nets, and on `dioid` for dates.
//!
//! ## How it works
//!
//! Rows past 4,000 tell for each transition a period after which its dates come again, a step later
//! (`own_periods`). At the pace of the first transition a date is worth so much as it is later than
//! the pace, so in a period it is worth the same again. So a place keeps its slack for ever if the
//! greatest worth of a date of its start and its own, for each rest by the common divisor of the
//! two periods, are at most the least worth at its end (`all_keep_slack`); and a firing comes no
//! later than a period on if it comes with a token from a transition whose period divides its own,
//! or with the firing before (`all_met`). The period of the net is then the least common multiple
//! of the periods, and the number the greatest of theirs.
#![tactic(auto)]

mod meets;
mod numbers;
mod own_rows;
mod periods;
mod slack;

pub use numbers::{OwnNumbers, own_numbers};
