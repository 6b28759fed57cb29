//! The algebra of dioids (chapter 4): what follows from their laws, from least solutions and from
//! greatest ones, for every dioid of the traits of `dioid` at once.
//!
//! The order of a dioid, the identities of stars, those of residuals, and what holds of both; that
//! the square matrices of any size over a dioid are one, with stars and residuals where it has
//! them, so that each of these laws is one of matrices too; that the products of dates, of flags and
//! of series commute, and that stars and residuals then are lawful on the right as well, of
//! matrices too. Each law is the contract of a function that does nothing when it
//! runs. The crate stands on `dioid` for the laws of each instance, on `dioid_matrix` for Kleene's
//! recursion and for residuals of matrices, and on `series_ops` for series; no crate of the program
//! stands on it.
#![tactic(auto)]

mod laws;

pub use laws::{
    equations_are_solved_by_residuals, feedback_keeps_transfers, products_commute,
    residuals_are_lawful, residuals_divide_on_the_right, square_matrices_are_a_dioid,
    square_matrices_have_residuals, square_matrices_have_stars, stars_act_on_the_right,
    stars_are_lawful, stars_have_residuals, sums_are_ordered,
};
