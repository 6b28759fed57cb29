//! The standard form of a timed event graph: the greatest times of its paths without tokens, and of
//! those whose first place alone has tokens (chapter 2, the explicit form).
//!
//! Its one contract: [`standard_form`] answers exactly these times, sorted, for each pair of
//! transitions that such a path joins. Only the net's own places count. The law
//! [`least_dates_are_by_form`] ties the form to dates, and [`is_standard_form_of`] tests whether a
//! form is that of a net. The crate stands on `teg_net`, on `teg_check` for the ranks of a live
//! net, on `teg_model` for what a least dating is, on `dioid_matrix` for the star of a matrix, and
//! on `dioid` for dates. Its examples stand in `library_examples`.
#![tactic(auto)]

mod entries;
mod form;
mod laws;
mod matrix;
mod order;
mod stars;

pub use entries::Entry;
pub use form::{Form, is_standard_form_of, standard_form};
pub use laws::least_dates_are_by_form;
pub use stars::StarEntry;
