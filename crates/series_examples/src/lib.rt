//! Examples of periodic series: a canonical form, and gains through the bounds, with the lines that
//! the calculator prints of them; of matrices of dates that are made, turned, met, divided and asked
//! for their eigenvalue; and of nets as matrices of series. The crate has tests alone: they show what
//! no contract says, that memory is found. It stands on `dioid`, `dioid_laws`, `dioid_matrix`,
//! `dioid_spectra`, `matrix_values`, `net_matrices`, `series_form`, `series_ops`, `teg_calc`,
//! `teg_check`, `teg_settle` and `example_nets`.
#![tactic(auto)]

#[cfg(test)]
mod forms;
#[cfg(test)]
mod matrices;
#[cfg(test)]
mod net_series;
#[cfg(test)]
mod spectra;
