//! Due dates without end, and the latest inputs that meet them, as laws (chapter 5).
//!
//! A row gives a transition a due date for each firing: a list that goes on past its end. The
//! definitions say which firings come too late for a row, and where such a firing is looked for;
//! the laws, that the least late number of a row is found so and is not great, and that the meet of
//! the residuals of due series by series of walk times has the latest dates of a transition. Each
//! law is the contract of a function that does nothing when it runs. The crate stands on
//! `endless_due` for rows, on `due_laws` for due dates of any kind, on `walk_times` for what series
//! of walk times are, on `list_spans` for dates of lists that never fall, on `bound_laws` for walks
//! as paths, on `series_laws`, `series_form`, `series_ops`, `periodic_laws` and `dioid_matrix` for
//! residuals, on `settled_laws` for settled forms, on `teg_model` for datings, on `teg_loops` and
//! `teg_net` for nets, and on `dioid` for dates.
#![tactic(auto)]

mod laws;

pub use laws::{
    columns_are_one, columns_exist, forms_are_series, free_at_each_number, late_is_soon,
    late_numbers_have_least, latest_at_inputs_are_latest, latest_dates_from_zero, meet_or_late,
    no_rows_are_met, paced_late_is_soon, residuals_are_latest_dates, rows_go_on, series_fit,
    turns_tell_late, zero_inputs_are_no_lists, zero_meets_where_none_late,
};
