//! Due dates without end, and the latest releases of the inputs that meet them (chapter 5).
//!
//! The rows of a due file, each of which gives a transition dates that go on for ever, are read by
//! [`read_endless`] of `endless_due`. [`forever`] answers for each input the series of the latest
//! dates of its firings, or that it is free; or the first row that comes late whatever the inputs
//! are, with its least late number; or the first input whose series are too long.
//! [`releases_text`], [`forever_refusal_text`] and [`endless_refusal_text`] are the texts of the
//! answers, and different answers have different texts. The crate stands on `forever_laws` and
//! `due_laws` for what endless due dates are and what holds of them, on `teg_settle` and
//! `settled_laws` for settled forms of dates, on `walks_by_ends` for those of walk times, on
//! `teg_lags` for inputs that lead on alike, on `series_laws`, `series_form`, `series_ops`,
//! `steady_series`, `periodic_laws` and `dioid_matrix` for residuals of series, on `endless_due`
//! and `teg_due` for rows, on `teg_text` for texts, on `teg_model` for datings, on `teg_net` and
//! `teg_check` for nets, and on `dioid` for dates. Its examples stand in `date_examples`, in
//! `kept_delays.rt`.
//!
//! A refusal is told by its first cause: the first row that is late; then, of the first input that
//! is not fine, walk times without a settled form of at most 20,000 numbers, or else the first row
//! of which a residual, or its meet with those before, does not fit.
//!
//! ## How it works
//!
//! [`forever`] first asks whether inputs at 0 meet the due dates; a file without rows asks nothing.
//! The net without its input lists is settled within 20,000 numbers, if its form is so short, and
//! each row is held against the form up to a turn past the numbers from which both repeat: a turn
//! is a common multiple of the period of the row's transition, which may be far shorter than that
//! of the net, and of `every`. Where no firing up to there is late and the due dates rise no less
//! in a turn, none is late at all. Otherwise each number looked at falls behind by as much in each
//! turn, and the least late number is the one that is late after the fewest turns (`IsSoonest`);
//! only that one is known to be small (`LateIsSoon`), so turns are compared and not late numbers.
//! Before that two lines for each class of numbers may hold the dates and the due dates apart from
//! some number on (`none_late_past`): past those from which both repeat, or where due dates that
//! rise faster have caught up; then only the numbers up to there are looked at.
//!
//! Where the form is longer, as for rates that nearly agree, rows alone are asked (`src/alone.rt`,
//! `src/together.rt`): a stream makes the dates row by row, one for all rows of due dates.
//! Potentials of the row's own slope show that no circuit which leads to its transition gains on
//! it, if none does (`src/pace.rt`); a late number then comes up to a bound of the net's own, if at
//! all (`paced_late_is_soon`). Where one gains, rows are looked through for some seconds. What is
//! still open is decided by the form without a limit.
//!
//! Where no row is late, the inputs are worked out one after another: the shortest settled form of
//! the walk times from one, of at most 20,000 numbers, by those from the ends of its places where
//! these serve (`walks_by_ends`), so that ends which inputs share are settled once; of this the
//! series to the transition of each row; and the meet over the rows of the residuals of the due
//! series by these, which is the residual of a column of due series by a column of walk series.
//! Where due dates rise by the same step from each firing to the next, no series is made of the
//! walk times: by how much they are later than these steps, at most, tells the residual
//! (`walk_residual`). Where they do so after a list, few of the first walk times may tell it
//! (`left_by_first` of `steady_series`). Another residual of the same dates by the same series as
//! before is taken over (`Divisions`), and a meet of a series with itself is that series; rows that
//! are as the one before are not even gone through (`is_as_before`). An input whose places have the
//! ends and the tokens of those of an input before it, and are all held longer by one lag, or
//! shorter, or as long (`input_before`, by `lag_between` of `teg_lags`), gets that one's release,
//! each date so much earlier: its residual by the series of the lag alone (`earlier_release`). That
//! each residual and each meet then fits for the one input where it fits for the other is proved in
//! `forever_laws` (`moved_row_fits`): where they repeat from does not depend on the lag, and their
//! numbers lie between 0 and due dates. The value of the meet at shift k - 1 is the latest date of
//! firing k; never at the first shift means never at all, and then the input is free.
#![tactic(auto)]

mod alike;
mod alone;
mod answers;
mod asked;
mod divisions;
mod dues;
mod gains;
mod inputs;
mod lagged;
mod late;
mod leads;
mod pace;
mod plain_row;
mod releases;
mod residuals;
mod settled_row;
mod steady;
mod texts;
mod together;

pub use answers::forever;
pub use endless_due::{EndlessRefusal, EndlessRow, is_endless_of, read_endless};
pub use releases::{ForeverRefusal, Release};
pub use texts::{
    endless_refusal_text, forever_refusal_text, releases_text, texts_of_endless_differ,
};
