//! Whether rows keep the rules of due lists and of logs, tested when the program runs.
ghost use Rattle.std.specs.Prelude.{◌≡◌, ◌≢◌, ◌↔◌, ◌⊎◌, IsTrue, AllPairs, Any};
ghost use Rattle.teg_due.specs.RowRules.{IsDueOf, IsDueRow, IsLogOf, IsLogRow};

use crate::logs::GREATEST_LOG_DATE;
use crate::rows::{Due, DueRow, LogRow};
use csv_records::GREATEST_SEEN_NUMBER;
use teg_net::{GREATEST_INPUT_DATE, Net};

// Whether the row is a firing of the net that may be due.
fn is_due_row(net: &Net, row: DueRow) -> bool
    ensures { IsTrue result ↔ IsDueRow net.now row }
{
    net.contains_transition(row.transition)
        && !net.is_input(row.transition)
        && 1 <= row.number
        && row.number <= GREATEST_SEEN_NUMBER
        && row.date <= GREATEST_INPUT_DATE
}

// Whether one of the rows is of the firing of this row.
fn any_same_firing(rows: &[DueRow], row: DueRow) -> bool
    ensures { IsTrue result ↔ Any (λ r. (r.transition.index ≡ row.transition.index)
        × (r.number ≡ row.number)) rows.now }
{
    rows.iter().any(|r| r.transition.index == row.transition.index && r.number == row.number)
}

// Whether no two rows are of one firing.
fn are_once(rows: &[DueRow]) -> bool
    ensures { IsTrue result ↔ AllPairs (λ r s. (r.transition.index ≢ s.transition.index)
        ⊎ (r.number ≢ s.number)) rows.now }
{
    for (index, row) in rows.iter().enumerate() {
        if any_same_firing(&rows[..index], *row) {
            return false;
        }
    }
    true
}

// Whether the row is a firing of the net that a log may have.
fn is_log_row(net: &Net, row: LogRow) -> bool
    ensures { IsTrue result ↔ IsLogRow net.now row }
{
    net.contains_transition(row.transition) && row.date <= GREATEST_LOG_DATE
}

/// Whether these rows are a due list of the net, as [`crate::read_due`] gives them (rules of due
/// files): each row names a transition of the net that is no input, a firing number from 1 to
/// 10,000 and a date of at most 10^12 in the user's unit, and no two rows are of one firing. It
/// takes no memory, and as many steps as the square of the number of rows.
pub fn is_due_of(net: &Net, due: &Due) -> bool
    ensures { IsTrue result ↔ IsDueOf net.now due.now.rows.items }
{
    due.rows.iter().all(|row| is_due_row(net, *row)) && are_once(&due.rows)
}

/// Whether these rows are a log of the net, as [`crate::read_log`] gives them (rules of logs): each
/// row names a transition of the net and a date of at most 10^18 in the user's unit. It takes no
/// memory, and a step a row.
pub fn is_log_of(net: &Net, rows: &[LogRow]) -> bool
    ensures { IsTrue result ↔ IsLogOf net.now rows.now }
{
    rows.iter().all(|row| is_log_row(net, *row))
}
