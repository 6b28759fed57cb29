//! Due rows without end, cut off at a number.
ghost use Rattle.std.specs.Prelude.{◌≡◌, ◌≤◌, All, Any, IsTrue, Some, length};
ghost use Rattle.endless_due.specs.EndlessRows.{row_due};
ghost use Rattle.forever_check.specs.ReleaseWalks.{IsDueBy, IsDueIn, IsTurningDue, IsTurningIn};

use crate::going::going_date;
use crate::turns::{Turn, before_round, is_turn_of};
use endless_due::EndlessRow;
use std::alloc::{AllocError, Global};
use teg_due::{Due, DueRow};
use teg_net::{Again, GREATEST_INPUT_DATE};

// The date at which the row makes the firing due.
fn due_of(row: &EndlessRow, number: u32) -> u128
    requires first { 1 ≤ number }
    requires some { 1 ≤ row.now.every }
    requires enough { row.now.every ≤ length row.now.dates }
    ensures { row_due row.now number ≡ Some result }
{
    let again = Again {
        every: row.every,
        gap: row.gap,
    };
    going_date(row.dates.as_slice(), again, u64::from(number))
}

// Whether the row goes on.
fn goes_on(row: &EndlessRow) -> bool
    ensures some { IsTrue result → 1 ≤ row.now.every }
    ensures enough { IsTrue result → row.now.every ≤ length row.now.dates }
{
    1 <= row.every && row.every as usize <= row.dates.as_slice().len()
}

// Whether the row makes this firing due at this date.
fn is_due_by(row: &EndlessRow, due: DueRow) -> bool
    ensures { IsTrue result → IsDueBy row.now due }
{
    if !goes_on(row) || due.number == 0 || row.transition.index != due.transition.index {
        return false;
    }
    due_of(row, due.number) == u128::from(due.date)
}

// Whether it does so where it goes on, and goes on with the turn.
fn is_turning_due(turn: Turn, row: &EndlessRow, due: DueRow) -> bool
    ensures { IsTrue result → IsTurningDue turn row.now due }
{
    let ahead = u64::from(due.number) + u64::from(row.every);
    is_due_by(row, due)
        && (row.dates.as_slice().len() as u64) < ahead
        && is_turn_of(row.every, row.gap, turn)
}

// Whether some row makes this firing due at this date.
fn is_due(rows: &[EndlessRow], due: DueRow) -> bool
    ensures { IsTrue result → Any (λ r. IsDueBy r due) rows.now }
{
    rows.iter().any(|row| is_due_by(row, due))
}

// The same, as one fact.
fn is_due_in(rows: &[EndlessRow], due: &DueRow) -> bool
    ensures { IsTrue result → IsDueIn rows.now due.now }
{
    is_due(rows, *due)
}

// Whether rows make all these firings due.
pub(crate) fn are_dues(rows: &[EndlessRow], dues: &[DueRow]) -> bool
    ensures { IsTrue result → All (IsDueIn rows.now) dues.now }
{
    for due in dues {
        if !is_due_in(rows, due) {
            return false;
        }
    }
    true
}

// Whether some row that goes on with the turn makes this firing due at this date.
fn is_turning(turn: Turn, rows: &[EndlessRow], due: DueRow) -> bool
    ensures { IsTrue result → Any (λ r. IsTurningDue turn r due) rows.now }
{
    rows.iter().any(|row| is_turning_due(turn, row, due))
}

// The same, as one fact.
fn is_turning_in(turn: Turn, rows: &[EndlessRow], due: &DueRow) -> bool
    ensures { IsTrue result → IsTurningIn turn rows.now due.now }
{
    is_turning(turn, rows, *due)
}

// Whether rows that go on with the turn make all these firings due.
pub(crate) fn are_turning(turn: Turn, rows: &[EndlessRow], dues: &[DueRow]) -> bool
    ensures { IsTrue result → All (IsTurningIn turn rows.now) dues.now }
{
    for due in dues {
        if !is_turning_in(turn, rows, due) {
            return false;
        }
    }
    true
}

// Appends the due dates of the row past a number and up to another, but for those past the limit of
// due lists.
fn push_dues(
    dues: &mut Vec<DueRow>,
    row: &EndlessRow,
    past: u32,
    last: u32,
) -> Result<(), AllocError> {
    if !goes_on(row) {
        return Ok(());
    }
    for before in past..last {
        let number = before + 1;
        let date = due_of(row, number);
        if date <= u128::from(GREATEST_INPUT_DATE) {
            dues.push(DueRow {
                row: row.row,
                transition: row.transition,
                number,
                date: date as u64,
            })?;
        }
    }
    Ok(())
}

// The due dates of the rows up to a number. Nothing rests on them: they are looked at.
pub(crate) fn dues_to(alloc: Global, rows: &[EndlessRow], last: u32) -> Result<Due, AllocError> {
    let mut dues = Vec::new(alloc);
    for row in rows {
        push_dues(&mut dues, row, 0, last)?;
    }
    Ok(Due { rows: dues })
}

// Those of the rows that go on with the turn, where they go on. Nothing rests on them either.
pub(crate) fn turning_to(
    alloc: Global,
    rows: &[EndlessRow],
    turn: Turn,
    last: u32,
) -> Result<Due, AllocError> {
    let mut dues = Vec::new(alloc);
    for row in rows {
        let listed = before_round(row.dates.as_slice().len(), row.every);
        let past = u32::try_from(listed).unwrap_or(u32::MAX);
        if is_turn_of(row.every, row.gap, turn) {
            push_dues(&mut dues, row, past, last)?;
        }
    }
    Ok(Due { rows: dues })
}
