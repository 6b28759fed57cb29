//! Meets of matrices.
ghost use Rattle.std.specs.Prelude.{◌≡◌, ◌<◌, IfErr, IfOk, OnOk};
ghost use Rattle.dioid_matrix.specs.Tables.{entry_of};
ghost use Rattle.matrix_values.specs.MatrixMeets.{AnswersMeet, EntryMeetFits, IsWhyNoEntryMeet};

use dioid::{Refused, Residuated};
use dioid_matrix::{Matrix, MatrixRefused};
use dioid_spectra::matrix_of;
use std::alloc::Global;

// The meet of the entries in this row and column.
fn entry_meet<D: Residuated>(
    alloc: Global,
    left: &Matrix<D>,
    right: &Matrix<D>,
    row: usize,
    column: usize,
) -> Result<D, MatrixRefused>
    requires rows { left.now.rows ≡ right.now.rows }
    requires columns { left.now.columns ≡ right.now.columns }
    requires row { row < left.now.rows }
    requires column { column < left.now.columns }
    ensures value { IfOk result (λ entry. entry ≡ D.meet (entry_of D.Dioid left.now row column)
        (entry_of D.Dioid right.now row column)) }
    ensures element { IfOk result D.is_element }
    ensures fits { OnOk result (EntryMeetFits D.Dioid D.Residuated.own left.now right.now row
        column) }
    ensures refused { IfErr result (IsWhyNoEntryMeet D.Dioid D.Residuated.own left.now right.now row
        column) }
{
    match left
        .entry(row, column)
        .meet(alloc, right.entry(row, column))
    {
        Ok(entry) => Ok(entry),
        Err(Refused::Range) => Err(MatrixRefused::Range {
            step: 0,
            row,
            column,
        }),
        Err(Refused::OutOfMemory) => Err(MatrixRefused::OutOfMemory),
    }
}

/// The meet of two matrices of equal sizes, entry by entry (chapter 4): the greatest matrix that is
/// at most both, so that what is at most both is just what is at most it. Of dates it has the
/// earlier of each two. It takes time of the order of the entries.
///
/// `Range`, with step 0, exactly at the first entry by rows whose meet does not fit, and no other
/// refusal but `OutOfMemory`, which comes only where no memory is found.
pub fn meet<D: Residuated>(
    alloc: Global,
    left: &Matrix<D>,
    right: &Matrix<D>,
) -> Result<Matrix<D>, MatrixRefused>
    requires rows { left.now.rows ≡ right.now.rows }
    requires columns { left.now.columns ≡ right.now.columns }
    ensures { AnswersMeet D.Dioid D.Residuated.own left.now right.now result }
{
    let rows = left.rows();
    let columns = right.columns();
    let mut entries = Vec::new(alloc);
    for place in 0..rows * columns {
        let entry = entry_meet(alloc, left, right, place / columns, place % columns)?;
        entries.push(entry)?;
    }
    Ok(matrix_of(rows, columns, entries))
}
