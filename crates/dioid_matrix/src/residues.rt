//! Residuals of two matrices: meets over the rows.
ghost use Rattle.std.specs.Prelude.{◌≡◌, IfOk, ◌<◌, ℕ};
ghost use Rattle.dioid.specs.ElementAnswers.{Answers};
ghost use Rattle.dioid_matrix.specs.EntryLists.{AnswersCell, AnswersList};
ghost use Rattle.dioid_matrix.specs.Residuals.{meet_below, lefts, LeftMeetFits, RowFits, IsResidual, ResidualRefused};
ghost use Rattle.dioid_matrix.specs.Tables.{entry_of};

use crate::grid::Matrix;
use crate::refusals::{Cell, MatrixRefused};
use dioid::{Refused, Residuated};
use std::alloc::Global;

// The meet of an element with a residual.
fn meet_left<D: Residuated>(alloc: Global, before: &D, left: &D, right: &D) -> Result<D, Refused>
    ensures answer { Answers D.TAKES_MEMORY (LeftMeetFits D.Residuated.own before.now left.now
        right.now)
        (D.meet before.now (D.left left.now right.now)) result }
    ensures element { IfOk result D.is_element }
{
    let residual = left.left(alloc, right)?;
    before.meet(alloc, &residual)
}

// The entry of a residual: the meet of the rows' residuals, in column `column` of the left and
// column `other` of the right.
fn residue<D: Residuated>(
    alloc: Global,
    left: &Matrix<D>,
    right: &Matrix<D>,
    column: usize,
    other: usize,
) -> Cell<D>
    requires goes { left.now.rows ≡ right.now.rows }
    requires within { column < left.now.columns }
    requires inside { other < right.now.columns }
    ensures { let a = λ (i : ℕ). entry_of D.Dioid left.now i column in
        let b = λ (i : ℕ). entry_of D.Dioid right.now i other in
        AnswersCell D.Dioid left.now.rows (RowFits D.Dioid D.Residuated.own a b)
        (meet_below D.Residuated.own (lefts D.Dioid D.Residuated.own a b) left.now.rows) result }
{
    let rows = left.rows();
    let mut meet = match left.entry(0, column).left(alloc, right.entry(0, other)) {
        Ok(residual) => residual,
        Err(Refused::Range) => return Cell::Misfit(0),
        Err(Refused::OutOfMemory) => return Cell::NoMemoryLeft,
    };
    for row in 1..rows {
        let here = left.entry(row, column);
        match meet_left(alloc, &meet, here, right.entry(row, other)) {
            Ok(value) => meet = value,
            Err(Refused::Range) => return Cell::Misfit(row),
            Err(Refused::OutOfMemory) => return Cell::NoMemoryLeft,
        }
    }
    Cell::Value(meet)
}

// The entries of the residual of two matrices, by rows.
pub(crate) fn residue_list<D: Residuated>(
    alloc: Global,
    left: &Matrix<D>,
    right: &Matrix<D>,
) -> Result<Vec<D>, MatrixRefused>
    requires { left.now.rows ≡ right.now.rows }
    ensures { AnswersList D.Dioid left.now.columns right.now.columns
        (IsResidual D.Dioid D.Residuated.own left.now right.now)
        (ResidualRefused D.Dioid D.Residuated.own left.now right.now) result }
{
    let middle = left.columns();
    let columns = right.columns();
    let mut values = Vec::new(alloc);
    for place in 0..middle * columns {
        let (row, column) = (place / columns, place % columns);
        let value = residue(alloc, left, right, row, column).at(row, column)?;
        values.push(value)?;
    }
    Ok(values)
}

impl<D: Residuated> Matrix<D> {
    ghost use Rattle.std.specs.Prelude.{IfOk};
    ghost use Rattle.dioid_matrix.specs.Residuals.{AnswersResidual};
    ghost use Rattle.dioid_matrix.specs.Tables.{IsTable};

    /// The greatest `x` with `self x` at most `other`, entry by entry the meet over the rows of the
    /// residuals (chapter 4): the left's columns by the right's columns. It takes time of the
    /// order of the entries of the result, times the rows of the operands.
    ///
    /// `Shape`, with the left's rows and then the right's, exactly where these are not as many.
    /// `Range` names the first entry of `x` by rows that does not fit, and as step the first row of
    /// the operands whose residual, or its meet with the meet of those before it, does not fit.
    /// `OutOfMemory` comes only where no memory is found.
    pub fn left_residual(
        &self,
        alloc: Global,
        other: &Matrix<D>,
    ) -> Result<Matrix<D>, MatrixRefused>
        ensures answer { AnswersResidual D.Dioid D.Residuated.own self.now other.now result }
        ensures table { IfOk result (IsTable D.Dioid) }
        ensures left { IsTable D.Dioid self.now }
        ensures right { IsTable D.Dioid other.now }
    {
        if self.rows != other.rows {
            return Err(MatrixRefused::Shape {
                left_columns: self.rows,
                right_rows: other.rows,
            });
        }
        let entries = residue_list(alloc, self, other)?;
        Ok(Matrix {
            rows: self.columns,
            columns: other.columns,
            entries,
        })
    }
}
