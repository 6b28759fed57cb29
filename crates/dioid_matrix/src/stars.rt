//! Stars of matrices, and least solutions by them.
use crate::grid::Matrix;
use crate::passes::star_entries;
use crate::refusals::MatrixRefused;
use dioid::Kleene;
use std::alloc::Global;

impl<D: Kleene> Matrix<D> {
    ghost use Rattle.std.specs.Prelude.{IfOk};
    ghost use Rattle.dioid_matrix.specs.Tables.{IsTable};
    ghost use Rattle.dioid_matrix.specs.Turns.{AnswersSolve, AnswersStar};

    /// The star of a square matrix, whose product with each column `b` is the least solution of
    /// `x = self x + b` (chapter 4). By Kleene's recursion, in n^3 sums and products: step `k` adds
    /// the ways through `k`, by the star of the pivot, and a last step adds one on the diagonal.
    ///
    /// `Shape`, with the columns and then the rows, exactly where the matrix is not square. `Range`
    /// exactly where an operation of the recursion does not fit; it names the first such step,
    /// counted from 1, in it the first row and in that the first column. `OutOfMemory` comes only
    /// where no memory is found.
    pub fn star(&self, alloc: Global) -> Result<Matrix<D>, MatrixRefused>
        ensures answer { AnswersStar D.Dioid D.Kleene.own self.now result }
        ensures table { IfOk result (IsTable D.Dioid) }
        ensures operand { IsTable D.Dioid self.now }
    {
        if self.columns != self.rows {
            return Err(MatrixRefused::Shape {
                left_columns: self.columns,
                right_rows: self.rows,
            });
        }
        let entries = star_entries(alloc, self.entries.as_slice(), self.rows)?;
        Ok(Matrix {
            rows: self.rows,
            columns: self.rows,
            entries,
        })
    }

    /// The least solution of `x = self x + right`: the star by `right`, with the sizes of `right`
    /// (chapter 4). It takes time of the order of n^3, as the star does, and of n^2 for each column
    /// of `right`.
    ///
    /// Its refusals are those of `star`, then those of `times` of the star by `right`; so
    /// `OutOfMemory` comes only where no memory is found.
    pub fn solve_least(&self, alloc: Global, right: &Matrix<D>) -> Result<Matrix<D>, MatrixRefused>
        ensures answer { AnswersSolve D.Dioid D.Kleene.own self.now right.now result }
        ensures table { IfOk result (IsTable D.Dioid) }
        ensures operand { IsTable D.Dioid self.now }
        ensures right { IsTable D.Dioid right.now }
    {
        // The use of a field tells that `right` is a table, also where the star is refused.
        let _ = &right.rows;
        let star = self.star(alloc)?;
        star.times(alloc, right)
    }
}
