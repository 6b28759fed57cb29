//! Sums and products of matrices.
ghost use Rattle.std.specs.Prelude.{◌≡◌, ◌<◌, ℕ};
ghost use Rattle.dioid_matrix.specs.EntryLists.{AnswersCell, AnswersList};
ghost use Rattle.dioid_matrix.specs.Products.{StepFits, IsProduct, ProductRefused};
ghost use Rattle.dioid_matrix.specs.Sums.{dot};
ghost use Rattle.dioid_matrix.specs.Tables.{entry_of};

use crate::grid::Matrix;
use crate::lists::{plus_product, sums};
use crate::refusals::{Cell, MatrixRefused};
use dioid::{Dioid, Refused};
use std::alloc::Global;

// The entry in this row and column of a product.
fn cell<D: Dioid>(
    alloc: Global,
    left: &Matrix<D>,
    right: &Matrix<D>,
    row: usize,
    column: usize,
) -> Cell<D>
    requires goes { left.now.columns ≡ right.now.rows }
    requires row { row < left.now.rows }
    requires column { column < right.now.columns }
    ensures { let a = entry_of D.Dioid left.now row in
        let b = λ (k : ℕ). entry_of D.Dioid right.now k column in
        AnswersCell D.Dioid left.now.columns (StepFits D.Dioid a b)
        (dot D.Dioid left.now.columns a b) result }
{
    let count = left.columns();
    let mut sum = match left.entry(row, 0).times(alloc, right.entry(0, column)) {
        Ok(product) => product,
        Err(Refused::Range) => return Cell::Misfit(0),
        Err(Refused::OutOfMemory) => return Cell::NoMemoryLeft,
    };
    for middle in 1..count {
        let here = left.entry(row, middle);
        match plus_product(alloc, &sum, here, right.entry(middle, column)) {
            Ok(value) => sum = value,
            Err(Refused::Range) => return Cell::Misfit(middle),
            Err(Refused::OutOfMemory) => return Cell::NoMemoryLeft,
        }
    }
    Cell::Value(sum)
}

// The entries of the product of two matrices, by rows.
pub(crate) fn products<D: Dioid>(
    alloc: Global,
    left: &Matrix<D>,
    right: &Matrix<D>,
) -> Result<Vec<D>, MatrixRefused>
    requires { left.now.columns ≡ right.now.rows }
    ensures { AnswersList D.Dioid left.now.rows right.now.columns
        (IsProduct D.Dioid left.now right.now) (ProductRefused D.Dioid left.now right.now) result }
{
    let rows = left.rows();
    let columns = right.columns();
    let mut values = Vec::new(alloc);
    for place in 0..rows * columns {
        let (row, column) = (place / columns, place % columns);
        let value = cell(alloc, left, right, row, column).at(row, column)?;
        values.push(value)?;
    }
    Ok(values)
}

impl<D: Dioid> Matrix<D> {
    ghost use Rattle.std.specs.Prelude.{◌≡◌, IfOk};
    ghost use Rattle.dioid_matrix.specs.Products.{AnswersProduct};
    ghost use Rattle.dioid_matrix.specs.Sums.{AnswersSum};
    ghost use Rattle.dioid_matrix.specs.Tables.{IsTable};

    /// The sum, entry by entry, of two matrices of equal sizes. It takes time of the order of the
    /// entries.
    ///
    /// `Range`, with step 0, exactly at the first entry by rows whose sum does not fit.
    /// `OutOfMemory` comes only where no memory is found.
    pub fn plus(&self, alloc: Global, other: &Matrix<D>) -> Result<Matrix<D>, MatrixRefused>
        requires rows { self.now.rows ≡ other.now.rows }
        requires columns { self.now.columns ≡ other.now.columns }
        ensures answer { AnswersSum D.Dioid self.now other.now result }
        ensures table { IfOk result (IsTable D.Dioid) }
        ensures left { IsTable D.Dioid self.now }
        ensures right { IsTable D.Dioid other.now }
    {
        let entries = sums(
            alloc,
            self.entries.as_slice(),
            other.entries.as_slice(),
            self.rows,
            self.columns,
        )?;
        Ok(Matrix {
            rows: self.rows,
            columns: self.columns,
            entries,
        })
    }

    /// The product of two matrices: the left's rows by the right's columns. It takes time of the
    /// order of the entries of the result, times the left's columns.
    ///
    /// `Shape` exactly where the left's columns are not as many as the right's rows. `Range` names
    /// the first entry by rows that does not fit, and as step the first middle index at which the
    /// product, or its sum with the sum of the products before it, does not fit. `OutOfMemory`
    /// comes only where no memory is found.
    pub fn times(&self, alloc: Global, other: &Matrix<D>) -> Result<Matrix<D>, MatrixRefused>
        ensures answer { AnswersProduct D.Dioid self.now other.now result }
        ensures table { IfOk result (IsTable D.Dioid) }
        ensures left { IsTable D.Dioid self.now }
        ensures right { IsTable D.Dioid other.now }
    {
        if self.columns != other.rows {
            return Err(MatrixRefused::Shape {
                left_columns: self.columns,
                right_rows: other.rows,
            });
        }
        let entries = products(alloc, self, other)?;
        Ok(Matrix {
            rows: self.rows,
            columns: other.columns,
            entries,
        })
    }
}
