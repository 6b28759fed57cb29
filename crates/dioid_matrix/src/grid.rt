//! Matrices, how they are made, and their entries.
use crate::lists::known;
use crate::refusals::MatrixRefused;
use dioid::Dioid;
use std::marker::Model;

/// A matrix of elements of a dioid (chapter 4): from 1 to 4,096 rows and columns, and one entry for
/// each row and column.
///
/// Contracts see the sizes, and the entries row after row.
#[derive(Debug, Drop)]
pub struct Matrix<D: Dioid> {
    pub(crate) rows: usize,
    pub(crate) columns: usize,
    pub(crate) entries: Vec<D>,
}

impl<D: Dioid> Model for Matrix<D> {
    ghost use Rattle.dioid_matrix.specs.Tables.{Table, IsTable};

    ghost Value = { Table D };

    ghost view = { λ m. record { rows = m.rows; columns = m.columns; entries = m.entries.items } };

    ghost invariant = { λ m. IsTable D.Dioid
        (record { rows = m.rows; columns = m.columns; entries = m.entries.items }) };
}

impl<D: Dioid> Matrix<D> {
    ghost use Rattle.std.specs.Prelude.{◌≡◌, ◌≤◌, ◌<◌, IfOk};
    ghost use Rattle.dioid_matrix.specs.Tables.{AnswersNew, IsTable, entry_of};

    /// The matrix with these sizes and entries, row after row. Both sizes are from 1 to 4,096.
    /// Takes no memory.
    ///
    /// `Count` exactly where the list has not `rows x columns` entries, and no other refusal.
    pub fn new(rows: usize, columns: usize, entries: Vec<D>) -> Result<Matrix<D>, MatrixRefused>
        requires some_rows { 1 ≤ rows }
        requires few_rows { rows ≤ 4096 }
        requires some_columns { 1 ≤ columns }
        requires few_columns { columns ≤ 4096 }
        ensures answer { AnswersNew rows columns entries.items result }
        ensures table { IfOk result (IsTable D.Dioid) }
    {
        let wanted = rows * columns;
        let given = entries.len();
        if given != wanted {
            return Err(MatrixRefused::Count { wanted, given });
        }
        known(entries.as_slice());
        Ok(Matrix {
            rows,
            columns,
            entries,
        })
    }

    /// The number of rows. Takes no memory.
    pub fn rows(&self) -> usize
        ensures value { result ≡ self.now.rows }
        ensures table { IsTable D.Dioid self.now }
    {
        self.rows
    }

    /// The number of columns. Takes no memory.
    pub fn columns(&self) -> usize
        ensures value { result ≡ self.now.columns }
        ensures table { IsTable D.Dioid self.now }
    {
        self.columns
    }

    /// The entry in this row and column, both counted from 0 and in range. Takes no memory.
    pub fn entry(&self, row: usize, column: usize) -> &D
        requires row { row < self.now.rows }
        requires column { column < self.now.columns }
        ensures value { result.now ≡ entry_of D.Dioid self.now row column }
        ensures element { D.is_element result.now }
        ensures table { IsTable D.Dioid self.now }
    {
        &self.entries[row * self.columns + column]
    }
}
