//! Matrices that are equal.
ghost use Rattle.std.specs.Prelude.{◌≡◌, ◌↔◌, ◌<◌, IsTrue};
ghost use Rattle.dioid_matrix.specs.Tables.{entry_of};

use dioid::Dioid;
use dioid_matrix::Matrix;

// Whether the entries in this row and column are equal.
fn is_same_entry<D: Dioid>(left: &Matrix<D>, right: &Matrix<D>, row: usize, column: usize) -> bool
    requires rows { left.now.rows ≡ right.now.rows }
    requires columns { left.now.columns ≡ right.now.columns }
    requires row { row < left.now.rows }
    requires column { column < left.now.columns }
    ensures { IsTrue result ↔ (entry_of D.Dioid left.now row column
        ≡ entry_of D.Dioid right.now row column) }
{
    left.entry(row, column).same(right.entry(row, column))
}

/// Whether two matrices are equal, in their sizes and entry by entry (chapter 4). It takes no
/// memory, and time of the order of the entries.
pub fn equals<D: Dioid>(left: &Matrix<D>, right: &Matrix<D>) -> bool
    ensures { IsTrue result ↔ (left.now ≡ right.now) }
{
    let (rows, columns) = (left.rows(), left.columns());
    if rows != right.rows() || columns != right.columns() {
        return false;
    }
    for place in 0..rows * columns {
        if !is_same_entry(left, right, place / columns, place % columns) {
            return false;
        }
    }
    true
}
