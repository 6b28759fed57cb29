//! Rows of a matrix of dates that do not reach each other.
ghost use Rattle.std.specs.Prelude.{◌≡◌, ◌<◌, IfNone, IfOk, IfSome, IsFalse, IsTrue, None, length};
ghost use Rattle.dioid_spectra.specs.Eigenvectors.{IsNumber};
ghost use Rattle.matrix_values.specs.RowReach.{AnswersFromFirst, AnswersUnreached, AreReachedRows, AreRowsClosed, HasMarkedColumn, IsFirstOff, IsOpenRow};

use dioid::Date;
use dioid_matrix::Matrix;
use dioid_spectra::transpose;
use std::alloc::{AllocError, Global};

/// Two rows of a matrix, counted from 0, of which the first does not reach the second.
#[derive(Clone, Copy, Debug, PartialEq, Eq)]
pub struct RowsApart {
    /// From here no way leads to the other.
    pub from: usize,
    /// The row that is not reached.
    pub to: usize,
}

// Whether the entry is a number.
fn is_number(entry: Date) -> bool
    ensures yes { IsTrue result → IsNumber entry }
    ensures no { IsFalse result → IsNumber entry → ⊥ }
{
    matches!(entry, Date::At(_))
}

// Whether the row has a number in a column whose row is marked.
fn is_led_to(a: &Matrix<Date>, marks: &[bool], row: usize) -> bool
    requires row { row < a.now.rows }
    requires count { length marks.now ≡ a.now.columns }
    ensures yes { IsTrue result → HasMarkedColumn a.now marks.now row }
    ensures no { IsFalse result → HasMarkedColumn a.now marks.now row → ⊥ }
{
    for column in 0..a.columns() {
        if marks[column] && is_number(*a.entry(row, column)) {
            return true;
        }
    }
    false
}

// The first row that is not marked, but has a number in a column whose row is.
fn open_row(a: &Matrix<Date>, marks: &[bool]) -> Option<usize>
    requires square { a.now.rows ≡ a.now.columns }
    requires count { length marks.now ≡ a.now.rows }
    ensures some { IfSome result (IsOpenRow a.now marks.now) }
    ensures none { IfNone result (AreRowsClosed a.now marks.now) }
{
    for row in 0..a.rows() {
        if !marks[row] && is_led_to(a, marks, row) {
            return Some(row);
        }
    }
    None
}

// The rows that row 0 reaches, marked.
fn reached(alloc: Global, a: &Matrix<Date>) -> Result<Vec<bool>, AllocError>
    requires { a.now.rows ≡ a.now.columns }
    ensures reached { IfOk result (λ marks. AreReachedRows a.now marks.items) }
    ensures closed { IfOk result (λ marks. AreRowsClosed a.now marks.items) }
{
    let mut marks = vec![in alloc; false; a.rows()]?;
    marks[0] = true;
    'search: while let Some(row) = open_row(a, &marks) {
        marks[row] = true;
    }
    Ok(marks)
}

// The first row that is not marked.
fn first_off(marks: &[bool]) -> Option<usize>
    ensures { IsFirstOff marks.now result }
{
    for row in 0..marks.len() {
        if !marks[row] {
            return Some(row);
        }
    }
    None
}

// The first row that row 0 does not reach; none where it reaches each.
fn not_reached(alloc: Global, a: &Matrix<Date>) -> Result<Option<usize>, AllocError>
    requires { a.now.rows ≡ a.now.columns }
    ensures { IfOk result (AnswersFromFirst a.now) }
{
    let marks = reached(alloc, a)?;
    Ok(first_off(&marks))
}

// Row 0 and a row that does not reach it, where row 0 reaches each; none where each reaches it.
fn not_reaching(alloc: Global, a: &Matrix<Date>) -> Result<Option<RowsApart>, AllocError>
    requires square { a.now.rows ≡ a.now.columns }
    requires onward { AnswersFromFirst a.now None }
    ensures { IfOk result (AnswersUnreached a.now) }
{
    let turned = transpose(alloc, a)?;
    match not_reached(alloc, &turned)? {
        Some(from) => Ok(Some(RowsApart { from, to: 0 })),
        None => Ok(None),
    }
}

/// Two rows of a square matrix of dates of which the first does not reach the second, and none
/// exactly where each row reaches each row (chapter 3): then the matrix is irreducible, and else
/// reducible. A row reaches the rows that have a number in its column, and those that they reach.
/// `AllocError` comes only where no memory is found. It takes time of the order of the entries for
/// each row at most, and memory for the transpose.
pub fn unreached(alloc: Global, a: &Matrix<Date>) -> Result<Option<RowsApart>, AllocError>
    requires { a.now.rows ≡ a.now.columns }
    ensures { IfOk result (AnswersUnreached a.now) }
{
    match not_reached(alloc, a)? {
        Some(to) => Ok(Some(RowsApart { from: 0, to })),
        None => not_reaching(alloc, a),
    }
}
