//! Matrices of dates as texts.
ghost use Rattle.std.specs.Prelude.{◌≡◌, ◌++◌, ◌<◌, IfOk, string_bytes};
ghost use Rattle.matrix_values.specs.MatrixTexts.{entries_told, matrix_words};

use dioid::Date;
use dioid_matrix::Matrix;
use std::alloc::{AllocError, Global};
use teg_text::push_date;

// Appends the entries of a row, each behind a blank.
fn push_entries(text: &mut String, a: &Matrix<Date>, row: usize) -> Result<(), AllocError>
    requires { row < a.now.rows }
    ensures { IfOk result (λ _. string_bytes text.new
        ≡ string_bytes text.old ++ entries_told a.now row a.now.columns) }
{
    for column in 0..a.columns() {
        text.push(' ')?;
        push_date(text, *a.entry(row, column))?;
    }
    Ok(())
}

/// The matrix as a text for people: a line for each row, and in it each entry behind a blank, as
/// its number, in the user's unit, or as `epsilon` or `never` (chapter 3). `AllocError` comes only
/// where no memory is found. It takes time of the order of the length of the text.
pub fn matrix_text(alloc: Global, a: &Matrix<Date>) -> Result<String, AllocError>
    ensures { IfOk result (λ text. string_bytes text ≡ matrix_words a.now) }
{
    let mut text = String::new(alloc);
    for row in 0..a.rows() {
        push_entries(&mut text, a, row)?;
        text.push('\n')?;
    }
    Ok(text)
}
