//! Right residuals of matrices.
ghost use Rattle.std.specs.Prelude.{◌≡◌};
ghost use Rattle.dioid_laws.specs.Commuting.{ProductsCommute};
ghost use Rattle.matrix_values.specs.RightResiduals.{AnswersRightResidual, turned_refusal};

use dioid::Residuated;
use dioid_matrix::{Matrix, MatrixRefused};
use dioid_spectra::transpose;
use std::alloc::Global;

// The same refusal, with row and column of a misfit changed about.
fn turned_refusal(why: MatrixRefused) -> MatrixRefused
    ensures { result ≡ turned_refusal why }
{
    match why {
        MatrixRefused::Range { step, row, column } => MatrixRefused::Range {
            step,
            row: column,
            column: row,
        },
        other => other,
    }
}

/// The right residual of two matrices, `bound / divisor`: the greatest `x` with `x divisor` at most
/// `bound` (chapter 4), with the rows of the bound and as many columns as the divisor has rows.
/// Entry by entry it is the meet, over the columns of both, of the residuals of the bound's row by
/// the divisor's. Products have to commute: those of dates, of flags and of series do, by the law
/// `products_commute` of `dioid_laws`. It takes time of the order of the entries of the result,
/// times the columns of the operands, and memory for their transposes.
///
/// `Shape`, with the divisor's columns and then the bound's, exactly where these are not as many.
/// `Range` names the first entry of `x` by columns that does not fit, and as step the first column
/// of the operands whose residual, or its meet with the meet of those before it, does not fit.
/// `OutOfMemory` comes only where no memory is found.
pub fn right_residual<D: Residuated>(
    alloc: Global,
    bound: &Matrix<D>,
    divisor: &Matrix<D>,
) -> Result<Matrix<D>, MatrixRefused>
    requires { ProductsCommute D.Dioid }
    ensures { AnswersRightResidual D.Dioid D.Residuated.own divisor.now bound.now result }
{
    if divisor.columns() != bound.columns() {
        return Err(MatrixRefused::Shape {
            left_columns: divisor.columns(),
            right_rows: bound.columns(),
        });
    }
    let left = transpose(alloc, divisor)?;
    let right = transpose(alloc, bound)?;
    match left.left_residual(alloc, &right) {
        Ok(residual) => Ok(transpose(alloc, &residual)?),
        Err(why) => Err(turned_refusal(why)),
    }
}
