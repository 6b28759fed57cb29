//! Powers of a square matrix.
ghost use Rattle.std.specs.Prelude.{◌≡◌, ◌<◌, ◌+◌, IfErr, IfOk};
ghost use Rattle.dioid_spectra.specs.Powers.{AnswersPower, IsPower, IsWhyNoPower};
ghost use Rattle.dioid_spectra.specs.declared.powers.PowerRefused.TheVariants.{OutOfMemory};

use crate::made::identity;
use dioid::Dioid;
use dioid_matrix::{Matrix, MatrixRefused};
use std::alloc::{AllocError, Global};
use std::error::Error;
use std::fmt;

/// Why a matrix has no power.
#[derive(Clone, Copy, Debug, PartialEq, Eq)]
pub enum PowerRefused {
    /// It has not as many columns as rows.
    NotSquare,
    /// The first power whose product with the matrix does not fit.
    Range {
        /// Its exponent, from 0 on.
        before: u32,
        /// The first middle index at which that product does not fit.
        step: usize,
        /// The row of its first entry by rows that does not fit.
        row: usize,
        /// The column of that entry.
        column: usize,
    },
    /// No memory was found.
    OutOfMemory,
}

impl fmt::Display for PowerRefused {
    fn fmt<W: fmt::Write>(&self, f: &mut fmt::Formatter<W>) -> fmt::Result {
        match self {
            PowerRefused::NotSquare => write!(f, "the matrix is not square"),
            PowerRefused::Range { before, .. } => {
                write!(f, "power {before} times the matrix is out of range")
            }
            PowerRefused::OutOfMemory => write!(f, "no memory was found"),
        }
    }
}

impl Error for PowerRefused {}

impl From<AllocError> for PowerRefused {
    ghost from_gives = { λ _ e. e ≡ OutOfMemory };

    fn from(_error: AllocError) -> PowerRefused {
        PowerRefused::OutOfMemory
    }
}

// The next power.
fn next_power<D: Dioid>(
    alloc: Global,
    power: &Matrix<D>,
    matrix: &Matrix<D>,
    before: u32,
    exponent: u32,
) -> Result<Matrix<D>, PowerRefused>
    requires square { matrix.now.rows ≡ matrix.now.columns }
    requires power { IsPower D.Dioid matrix.now before power.now }
    requires within { before < exponent }
    ensures power { IfOk result (IsPower D.Dioid matrix.now (before + 1)) }
    ensures refused { IfErr result (IsWhyNoPower D.Dioid matrix.now exponent) }
{
    match power.times(alloc, matrix) {
        Ok(next) => Ok(next),
        Err(MatrixRefused::Range { step, row, column }) => Err(PowerRefused::Range {
            before,
            step,
            row,
            column,
        }),
        Err(_) => Err(PowerRefused::OutOfMemory),
    }
}

/// The power of a square matrix with this exponent (chapter 4): the identity for 0, and each next
/// one the one before by the matrix. It takes the time of `exponent` products.
///
/// `NotSquare` exactly where it has not as many columns as rows, and `Range` exactly where such a
/// product does not fit; `OutOfMemory` comes only where no memory is found.
pub fn power<D: Dioid>(
    alloc: Global,
    matrix: &Matrix<D>,
    exponent: u32,
) -> Result<Matrix<D>, PowerRefused>
    ensures { AnswersPower D.Dioid matrix.now exponent result }
{
    if matrix.rows() != matrix.columns() {
        return Err(PowerRefused::NotSquare);
    }
    let mut power = identity(alloc, matrix.rows())?;
    for before in 0..exponent {
        power = next_power(alloc, &power, matrix, before, exponent)?;
    }
    Ok(power)
}
