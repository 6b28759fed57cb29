//! Why a call on matrices gives none.
ghost use Rattle.std.specs.Prelude.{◌≡◌};
ghost use Rattle.dioid_matrix.specs.declared.refusals.MatrixRefused.TheVariants.{OutOfMemory};

use dioid::Refused;
use std::alloc::{AllocError, AllocFailed};
use std::error::Error;
use std::fmt;

/// Why a call on matrices gives none. Rows, columns and middle indices are counted from 0.
#[derive(Clone, Copy, Debug, Drop, PartialEq, Eq)]
pub enum MatrixRefused {
    /// A list that has not one entry for each row and column.
    Count {
        /// Rows times columns.
        wanted: usize,
        /// The length of the list.
        given: usize,
    },
    /// Sizes that do not go together. A product keeps the left's columns and the right's rows, a
    /// star the columns and the rows, a residual the left's rows and the right's rows.
    Shape {
        /// The first of the two sizes.
        left_columns: usize,
        /// The second of the two sizes.
        right_rows: usize,
    },
    /// The first operation that does not fit, by the rows of the result.
    Range {
        /// In a sum 0, in a product the middle index, in a residual the row of the operands, in a
        /// star the step of the recursion, from 1 to the size and one more.
        step: usize,
        /// The row of the result.
        row: usize,
        /// The column of the result.
        column: usize,
    },
    /// No memory was found.
    OutOfMemory,
}

impl fmt::Display for MatrixRefused {
    fn fmt<W: fmt::Write>(&self, f: &mut fmt::Formatter<W>) -> fmt::Result {
        let (first, words, second, tail) = match self {
            MatrixRefused::Count { wanted, given } => {
                (*given, "entries where", *wanted, "are wanted")
            }
            MatrixRefused::Shape {
                left_columns,
                right_rows,
            } => (*left_columns, "and", *right_rows, "do not go together"),
            MatrixRefused::Range { step, row, column } => {
                write!(f, "step {step} at row ")?;
                (*row, "and column", *column, "is out of range")
            }
            MatrixRefused::OutOfMemory => return f.write_str("out of memory"),
        };
        write!(f, "{first} {words} {second} {tail}")
    }
}

impl Error for MatrixRefused {}

impl From<AllocError> for MatrixRefused {
    ghost from_gives = { λ _ e. e ≡ OutOfMemory };

    fn from(_error: AllocError) -> MatrixRefused {
        MatrixRefused::OutOfMemory
    }
}

impl<D: Drop> From<AllocFailed<D>> for MatrixRefused {
    ghost from_gives = { λ _ e. e ≡ OutOfMemory };

    fn from(_error: AllocFailed<D>) -> MatrixRefused {
        MatrixRefused::OutOfMemory
    }
}

// What became of an entry that is made step by step.
#[derive(Drop)]
pub(crate) enum Cell<D> {
    Value(D),
    Misfit(usize),
    NoMemoryLeft,
}

impl<D> Cell<D> {
    ghost use Rattle.std.specs.Prelude.{◌≡◌};
    ghost use Rattle.dioid_matrix.specs.EntryLists.{cell_of, cell_at};

    // What became of an entry that one operation makes, at this step.
    pub(crate) fn of(answer: Result<D, Refused>, step: usize) -> Cell<D>
        ensures { result ≡ cell_of answer step }
    {
        match answer {
            Ok(value) => Cell::Value(value),
            Err(Refused::Range) => Cell::Misfit(step),
            Err(Refused::OutOfMemory) => Cell::NoMemoryLeft,
        }
    }

    // The entry in this row and column, or why there is none.
    pub(crate) fn at(self, row: usize, column: usize) -> Result<D, MatrixRefused>
        ensures { result ≡ cell_at self row column }
    {
        match self {
            Cell::Value(value) => Ok(value),
            Cell::Misfit(step) => Err(MatrixRefused::Range { step, row, column }),
            Cell::NoMemoryLeft => Err(MatrixRefused::OutOfMemory),
        }
    }
}
