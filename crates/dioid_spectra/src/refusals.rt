//! Why a matrix has no spectrum.
ghost use Rattle.std.specs.Prelude.{◌≡◌};
ghost use Rattle.dioid_spectra.specs.declared.refusals.NoSpectrum.TheVariants.{OutOfMemory};

use std::alloc::{AllocError, AllocFailed};
use std::error::Error;
use std::fmt;
use teg_net::NetFault;

/// Why no eigenvalue of a matrix of dates is found. Rows and columns are counted from 0.
#[derive(Clone, Copy, Debug, PartialEq, Eq)]
pub enum NoSpectrum {
    /// It has not as many columns as rows.
    NotSquare,
    /// This entry is `Never`.
    Never { row: usize, column: usize },
    /// This entry is a number of a magnitude above 10^18.
    Far { row: usize, column: usize },
    /// This entry is above the least number by more than 1,000,000,000.
    Wide { row: usize, column: usize },
    /// No entry is a number.
    NoNumber,
    /// Some row does not reach some other.
    Reducible,
    /// It has more than 400 rows, or more than 4,000 numbers: its net breaks this rule of nets.
    NoNet { fault: NetFault },
    /// No memory was found.
    OutOfMemory,
}

impl fmt::Display for NoSpectrum {
    fn fmt<W: fmt::Write>(&self, f: &mut fmt::Formatter<W>) -> fmt::Result {
        let (row, column, fault) = match self {
            NoSpectrum::NotSquare => return f.write_str("the matrix is not square"),
            NoSpectrum::Never { row, column } => (*row, *column, "never"),
            NoSpectrum::Far { row, column } => (*row, *column, "past 10^18"),
            NoSpectrum::Wide { row, column } => (*row, *column, "too far above the least number"),
            NoSpectrum::NoNumber => return f.write_str("no entry is a number"),
            NoSpectrum::Reducible => return f.write_str("some row does not reach some other"),
            NoSpectrum::NoNet { fault } => return fault.fmt(f),
            NoSpectrum::OutOfMemory => return f.write_str("no memory was found"),
        };
        write!(f, "row {row} and column {column} is {fault}")
    }
}

impl Error for NoSpectrum {}

impl From<teg_net::OutOfMemory> for NoSpectrum {
    ghost from_gives = { λ _ e. e ≡ OutOfMemory };

    fn from(_error: teg_net::OutOfMemory) -> NoSpectrum {
        NoSpectrum::OutOfMemory
    }
}

impl From<AllocError> for NoSpectrum {
    ghost from_gives = { λ _ e. e ≡ OutOfMemory };

    fn from(_error: AllocError) -> NoSpectrum {
        NoSpectrum::OutOfMemory
    }
}

impl<T: Drop> From<AllocFailed<T>> for NoSpectrum {
    ghost from_gives = { λ _ e. e ≡ OutOfMemory };

    fn from(_error: AllocFailed<T>) -> NoSpectrum {
        NoSpectrum::OutOfMemory
    }
}
