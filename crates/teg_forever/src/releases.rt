//! What is answered of endless due dates.
ghost use Rattle.std.specs.Prelude.{◌≡◌};
ghost use Rattle.teg_forever.specs.declared.releases.ForeverRefusal.TheVariants.{OutOfMemory};

use series_form::Series;
use std::alloc::AllocError;
use std::error::Error;
use std::fmt;
use teg_net::{OutOfMemory, TransitionId};

/// When an input is released at the latest (chapter 5).
#[derive(Drop)]
pub enum Release {
    /// No date is asked of it: no walk leads from its firings to a due one.
    Free,
    /// Shift k - 1 of the series has the latest date of firing k, in the user's unit.
    Latest { series: Series },
}

/// Why the releases are not told, in this order; of several inputs the first is named. Its line
/// tells a transition by its number, counted from 0.
#[derive(Clone, Copy, Debug, PartialEq, Eq)]
pub enum ForeverRefusal {
    /// The firing comes later than due whatever the inputs are: it is the least late number of the
    /// first row that has one, with its due date and its least date, in the user's unit.
    Late {
        transition: TransitionId,
        number: u128,
        due: u128,
        least: u128,
    },
    /// The shortest settled form of the greatest times of walks from the first firing of the input
    /// is longer than 20,000.
    TooLong {
        input: TransitionId,
    },
    /// A residual of the due series by the walk series, or its meet with the meet of those before
    /// it, is no series of at most 20,000 values and of numbers of a magnitude up to 10^18; `row`
    /// is the number in its file of the first such row.
    TooWide {
        input: TransitionId,
        row: u32,
    },
    /// No memory was found.
    OutOfMemory,
}

// The line that the workbench prints, with numbers, from 0, in place of the names of transitions.
impl fmt::Display for ForeverRefusal {
    fn fmt<W: fmt::Write>(&self, f: &mut fmt::Formatter<W>) -> fmt::Result {
        match self {
            ForeverRefusal::Late {
                transition,
                number,
                due,
                least,
            } => {
                write!(f, "late transition {} firing {number}", transition.index)?;
                write!(f, " due {due} least {least}")
            }
            ForeverRefusal::TooLong { input } => {
                write!(f, "too long: input transition {}", input.index)
            }
            ForeverRefusal::TooWide { input, row } => {
                write!(f, "too long: input transition {}", input.index)?;
                write!(f, " at due row {row}")
            }
            ForeverRefusal::OutOfMemory => f.write_str("out of memory"),
        }
    }
}

impl Error for ForeverRefusal {}

impl From<AllocError> for ForeverRefusal {
    ghost from_gives = { λ _ e. e ≡ OutOfMemory };

    fn from(_error: AllocError) -> ForeverRefusal {
        ForeverRefusal::OutOfMemory
    }
}

impl From<OutOfMemory> for ForeverRefusal {
    ghost from_gives = { λ _ e. e ≡ OutOfMemory };

    fn from(_error: OutOfMemory) -> ForeverRefusal {
        ForeverRefusal::OutOfMemory
    }
}
