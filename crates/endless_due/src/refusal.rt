//! The faults of a file of due dates without end.
ghost use Rattle.std.specs.Prelude.{◌≡◌};
ghost use Rattle.endless_due.specs.declared.refusal.EndlessRefusal.TheVariants.{OutOfMemory};

use std::error::Error;
use std::fmt;
use teg_net::OutOfMemory;

/// Why a file has no endless due dates: its first faulty row, and the first of its faults in this
/// order. Rows are counted from 1, a header included.
#[derive(Clone, Copy, Debug, PartialEq, Eq)]
pub enum EndlessRefusal {
    /// It has fewer than four fields, or one from the second on is no number in decimal digits.
    BadRow { row: u32 },
    /// No transition of the net has its name.
    UnknownTransition { row: u32 },
    /// Its transition is an input, for which dates are found and not asked.
    NotDue { row: u32 },
    /// An earlier row has the same transition.
    RepeatedDue { row: u32 },
    /// The dates go on after a number of firings that is not 1 to 1,000, or the gap or a date is
    /// above 10^12, or there are more than 10,000 dates.
    OutOfRange { row: u32 },
    /// A date is less than the one before it, or there are fewer dates than firings after which
    /// they go on, or the first date past the list is less than the last one listed.
    Falls { row: u32 },
    /// No memory was found.
    OutOfMemory,
}

// The line that the workbench prints, without the word `refused`.
impl fmt::Display for EndlessRefusal {
    fn fmt<W: fmt::Write>(&self, f: &mut fmt::Formatter<W>) -> fmt::Result {
        let (row, fault) = match self {
            EndlessRefusal::BadRow { row } => (row, "is not an endless due row"),
            EndlessRefusal::UnknownTransition { row } => (row, "unknown transition"),
            EndlessRefusal::NotDue { row } => (row, "input transition"),
            EndlessRefusal::RepeatedDue { row } => (row, "repeated"),
            EndlessRefusal::OutOfRange { row } => (row, "out of range"),
            EndlessRefusal::Falls { row } => (row, "falls"),
            EndlessRefusal::OutOfMemory => return f.write_str("out of memory"),
        };
        write!(f, "due row {row} {fault}")
    }
}

impl Error for EndlessRefusal {}

impl From<OutOfMemory> for EndlessRefusal {
    ghost from_gives = { λ _ e. e ≡ OutOfMemory };

    fn from(_error: OutOfMemory) -> EndlessRefusal {
        EndlessRefusal::OutOfMemory
    }
}
