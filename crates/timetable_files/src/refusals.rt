//! Why a file is no timetable.
ghost use Rattle.std.specs.Prelude.{◌≡◌};
ghost use Rattle.timetable_files.specs.declared.refusals.TableRefusal.TheVariants.{OutOfMemory as NoTableMemory};

use std::alloc::AllocError;
use std::error::Error;
use std::fmt;
use teg_net::{OutOfMemory, TransitionId};

/// Why a file is no timetable of a net: its first faulty row, and the first of its faults in this
/// order; or, where no row is faulty, a transition without a first departure. Rows are counted from
/// 1, a header included. Its line tells a transition by its number, counted from 0.
#[derive(Clone, Copy, Debug, PartialEq, Eq)]
pub enum TableRefusal {
    /// The row has not two or three fields, or one from the second on is no number in decimal
    /// digits.
    BadRow { row: u32 },
    /// No transition of the net has its name.
    UnknownTransition { row: u32 },
    /// An earlier row gives the transition's first departure, or delays the same departure of it.
    Repeated { row: u32 },
    /// Its first departure is above 10^9, the number of its departure is not 1 to 10,000, or its
    /// delay is not 1 to 50,000.
    OutOfRange { row: u32 },
    /// No row gives the first departure of this transition, which is the lowest numbered such one.
    Missing { transition: TransitionId },
    /// No memory was found.
    OutOfMemory,
}

// How the line of a faulty row begins.
const TIMETABLE_ROW: &str = "timetable row";

// The line that the workbench prints, without the word `refused`, and with numbers, from 0, in
// place of the names of transitions.
impl fmt::Display for TableRefusal {
    fn fmt<W: fmt::Write>(&self, f: &mut fmt::Formatter<W>) -> fmt::Result {
        let (words, number, tail) = match self {
            TableRefusal::BadRow { row } => (TIMETABLE_ROW, *row, " is not an entry"),
            TableRefusal::UnknownTransition { row } => (TIMETABLE_ROW, *row, " unknown transition"),
            TableRefusal::Repeated { row } => (TIMETABLE_ROW, *row, " repeated"),
            TableRefusal::OutOfRange { row } => (TIMETABLE_ROW, *row, " out of range"),
            TableRefusal::Missing { transition } => {
                ("no departure of transition", transition.index, "")
            }
            TableRefusal::OutOfMemory => return f.write_str("out of memory"),
        };
        write!(f, "{words} {number}{tail}")
    }
}

impl Error for TableRefusal {}

impl From<AllocError> for TableRefusal {
    ghost from_gives = { λ _ e. e ≡ NoTableMemory };

    fn from(_error: AllocError) -> TableRefusal {
        TableRefusal::OutOfMemory
    }
}

impl From<OutOfMemory> for TableRefusal {
    ghost from_gives = { λ _ e. e ≡ NoTableMemory };

    fn from(_error: OutOfMemory) -> TableRefusal {
        TableRefusal::OutOfMemory
    }
}

impl From<csv_records::OutOfMemory> for TableRefusal {
    ghost from_gives = { λ _ e. e ≡ NoTableMemory };

    fn from(_error: csv_records::OutOfMemory) -> TableRefusal {
        TableRefusal::OutOfMemory
    }
}
