//! The rows of due files and logs, and their faults.
ghost use Rattle.std.specs.Prelude.{◌≡◌};
ghost use Rattle.teg_due.specs.declared.rows.DueRefusal.TheVariants.{OutOfMemory as NoDueMemory};
ghost use Rattle.teg_due.specs.declared.rows.LogRefusal.TheVariants.{OutOfMemory as NoLogMemory};

use std::error::Error;
use std::fmt;
use teg_net::{OutOfMemory, TransitionId};

/// A date by which a firing is due.
#[derive(Clone, Copy, Debug, PartialEq, Eq)]
pub struct DueRow {
    /// The number of the row in the file, from 1, a header included.
    pub row: u32,
    /// A transition that is no input.
    pub transition: TransitionId,
    /// The number of the firing: 1 to 10,000.
    pub number: u32,
    /// The due date, in the user's unit: 0 to 10^12.
    pub date: u64,
}

/// The rows of a due file in order. No two have the same transition and number.
#[derive(Debug, Drop)]
pub struct Due {
    pub rows: Vec<DueRow>,
}

/// A recorded firing.
#[derive(Clone, Copy, Debug, PartialEq, Eq)]
pub struct LogRow {
    /// The number of the row in the file, from 1, a header included.
    pub row: u32,
    pub transition: TransitionId,
    /// The date of the firing, in the user's unit: 0 to 10^18.
    pub date: u64,
}

/// Why a file is no due file: its first faulty row, and the first of its faults in this order. Rows
/// are counted from 1, a header included.
#[derive(Clone, Copy, Debug, PartialEq, Eq)]
pub enum DueRefusal {
    /// It has not three fields, or its number or date is no number in decimal digits.
    BadRow { row: u32 },
    /// No transition of the net has its name.
    UnknownTransition { row: u32 },
    /// Its transition is an input, for which dates are found and not asked.
    NotDue { row: u32 },
    /// An earlier row has the same transition and number.
    RepeatedDue { row: u32 },
    /// Its number is not 1 to 10,000, or its date is above 10^12.
    OutOfRange { row: u32 },
    /// No memory was found.
    OutOfMemory,
}

/// Why a file is no log: its first faulty row, and the first of its faults in this order. Rows are
/// counted from 1, a header included.
#[derive(Clone, Copy, Debug, PartialEq, Eq)]
pub enum LogRefusal {
    /// It has not two fields, or its date is no number in decimal digits.
    BadRow { row: u32 },
    /// No transition of the net has its name.
    UnknownTransition { row: u32 },
    /// Its date is above 10^18.
    OutOfRange { row: u32 },
    /// No memory was found.
    OutOfMemory,
}

impl fmt::Display for DueRefusal {
    fn fmt<W: fmt::Write>(&self, f: &mut fmt::Formatter<W>) -> fmt::Result {
        let (row, fault) = match self {
            DueRefusal::BadRow { row } => (row, "is not a due date"),
            DueRefusal::UnknownTransition { row } => (row, "unknown transition"),
            DueRefusal::NotDue { row } => (row, "input transition"),
            DueRefusal::RepeatedDue { row } => (row, "repeated"),
            DueRefusal::OutOfRange { row } => (row, "out of range"),
            DueRefusal::OutOfMemory => return f.write_str("out of memory"),
        };
        write!(f, "due row {row} {fault}")
    }
}

impl Error for DueRefusal {}

impl fmt::Display for LogRefusal {
    fn fmt<W: fmt::Write>(&self, f: &mut fmt::Formatter<W>) -> fmt::Result {
        let (row, fault) = match self {
            LogRefusal::BadRow { row } => (row, "is not a firing"),
            LogRefusal::UnknownTransition { row } => (row, "unknown transition"),
            LogRefusal::OutOfRange { row } => (row, "out of range"),
            LogRefusal::OutOfMemory => return f.write_str("out of memory"),
        };
        write!(f, "log row {row} {fault}")
    }
}

impl Error for LogRefusal {}

impl From<OutOfMemory> for DueRefusal {
    ghost from_gives = { λ _ e. e ≡ NoDueMemory };

    fn from(_error: OutOfMemory) -> DueRefusal {
        DueRefusal::OutOfMemory
    }
}

impl From<csv_records::OutOfMemory> for DueRefusal {
    ghost from_gives = { λ _ e. e ≡ NoDueMemory };

    fn from(_error: csv_records::OutOfMemory) -> DueRefusal {
        DueRefusal::OutOfMemory
    }
}

impl From<OutOfMemory> for LogRefusal {
    ghost from_gives = { λ _ e. e ≡ NoLogMemory };

    fn from(_error: OutOfMemory) -> LogRefusal {
        LogRefusal::OutOfMemory
    }
}
