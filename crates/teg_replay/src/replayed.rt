//! What came of a log.
use crate::refusal::FireRefusal;
use std::error::Error;
use std::fmt;

/// The first refused row of a log, and why it was refused. Its line tells both.
#[derive(Clone, Copy, Debug, PartialEq, Eq)]
pub struct Refused {
    /// The number of the row in the file, from 1, a header included.
    pub row: u32,
    pub why: FireRefusal,
}

impl fmt::Display for Refused {
    fn fmt<W: fmt::Write>(&self, f: &mut fmt::Formatter<W>) -> fmt::Result {
        write!(f, "row {} {}", self.row, self.why)
    }
}

impl Error for Refused {}

/// How many firings were accepted, and the row that was refused, if one was.
#[derive(Clone, Copy, Debug, PartialEq, Eq)]
pub struct Replayed {
    pub accepted: u64,
    pub refused: Option<Refused>,
}
