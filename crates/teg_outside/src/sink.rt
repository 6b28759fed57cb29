//! A sink of bytes.
ghost use Rattle.std.specs.Prelude.{◌≤◌};
ghost use Rattle.teg_outside.specs.Sinks.{SinkState, WriteAnswers};

use std::error::Error;
use std::fmt;

/// Why a write took no byte. Its line says the cause in words.
#[derive(Clone, Copy, Debug, PartialEq, Eq)]
pub enum SinkFault {
    /// The piece could not be written. Only where the count of faults rose.
    Failed,
}

impl fmt::Display for SinkFault {
    fn fmt<W: fmt::Write>(&self, f: &mut fmt::Formatter<W>) -> fmt::Result {
        f.write_str("piece cannot be written")
    }
}

impl Error for SinkFault {}

/// A sink of bytes.
///
/// It may tell the bytes that it holds, and has a count of faults that never falls.
pub trait Sink {
    /// What it tells of its bytes, and its count of faults.
    ghost state: { Self → SinkState };

    /// How many bytes of the piece were taken, from its start.
    ///
    /// An empty piece takes Ok(0) and changes nothing told. Of any other at least one byte is taken
    /// and the count is left as it was; where bytes are told, those taken were appended. Failed
    /// comes only where the count rose, and leaves the told bytes as they were.
    fn write(&mut self, piece: &[u8]) -> Result<usize, SinkFault>
        ensures faults { (state self.old).faults ≤ (state self.new).faults }
        ensures answer { WriteAnswers (state self.old) (state self.new) piece.now result };
}
