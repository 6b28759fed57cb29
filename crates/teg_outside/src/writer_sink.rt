//! The real output.
ghost use Rattle.std.specs.Prelude.{◌≡◌, ◌≤◌, ◌<◌, None, length, take, IfOk, IfSome, IsNone, OnErr};
ghost use Rattle.std.specs.Io.KnownBytes.{Appends};
ghost use Rattle.teg_outside.specs.Causes.{counted_once_more};
ghost use Rattle.teg_outside.specs.Sinks.{AppendsPrefix, WriteAnswers};

use crate::{Sink, SinkFault};
use std::io::Write;

/// A writer of std: the trusted edge.
///
/// Each write is followed by a flush. It tells nothing.
#[derive(Drop)]
pub struct WriterSink<W> {
    inner: W,
    faults: u64,
}

impl<W: Write> WriterSink<W> {
    /// A sink over this writer as it is, with its count at 0. No memory is taken.
    pub fn new(inner: W) -> Self
        ensures told { ⟦<WriterSink<W> as Sink>⟧.state result
            ≡ record { bytes = None; faults = 0 } }
        ensures inner { result.inner ≡ inner }
    {
        WriterSink { inner, faults: 0 }
    }
}

// How many bytes the writer took, at least one, once it is flushed; none where it failed, and then
// it may still have taken a first part of the piece.
fn write_and_flush<W: Write>(inner: &mut W, piece: &[u8]) -> Option<usize>
    ensures within { IfSome result (λ n. (0 < n) × (n ≤ length piece.now)) }
    ensures taken { IfSome result (λ n. Appends (W.contents inner.old) (W.contents inner.new)
        (take n piece.now)) }
    ensures part { IsNone result → AppendsPrefix (W.contents inner.old) (W.contents inner.new)
        piece.now }
{
    let written = match inner.write(piece) {
        Ok(count) => count,
        Err(_) => 0,
    };
    if written == 0 || inner.flush().is_err() {
        None
    } else {
        Some(written)
    }
}

impl<W: Write> Sink for WriterSink<W> {
    ghost state = { λ s. record { bytes = None; faults = s.faults } };

    /// What the writer took: where its bytes are known, these were appended. An error of the write
    /// or of the flush, and a write that takes no byte of a piece that is not empty, answer Failed.
    /// That raises the count by one, and the writer may have taken a first part of the piece.
    fn write(&mut self, piece: &[u8]) -> Result<usize, SinkFault>
        ensures faults { self.old.faults ≤ self.new.faults }
        ensures answer { WriteAnswers (record { bytes = None; faults = self.old.faults })
            (record { bytes = None; faults = self.new.faults }) piece.now result }
        ensures taken { IfOk result (λ n. Appends (W.contents self.old.inner)
            (W.contents self.new.inner) (take n piece.now)) }
        ensures counts { OnErr result (self.new.faults ≡ counted_once_more self.old.faults) }
        ensures part { OnErr result (AppendsPrefix (W.contents self.old.inner)
            (W.contents self.new.inner) piece.now) }
    {
        if piece.is_empty() {
            return Ok(0);
        }
        let Some(written) = write_and_flush(&mut self.inner, piece) else {
            self.faults = self.faults.saturating_add(1);
            return Err(SinkFault::Failed);
        };
        Ok(written)
    }
}
