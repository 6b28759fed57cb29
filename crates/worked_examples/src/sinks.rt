//! Writers of std as sinks, which are flushed after each write.
use std::io::{Cursor, Result as Written, Write};
use teg_outside::{Sink, SinkFault, WriterSink};

// A writer that takes all it is given. It knows how many bytes came since its last flush, and how
// often it was flushed.
#[derive(Drop)]
struct FlushCount {
    unflushed: usize,
    flushes: u64,
}

impl Write for FlushCount {
    fn write(&mut self, piece: &[u8]) -> Written<usize> {
        self.unflushed = self.unflushed.saturating_add(piece.len());
        Ok(piece.len())
    }

    fn flush(&mut self) -> Written<()> {
        self.unflushed = 0;
        self.flushes = self.flushes.saturating_add(1);
        Ok(())
    }
}

// What the sink answers to this piece.
fn written<W: Sink>(sink: &mut W, piece: &[u8]) -> Result<usize, SinkFault> {
    sink.write(piece)
}

#[test]
fn each_write_is_flushed_and_a_full_writer_is_a_fault(rt: HostRuntime) {
    let mut writer = FlushCount {
        unflushed: 0,
        flushes: 0,
    };
    for (piece, answer, flushes) in [(b"abc".as_slice(), 3, 1), (b"", 0, 1), (b"d", 1, 2)] {
        let mut sink = WriterSink::new(&mut writer);
        assert!(rt; written(&mut sink, piece) == Ok(answer), "of {piece:?}");
        assert!(rt;
            writer.unflushed == 0 && writer.flushes == flushes,
            "of {piece:?}"
        );
    }
    let mut full = WriterSink::new(Cursor::new([0u8; 2]));
    assert!(rt; written(&mut full, b"abc") == Ok(2));
    assert!(rt; written(&mut full, b"c") == Err(SinkFault::Failed));
}
