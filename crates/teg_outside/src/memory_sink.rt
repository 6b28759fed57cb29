//! A sink of bytes in memory.
ghost use Rattle.std.specs.Prelude.{◌≡◌, ◌≤◌, ◌<◌, [], length, vec_len, vec_capacity, IfOk};
ghost use Rattle.teg_outside.specs.Sinks.{WriteAnswers};
ghost use Rattle.teg_outside.specs.Memory.{BytesInMemory, MemoryWrites, sink_told};

use crate::{OutOfMemory, Sink, SinkFault};
use std::alloc::Global;
use std::marker::Model;

/// A sink of bytes in memory, which takes a few bytes a call, and of which chosen calls fail.
///
/// It tells its bytes. Its memory is taken when it is made.
#[derive(Drop)]
pub struct MemorySink {
    bytes: Vec<u8>,
    most: usize,
    room: usize,
    failing: Vec<u64>,
    calls: u64,
    faults: u64,
}

impl Model for MemorySink {
    ghost Value = { BytesInMemory };

    ghost view = { λ s. record {
      bytes = s.bytes.items;
      most = s.most;
      room = s.room;
      failing = s.failing.items;
      calls = s.calls;
      faults = s.faults;
    } };

    ghost invariant = { λ s. (0 < s.most) × (vec_len s.bytes ≤ s.room)
        × (s.room ≤ vec_capacity s.bytes) };
}

impl MemorySink {
    /// An empty sink with memory for `room` bytes, of which a call takes at most `most`, at least
    /// 1. Its calls with the numbers in `failing` fail; calls with a piece that is not empty are
    /// numbered from 1. OutOfMemory comes only where no memory is found.
    pub fn new(
        alloc: Global,
        most: usize,
        room: usize,
        failing: Vec<u64>,
    ) -> Result<Self, OutOfMemory>
        requires { 0 < most }
        ensures { IfOk result (λ sink. sink ≡ record {
          bytes = [];
          most = most;
          room = room;
          failing = failing.items;
          calls = 0;
          faults = 0;
        }) }
    {
        Ok(MemorySink {
            bytes: Vec::with_capacity(alloc, room)?,
            most,
            room,
            failing,
            calls: 0,
            faults: 0,
        })
    }

    /// The bytes that were written, at most as many as there is room for. No memory is taken.
    pub fn contents(&self) -> &[u8]
        ensures bytes { result.now ≡ self.now.bytes }
        ensures within { length self.now.bytes ≤ self.now.room }
    {
        self.bytes.as_slice()
    }
}

impl Sink for MemorySink {
    ghost state = { sink_told };

    /// As many bytes as the piece has, one call takes and there is room for. Calls with a piece
    /// that is not empty are numbered from 1: those whose number was given to fail answer Failed,
    /// and so do those that find no room. No other call fails, and no memory is taken.
    fn write(&mut self, piece: &[u8]) -> Result<usize, SinkFault>
        ensures faults { (sink_told self.old).faults ≤ (sink_told self.new).faults }
        ensures answer { WriteAnswers (sink_told self.old) (sink_told self.new) piece.now result }
        ensures rule { MemoryWrites self.old self.new piece.now result }
    {
        if piece.is_empty() {
            return Ok(0);
        }
        self.calls = self.calls.saturating_add(1);
        let left = self.room - self.bytes.len();
        if left == 0 || self.failing.contains(&self.calls) {
            self.faults = self.faults.saturating_add(1);
            return Err(SinkFault::Failed);
        }
        let count = piece.len().min(self.most).min(left);
        let grown = self.bytes.extend_from_slice(&piece[..count]);
        grown.unwrap();
        Ok(count)
    }
}
