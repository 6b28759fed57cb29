//! The workbench over a shelf and a sink in memory. What a call has is owned at one place, and lent
//! to all else.
ghost use Rattle.std.specs.Prelude.{◌<◌};

use example_nets::{shelf_of, sink_of, words_of};
use std::alloc::Global;
use std::test::Fail;
use teg_outside::{MemoryShelf, MemorySink, Monitor};
use teg_run::{Status, serve, workbench};

/// A case: the words, what the files named `net` and `second` hold, how the call ends, and what it
/// writes.
pub type Case<'a> = (&'a [&'a str], &'a str, &'a str, Status, &'a str);

/// A sink: how much a call takes, at least 1, for how much there is room, and which writes fail.
pub type Room<'a> = (usize, usize, &'a [u64]);

/// A sink of which a call takes everything.
pub const WIDE: Room<'static> = (65_536, 65_536, &[]);

/// All that a call has: its words, a shelf with two files, named `net` and `second`, and a sink.
#[derive(Drop)]
pub struct Bench {
    words: Vec<String>,
    shelf: MemoryShelf,
    out: MemorySink,
}

impl Bench {
    /// A bench whose reads with these numbers fail.
    pub fn new(
        alloc: Global,
        words: &[&str],
        files: (&[u8], &[u8]),
        failing: &[u64],
        into: Room<'_>,
    ) -> Result<Bench, Fail>
        requires { 0 < into.0 }
    {
        let (net, second) = files;
        let (most, room, writes) = into;
        let words = words_of(alloc, words)?;
        let shelf = shelf_of(alloc, &[("net", net), ("second", second)], failing)?;
        let out = sink_of(alloc, most, room, writes)?;
        Ok(Bench { words, shelf, out })
    }

    /// How the call ends with these monitors.
    pub fn run(&mut self, alloc: Global, monitors: Vec<Box<dyn Monitor>>) -> Status {
        workbench(alloc, &self.words, &mut self.shelf, &mut self.out, monitors)
    }

    /// How it ends where these are lent to it.
    pub fn serve(&mut self, alloc: Global, monitors: &mut [Box<dyn Monitor>]) -> Status {
        serve(alloc, &self.words, &mut self.shelf, &mut self.out, monitors)
    }

    /// What it wrote.
    pub fn written(&self) -> &[u8] {
        self.out.contents()
    }

    /// Whether the call without monitors ends so, and writes just this text.
    pub fn ends_so(&mut self, alloc: Global, status: Status, text: &str) -> bool {
        self.run(alloc, Vec::new(alloc)) == status && self.written() == text.as_bytes()
    }
}

/// Whether a call without monitors, of which this read fails, ends as the case says, and writes
/// just its text.
pub fn is_answered(alloc: Global, case: &Case<'_>, failing: u64) -> Result<bool, Fail> {
    let (words, net, second, status, text) = *case;
    let files = (net.as_bytes(), second.as_bytes());
    let mut bench = Bench::new(alloc, words, files, &[failing], WIDE)?;
    Ok(bench.ends_so(alloc, status, text))
}
