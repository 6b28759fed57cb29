//! The outside of the workbench: shelves that files are read from, sinks that bytes are written to,
//! and monitors that see the firings of a replay.
//!
//! The one contract: each trait says what a call did to what the value tells, and which count rose
//! where it failed. A shelf tells its files and its reads, a sink its bytes, or nothing of them; a
//! count never falls. `MemoryShelf` and `MemorySink` tell everything: they fail at the calls that
//! they were given, at a name that the shelf does not have, at a file that is longer than the limit
//! and where the sink has no room, and, but for want of memory, nowhere else. `FileShelf` and
//! `WriterSink` stand before the real files and the real output: they tell nothing of content. Of
//! the monitors `FiringCount`, `HighWater` and `Lateness` print a number each of the firings seen,
//! and `NoLine` never finds memory for a line.
//!
//! It stands on std alone.
//! Its examples stand in `worked_examples`.
//!
//! Of `FileShelf::read` and `WriterSink::write` each failure raises its own count by one, and
//! nothing else raises one (`counts`). Where a writer tells its bytes, what the sink took was
//! appended to them, and of a failed write some first part.
#![tactic(auto)]

mod file_shelf;
mod firing_count;
mod high_water;
mod lateness;
mod memory_shelf;
mod memory_sink;
mod monitor;
mod no_line;
mod shelf;
mod sink;
mod writer_sink;

pub use file_shelf::FileShelf;
pub use firing_count::FiringCount;
pub use high_water::HighWater;
pub use lateness::Lateness;
pub use memory_shelf::MemoryShelf;
pub use memory_sink::MemorySink;
pub use monitor::{Firing, Monitor, OutOfMemory};
pub use no_line::NoLine;
pub use shelf::{Shelf, ShelfFault};
pub use sink::{Sink, SinkFault};
pub use writer_sink::WriterSink;
