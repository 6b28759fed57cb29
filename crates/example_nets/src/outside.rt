//! What a call has in memory beside its answer: its words, the files of a shelf, and a sink.
ghost use Rattle.std.specs.Prelude.{◌<◌};

use std::alloc::Global;
use std::test::Fail;
use teg_outside::{MemoryShelf, MemorySink};

/// The words, owned.
pub fn words_of(alloc: Global, words: &[&str]) -> Result<Vec<String>, Fail> {
    let mut owned = Vec::new(alloc);
    for word in words {
        owned.push(String::from_str(alloc, word)?)?;
    }
    Ok(owned)
}

// A file of a shelf.
fn file_of(alloc: Global, name: &str, bytes: &[u8]) -> Result<(String, Vec<u8>), Fail> {
    let name = String::from_str(alloc, name)?;
    Ok((name, Vec::from_slice(alloc, bytes)?))
}

// The files by name.
fn files_of(alloc: Global, files: &[(&str, &[u8])]) -> Result<Vec<(String, Vec<u8>)>, Fail> {
    let mut owned = Vec::new(alloc);
    for (name, bytes) in files {
        owned.push(file_of(alloc, name, bytes)?)?;
    }
    Ok(owned)
}

/// A shelf with these files by name, whose reads with these numbers fail.
pub fn shelf_of(
    alloc: Global,
    files: &[(&str, &[u8])],
    failing: &[u64],
) -> Result<MemoryShelf, Fail> {
    let failing = Vec::from_slice(alloc, failing)?;
    let files = files_of(alloc, files)?;
    Ok(MemoryShelf::new(alloc, files, failing))
}

/// A sink of which a call takes so much at most, with so much room, whose writes with these numbers
/// fail.
pub fn sink_of(alloc: Global, most: usize, room: usize, failing: &[u64]) -> Result<MemorySink, Fail>
    requires { 0 < most }
{
    let failing = Vec::from_slice(alloc, failing)?;
    Ok(MemorySink::new(alloc, most, room, failing)?)
}
