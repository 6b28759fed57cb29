//! A shelf of files in memory.
ghost use Rattle.std.specs.Prelude.{◌≡◌, ◌≤◌, Err, IfErr, IfOk, MatchOption, MatchResult, None, Ok, Some, [], map};
ghost use Rattle.teg_outside.specs.Shelves.{ReadAnswers, file_of, replied};
ghost use Rattle.teg_outside.specs.declared.shelf.ShelfFault.TheVariants.{OutOfMemory};
ghost use Rattle.teg_outside.specs.Memory.{FilesInMemory, MemoryReads, after_call, after_read, reply_of, shelf_told, told_file, told_read};

use crate::{Shelf, ShelfFault};
use std::alloc::Global;
use std::marker::Model;

/// A shelf of files in memory, of which chosen calls fail.
///
/// It tells its files and its reads, which it keeps as a list.
#[derive(Drop)]
pub struct MemoryShelf {
    files: Vec<(String, Vec<u8>)>,
    failing: Vec<u64>,
    reads: Vec<(String, usize)>,
    calls: u64,
    faults: u64,
    overlong: u64,
}

impl Model for MemoryShelf {
    ghost Value = { FilesInMemory };

    ghost view = { λ s. record {
      files = map told_file s.files.items;
      failing = s.failing.items;
      reads = map told_read s.reads.items;
      calls = s.calls;
      faults = s.faults;
      overlong = s.overlong;
    } };
}

impl MemoryShelf {
    /// A shelf of these files, by name, whose calls with the numbers in `failing` fail. Calls are
    /// numbered from 1. No memory is taken.
    pub fn new(alloc: Global, files: Vec<(String, Vec<u8>)>, failing: Vec<u64>) -> Self
        ensures { result ≡ record {
          files = map told_file files.items;
          failing = failing.items;
          reads = [];
          calls = 0;
          faults = 0;
          overlong = 0;
        } }
    {
        MemoryShelf {
            files,
            failing,
            reads: Vec::new(alloc),
            calls: 0,
            faults: 0,
            overlong: 0,
        }
    }
}

// The bytes of the first file of that name.
fn find_file<'a>(files: &'a [(String, Vec<u8>)], name: &str) -> Option<&'a [u8]>
    ensures { MatchOption result (file_of (map told_file files.now) name.now ≡ None)
        (λ bytes. file_of (map told_file files.now) name.now ≡ Some bytes.now) }
{
    let mut rest = files;
    while let [(file_name, bytes), after @ ..] = rest {
        if file_name.as_str() == name {
            return Some(bytes.as_slice());
        }
        rest = after;
    }
    None
}

// The bytes of the first file of that name, unless this call is one of those that fail, or the file
// is longer than the limit.
fn find_within<'a>(
    files: &'a [(String, Vec<u8>)],
    failing: &[u64],
    call: u64,
    name: &str,
    limit: usize,
) -> Result<&'a [u8], ShelfFault>
    ensures { MatchResult result
        (λ bytes. reply_of (map told_file files.now) failing.now call name.now limit ≡ Ok bytes.now)
        (λ fault. reply_of (map told_file files.now) failing.now call name.now limit ≡ Err fault) }
{
    if failing.contains(&call) {
        return Err(ShelfFault::Failed);
    }
    let Some(file) = find_file(files, name) else {
        return Err(ShelfFault::Failed);
    };
    if file.len() > limit {
        return Err(ShelfFault::TooLarge);
    }
    Ok(file)
}

impl MemoryShelf {
    // Counts and tells one more call.
    fn tell(&mut self, alloc: Global, name: &str, limit: usize) -> Result<(), ShelfFault>
        ensures told { IfOk result (λ _. self.new ≡ after_read self.old name.now limit) }
        ensures lost { IfErr result (λ fault. (fault ≡ OutOfMemory)
            × (self.new ≡ after_call self.old)) }
    {
        self.calls = self.calls.saturating_add(1);
        let asked = String::from_str(alloc, name)?;
        self.reads.push((asked, limit))?;
        Ok(())
    }
}

impl Shelf for MemoryShelf {
    ghost state = { shelf_told };

    /// The whole file of that name. Each call is numbered, from 1, and those whose number was given
    /// to fail answer Failed; so does a name that is not there. No other call answers Failed;
    /// TooLarge comes only where the file is longer than `limit`.
    fn read(&mut self, alloc: Global, name: &str, limit: usize) -> Result<Vec<u8>, ShelfFault>
        ensures files { (shelf_told self.new).files ≡ (shelf_told self.old).files }
        ensures faults { (shelf_told self.old).faults ≤ (shelf_told self.new).faults }
        ensures overlong { (shelf_told self.old).overlong ≤ (shelf_told self.new).overlong }
        ensures answer { ReadAnswers (shelf_told self.old) (shelf_told self.new) name.now limit
            (replied result) }
        ensures rule { MemoryReads self.old self.new name.now limit (replied result) }
    {
        self.tell(alloc, name, limit)?;
        match find_within(&self.files, &self.failing, self.calls, name, limit) {
            Ok(file) => Ok(file.to_vec(alloc)?),
            Err(ShelfFault::TooLarge) => {
                self.overlong = self.overlong.saturating_add(1);
                Err(ShelfFault::TooLarge)
            }
            Err(_) => {
                self.faults = self.faults.saturating_add(1);
                Err(ShelfFault::Failed)
            }
        }
    }
}
