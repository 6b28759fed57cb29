//! A shelf of files.
ghost use Rattle.std.specs.Prelude.{◌≡◌, ◌≤◌};
ghost use Rattle.teg_outside.specs.declared.shelf.ShelfFault.TheVariants.{OutOfMemory};
ghost use Rattle.teg_outside.specs.Shelves.{ShelfState, ReadAnswers, replied};

use std::alloc::{AllocError, AllocFailed, Global};
use std::error::Error;
use std::fmt;

/// Why a read gave no file. Its line says the cause in words.
#[derive(Clone, Copy, Debug, PartialEq, Eq)]
pub enum ShelfFault {
    /// The file could not be read. Only where the count of faults rose.
    Failed,
    /// The file is longer than the limit. Only where the count of over-long files rose.
    TooLarge,
    /// No memory was found.
    OutOfMemory,
}

impl fmt::Display for ShelfFault {
    fn fmt<W: fmt::Write>(&self, f: &mut fmt::Formatter<W>) -> fmt::Result {
        f.write_str(match self {
            ShelfFault::Failed => "file cannot be read",
            ShelfFault::TooLarge => "file past the limit",
            ShelfFault::OutOfMemory => "out of memory",
        })
    }
}

impl Error for ShelfFault {}

impl<T: Drop> From<AllocFailed<T>> for ShelfFault {
    ghost from_gives = { λ _ e. e ≡ OutOfMemory };

    fn from(_error: AllocFailed<T>) -> ShelfFault {
        ShelfFault::OutOfMemory
    }
}

impl From<AllocError> for ShelfFault {
    ghost from_gives = { λ _ e. e ≡ OutOfMemory };

    fn from(_error: AllocError) -> ShelfFault {
        ShelfFault::OutOfMemory
    }
}

/// A shelf of files, each with a name.
///
/// It may tell its files and its reads, and has two counts that never fall: of faults, and of files
/// beyond a limit. A count rose in a call where it is greater after the call than before, or stands
/// at the greatest u64. A read changes no file.
pub trait Shelf {
    /// What it tells of its files and its reads, and its two counts.
    ghost state: { Self → ShelfState };

    /// The whole file of that name, which has at most `limit` bytes. It takes memory for them.
    ///
    /// Where files are told, the answer is the first file of that name. Where reads are told, each
    /// call appends its name and limit; one that answers OutOfMemory may append nothing. Failed
    /// comes only where the count of faults rose. TooLarge comes only where the count of over-long
    /// files rose; where files are told and no fault rose, exactly where the file is longer than
    /// `limit`. OutOfMemory is free.
    fn read(&mut self, alloc: Global, name: &str, limit: usize) -> Result<Vec<u8>, ShelfFault>
        ensures files { (state self.new).files ≡ (state self.old).files }
        ensures faults { (state self.old).faults ≤ (state self.new).faults }
        ensures overlong { (state self.old).overlong ≤ (state self.new).overlong }
        ensures answer { ReadAnswers (state self.old) (state self.new) name.now limit
            (replied result) };
}
