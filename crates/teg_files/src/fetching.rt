//! One read of a file.
ghost use Rattle.teg_outside.specs.Shelves.{Reads, replied};
ghost use Rattle.teg_report.specs.csv_records.Records.{most_file_bytes};

use std::alloc::Global;
use teg_outside::{Shelf, ShelfFault};

// The most bytes that a file may have.
const MOST_BYTES: usize = 4_194_304;

/// The bytes of the file of that name, which is read once and with the one limit.
pub fn fetch<S: Shelf>(alloc: Global, name: &str, shelf: &mut S) -> Result<Vec<u8>, ShelfFault>
    ensures { Reads (S.state shelf.old) (S.state shelf.new) name.now most_file_bytes
        (replied result) }
{
    shelf.read(alloc, name, MOST_BYTES)
}
