//! A second file: its bytes, or why there are none.
ghost use Rattle.std.specs.Prelude.{◌≡◌, ◌≤◌, IfOk, IfSome, length};
ghost use Rattle.teg_outside.specs.Shelves.{replied};
ghost use Rattle.teg_report.specs.csv_records.Records.{most_file_bytes};
ghost use Rattle.teg_files.specs.CallMeanings.{opening_of};
ghost use Rattle.teg_files.specs.Openings.{OpensBytes};
ghost use Rattle.teg_files.specs.Reads.{OpenedBy};

use crate::fetching::fetch;
use crate::opening::{Opened, unread};
use std::alloc::Global;
use std::marker::Model;
use teg_outside::{Shelf, ShelfFault};
use teg_report::Which;

/// The bytes of a file, at most as many as a file may have. Contracts see the list.
#[derive(Drop)]
pub struct FileBytes {
    bytes: Vec<u8>,
}

impl Model for FileBytes {
    ghost use Rattle.std.specs.Prelude.{◌≤◌, List, ℕ, length};
    ghost use Rattle.teg_report.specs.csv_records.Records.{most_file_bytes};

    ghost Value = { List ℕ };

    ghost view = { λ b. b.bytes.items };

    ghost invariant = { λ b. length b.bytes.items ≤ most_file_bytes };
}

impl FileBytes {
    // The file with these bytes.
    fn new(bytes: Vec<u8>) -> FileBytes
        requires { length bytes.items ≤ most_file_bytes }
        ensures { result ≡ bytes.items }
    {
        FileBytes { bytes }
    }

    /// The bytes.
    pub fn as_slice(&self) -> &[u8]
        ensures value { result.now ≡ self.now }
        ensures few { length self.now ≤ most_file_bytes }
    {
        self.bytes.as_slice()
    }
}

// The bytes of the file that was read, or its refusal.
fn judge_bytes(alloc: Global, which: Which, reply: Result<Vec<u8>, ShelfFault>) -> Opened<FileBytes>
    requires { IfOk reply (λ bytes. length bytes.items ≤ most_file_bytes) }
    ensures { IfSome (opening_of result) (OpensBytes which (replied reply)) }
{
    match reply {
        Ok(bytes) => Opened::Accepted(FileBytes::new(bytes)),
        Err(fault) => unread(alloc, which, fault),
    }
}

/// The bytes of the file of that name, or the refusal of that file. What its rows say is the
/// business of the command that reads it.
pub fn open_bytes<S: Shelf>(
    alloc: Global,
    which: Which,
    name: &str,
    shelf: &mut S,
) -> Opened<FileBytes>
    ensures { OpenedBy (OpensBytes which) name.now (S.state shelf.old) (S.state shelf.new)
        (opening_of result) }
{
    let reply = fetch(alloc, name, shelf);
    judge_bytes(alloc, which, reply)
}
