//! The records of a text that are left to read.
ghost use Rattle.std.specs.Prelude.{◌≡◌, ◌≢◌, ◌≤◌, ◌∷◌, [], true, false, length, Ok, IfOk, OnErr};
ghost use Rattle.csv.specs.Records.{fields_of};
ghost use Rattle.csv_records.specs.Records.{records_of};

use csv::{ByteRecord, Reader, ReaderBuilder};
use std::alloc::Global;
use std::marker::Model;

/// No memory was found.
#[derive(Clone, Copy, Debug, PartialEq, Eq)]
pub struct OutOfMemory;

/// The records of a text that are left to read, in order. Contracts see the list of them.
#[derive(Drop)]
pub struct Records<'a> {
    reader: Reader<&'a [u8]>,
    // The end was met, or no memory was found: nothing is left.
    ended: bool,
}

impl<'a> Model for Records<'a> {
    ghost use Rattle.std.specs.Prelude.{List, [], Some, false, ◌≡◌, if◌then◌else◌};
    ghost use Rattle.csv.specs.Reading.{reader_state, source_of};
    ghost use Rattle.csv_records.specs.Records.{Record, IsReading, records_left_of};

    ghost Value = { List Record };

    ghost view = { λ r. if r.ended then []
        else records_left_of (reader_state r.reader) (source_of (λ s. Some s.now) r.reader) };

    ghost invariant = { λ r. r.ended ≡ false → IsReading (λ s. Some s.now) r.reader };
}

impl<'a> Records<'a> {
    /// The records of a text. It takes no memory.
    pub fn new(alloc: Global, text: &'a [u8]) -> Records<'a>
        ensures records { result ≡ records_of text.now }
        ensures few { length (records_of text.now) ≤ length text.now }
    {
        let reader = ReaderBuilder::new()
            .has_headers(false)
            .flexible(true)
            .from_reader(alloc, text);
        Records {
            reader,
            ended: false,
        }
    }

    /// Reads the next record into `row`, and answers whether there was one. Where there was none,
    /// `row` has no field. Where no memory is found it has none either, and nothing is left to read
    /// afterwards.
    pub fn read(&mut self, row: &mut ByteRecord) -> Result<bool, OutOfMemory>
        ensures found { IfOk result (λ found. found ≡ true → self.old
            ≡ fields_of row.new ∷ self.new) }
        ensures ended { IfOk result (λ found. found ≡ false → (self.old ≡ []) × (self.new ≡ [])) }
        ensures failed { OnErr result (self.new ≡ []) }
        ensures no_row { (result ≢ Ok true) → fields_of row.new ≡ [] }
    {
        if self.ended {
            row.clear();
            return Ok(false);
        }
        let found = match self.reader.read_byte_record(row) {
            Ok(found) => found,
            Err(_) => {
                row.clear();
                self.ended = true;
                return Err(OutOfMemory);
            }
        };
        if !found {
            row.clear();
        }
        self.ended = !found;
        Ok(found)
    }
}
