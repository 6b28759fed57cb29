//! One reader for every kind of file of rows.
ghost use Rattle.std.specs.Prelude.{◌≡◌, ◌≢◌, ◌≤◌, ◌+◌, ◌∷◌, [], Ok, Err, true, false, length, IfOk, IfErr, OnOk};
ghost use Rattle.csv.specs.Records.{fields_of};
ghost use Rattle.csv_records.specs.Records.{most_file_bytes, records_of};
ghost use Rattle.csv_records.specs.RowsOfRecords.{with_record, rows_of};

use crate::records::Records;
use csv::ByteRecord;
use std::alloc::Global;

/// A kind of file of rows: which first record is a header, and the row that a record gives after
/// the rows before it, or its first fault. A value of the type knows what rows are read against,
/// such as a net, and may keep a table of what was read.
pub trait RowFile: Drop {
    ghost use Rattle.std.specs.Prelude.{ℕ, Bool, List, Result, ◌++◌};

    /// A row, which tells the number of its record where it has to.
    type Row: Drop;

    /// Why a file has no rows: its first faulty record, with the first of its faults; or no memory.
    type Refusal;

    // a first record of these fields is a header
    ghost is_header: { List (List ℕ) → Bool };

    // the row of a record after these rows, by the record's number and fields, or its first fault
    ghost row_of: { Self → List Self.Row → ℕ → List (List ℕ) → Result Self.Row Self.Refusal };

    // no memory was found
    ghost no_memory: { Self.Refusal };

    // what is kept is that of these rows
    ghost has_read: { Self → List Self.Row → Type 0 };

    /// Whether a first record of these fields is a header, which is passed over.
    fn is_header(&self, record: &ByteRecord) -> bool
        ensures { result ≡ is_header (fields_of «record».now) };

    /// The row of record `number` of the file, counted from 1 with a header, after these rows; or
    /// the first of its faults. What is kept is then that of the rows with this one.
    fn read_row(
        &mut self,
        rows: &[Self::Row],
        number: u32,
        record: &ByteRecord,
    ) -> Result<Self::Row, Self::Refusal>
        requires { has_read self.old rows.now }
        ensures row { IfOk result (λ r.
            row_of self.old rows.now number (fields_of «record».now) ≡ Ok r) }
        ensures refused { IfErr result (λ e. e ≢ no_memory →
            row_of self.old rows.now number (fields_of «record».now) ≡ Err e) }
        ensures read { IfOk result (λ r. has_read self.new (rows.now ++ r ∷ [])) }
        ensures same { row_of self.new ≡ row_of self.old };

    /// The refusal that tells that no memory was found.
    fn no_memory() -> Self::Refusal
        ensures { result ≡ no_memory };
}

// Reads the next record, and answers whether there was one.
fn next_record<F: RowFile>(
    records: &mut Records<'_>,
    record: &mut ByteRecord,
) -> Result<bool, F::Refusal>
    ensures found { IfOk result (λ found. found ≡ true →
        records.old ≡ fields_of «record».new ∷ records.new) }
    ensures ended { IfOk result (λ found. found ≡ false → records.old ≡ []) }
    ensures refused { IfErr result (λ e. e ≡ F.no_memory) }
{
    match records.read(record) {
        Ok(found) => Ok(found),
        Err(_) => Err(F::no_memory()),
    }
}

// One more record of the file.
fn add_record<F: RowFile>(
    file: &mut F,
    rows: &mut Vec<F::Row>,
    number: u32,
    record: &ByteRecord,
) -> Result<(), F::Refusal>
    requires { F.has_read file.old rows.old.items }
    ensures added { OnOk result (
        with_record F.is_header (F.row_of file.old) rows.old.items number (fields_of «record».now)
        ≡ Ok rows.new.items) }
    ensures refused { IfErr result (λ e. e ≢ F.no_memory →
        with_record F.is_header (F.row_of file.old) rows.old.items number (fields_of «record».now)
        ≡ Err e) }
    ensures read { OnOk result (F.has_read file.new rows.new.items) }
    ensures same { F.row_of file.new ≡ F.row_of file.old }
    ensures few { OnOk result (length rows.new.items ≤ length rows.old.items + 1) }
{
    if number == 1 && file.is_header(record) {
        return Ok(());
    }
    let row = file.read_row(rows.as_slice(), number, record)?;
    if rows.push(row).is_err() {
        return Err(F::no_memory());
    }
    Ok(())
}

/// The rows of a file of at most 4,194,304 bytes, in order, or the refusal of its first faulty
/// record. Records are counted from 1; a first one that is a header is passed over, and counts.
/// There are no more rows than bytes. `no_memory` comes only where no memory is found. It takes
/// time of the order of the bytes, besides what `read_row` takes.
pub fn read_rows<F: RowFile>(
    alloc: Global,
    mut file: F,
    bytes: &[u8],
) -> Result<Vec<F::Row>, F::Refusal>
    requires short { length bytes.now ≤ most_file_bytes }
    requires fresh { F.has_read file [] }
    ensures rows { IfOk result (λ rows.
        rows_of F.is_header (F.row_of file) (records_of bytes.now) ≡ Ok rows.items) }
    ensures refused { IfErr result (λ e. e ≢ F.no_memory →
        rows_of F.is_header (F.row_of file) (records_of bytes.now) ≡ Err e) }
    ensures few { IfOk result (λ rows. length rows.items ≤ length bytes.now) }
{
    let mut rows = Vec::new(alloc);
    let mut records = Records::new(alloc, bytes);
    let mut record = ByteRecord::new(alloc);
    let mut number: u32 = 0;
    while next_record::<F>(&mut records, &mut record)? {
        number += 1;
        add_record(&mut file, &mut rows, number, &record)?;
    }
    Ok(rows)
}
