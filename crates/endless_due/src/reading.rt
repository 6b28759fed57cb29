//! Files of due dates without end.
ghost use Rattle.std.specs.Prelude.{◌≡◌, ◌≢◌, ◌≤◌, Ok, Err, true, false, length, IfOk, IfErr};
ghost use Rattle.teg_due.specs.csv.Records.{fields_of};
ghost use Rattle.csv_records.specs.Records.{most_file_bytes};
ghost use Rattle.endless_due.specs.EndlessRows.{IsEndlessOf};
ghost use Rattle.endless_due.specs.EndlessFiles.{dates_of_fields, endless_numbered, endless_of, every_in, gap_in, has_numbers, has_row};

use crate::numbers::{field_at, goes_on, has_numbers, limited_numbers};
use crate::refusal::EndlessRefusal;
use crate::row::EndlessRow;
use csv_records::{ByteRecord, RowFile, read_rows};
use std::alloc::Global;
use teg_due::{is_input, transition_named};
use teg_net::{DateList, NameOrder, Net, TransitionId};

// A file of due dates without end, which is read against a net.
#[derive(Drop)]
struct EndlessFile<'a> {
    alloc: Global,
    net: &'a Net,
    names: NameOrder<'a>,
}

// Whether a row has this transition.
fn has_row(rows: &[EndlessRow], transition: TransitionId) -> bool
    ensures { result ≡ has_row rows.now transition.index }
{
    rows.iter()
        .any(|row| row.transition.index == transition.index)
}

// The row of a transition by the numbers of its record, or the first of their faults.
fn numbered_row(
    alloc: Global,
    rows: &[EndlessRow],
    row: u32,
    transition: TransitionId,
    record: &ByteRecord,
) -> Result<EndlessRow, EndlessRefusal>
    requires { has_numbers (fields_of «record».now) ≡ true }
    ensures read { IfOk result (λ r. endless_numbered rows.now row transition.index
        (every_in (fields_of «record».now)) (gap_in (fields_of «record».now))
        (dates_of_fields (fields_of «record».now)) ≡ Ok r) }
    ensures refused { IfErr result (λ e. e ≢ EndlessRefusal.OutOfMemory →
        endless_numbered rows.now row transition.index (every_in (fields_of «record».now)) (gap_in
        (fields_of «record».now)) (dates_of_fields (fields_of «record».now)) ≡ Err e) }
{
    if has_row(rows, transition) {
        return Err(EndlessRefusal::RepeatedDue { row });
    }
    let Some(numbers) = limited_numbers(alloc, record)? else {
        return Err(EndlessRefusal::OutOfRange { row });
    };
    if !goes_on(numbers.every, numbers.gap, numbers.dates.as_slice()) {
        return Err(EndlessRefusal::Falls { row });
    }
    Ok(EndlessRow {
        row,
        transition,
        every: numbers.every,
        gap: numbers.gap,
        dates: DateList::new(numbers.dates),
    })
}

impl RowFile for EndlessFile<'_> {
    ghost use Rattle.std.specs.Prelude.{◌≡◌};
    ghost use Rattle.endless_due.specs.declared.refusal.EndlessRefusal.TheVariants.{OutOfMemory};
    ghost use Rattle.endless_due.specs.EndlessFiles.{endless_row, is_endless_header};

    type Row = EndlessRow;

    type Refusal = EndlessRefusal;

    ghost is_header = { is_endless_header };

    ghost row_of = { λ s. endless_row s.net.now };

    ghost no_memory = { OutOfMemory };

    ghost has_read = { λ s rows. s.names ≡ s.net.now };

    // Whether the record is `transition`, `every`, `gap`, `dates`.
    fn is_header(&self, record: &ByteRecord) -> bool {
        if record.len() != 4 {
            return false;
        }
        if field_at(record, 0) != b"transition".as_slice() {
            return false;
        }
        if field_at(record, 1) != b"every".as_slice() {
            return false;
        }
        if field_at(record, 2) != b"gap".as_slice() {
            return false;
        }
        field_at(record, 3) == b"dates".as_slice()
    }

    fn read_row(
        &mut self,
        rows: &[EndlessRow],
        row: u32,
        record: &ByteRecord,
    ) -> Result<EndlessRow, EndlessRefusal> {
        if !has_numbers(record) {
            return Err(EndlessRefusal::BadRow { row });
        }
        let Some(transition) = transition_named(self.net, &self.names, field_at(record, 0)) else {
            return Err(EndlessRefusal::UnknownTransition { row });
        };
        if is_input(self.net, transition) {
            return Err(EndlessRefusal::NotDue { row });
        }
        numbered_row(self.alloc, rows, row, transition, record)
    }

    fn no_memory() -> EndlessRefusal
        ensures { result ≡ EndlessRefusal.OutOfMemory }
    {
        EndlessRefusal::OutOfMemory
    }
}

/// The rows of a file of due dates without end in order, or its first faulty row with the first of
/// its faults in the order of [`EndlessRefusal`]: a record that has fewer than four fields or of
/// which a later field than the first is no number; a name of no transition; an input; a transition
/// that an earlier row has; a number of firings that is not 1 to 1,000, a gap or a date above
/// 10^12, or more than 10,000 dates; dates that fall, within the list or past it. A first record
/// `transition`, `every`, `gap`, `dates` is passed over. Dates and gaps are whole numbers in the
/// user's unit. It takes memory for the rows, and time of the order of the bytes, with the square
/// of the number of rows; `OutOfMemory` comes only where no memory is found.
pub fn read_endless(
    alloc: Global,
    net: &Net,
    bytes: &[u8],
) -> Result<Vec<EndlessRow>, EndlessRefusal>
    requires { length bytes.now ≤ most_file_bytes }
    ensures rows { IfOk result (λ rows. endless_of net.now bytes.now ≡ Ok rows.items) }
    ensures refused { IfErr result (λ e. e ≢ EndlessRefusal.OutOfMemory →
        endless_of net.now bytes.now ≡ Err e) }
    ensures rules { IfOk result (λ rows. IsEndlessOf net.now rows.items) }
{
    let names = NameOrder::new(alloc, net)?;
    let file = EndlessFile { alloc, net, names };
    read_rows(alloc, file, bytes)
}
