//! The entries that the rows of a timetable's file give, or the first fault.
ghost use Rattle.std.specs.Prelude.{◌≡◌, ◌≢◌, ◌≤◌, Ok, Err, true, false, length, IfOk, IfErr};
ghost use Rattle.std.specs.Str.Parse.{digits_value};
ghost use Rattle.csv_records.specs.NumberFields.{is_number};
ghost use Rattle.csv_records.specs.Records.{most_file_bytes};
ghost use Rattle.timetable_files.specs.Entries.{delay_row, departure_row, entries_of};
ghost use Rattle.timetable_files.specs.EntryRules.{AreEntriesOf};

use crate::entries::TableEntry;
use crate::refusals::TableRefusal;
use csv_records::{
    ByteRecord, GREATEST_SEEN_NUMBER, RowFile, Seen, ThreeFields, TwoFields, is_number,
    number_up_to, read_rows, three_fields, two_fields,
};
use delay_laws::Delay;
use std::alloc::Global;
use teg_due::transition_named;
use teg_net::{NameOrder, Net, TransitionId};

// The greatest first departure.
const GREATEST_DEPARTURE: u64 = 1_000_000_000;

// The greatest delay.
const GREATEST_DELAY: u64 = 50_000;

// A timetable's file, which is read against a net, and the numbers that were read of each
// transition: 0 for its first departure.
#[derive(Drop)]
struct TableFile<'a> {
    net: &'a Net,
    names: NameOrder<'a>,
    seen: Seen,
}

// The first departure of a transition, which an earlier row gives or not, by its digits; or the
// first of its faults.
fn departure_row(
    is_repeated: bool,
    row: u32,
    transition: TransitionId,
    first: &[u8],
) -> Result<TableEntry, TableRefusal>
    requires { is_number first.now ≡ true }
    ensures { result ≡
        departure_row is_repeated row transition.index (digits_value 10 first.now) }
{
    if is_repeated {
        return Err(TableRefusal::Repeated { row });
    }
    match number_up_to(first, GREATEST_DEPARTURE) {
        Some(first) => Ok(TableEntry::Departure { transition, first }),
        None => Err(TableRefusal::OutOfRange { row }),
    }
}

// The delay of a departure, which an earlier row delays or not, by the digits of its number and of
// the delay; or the first of its faults. None is of number 0.
fn delay_row(
    is_repeated: bool,
    row: u32,
    transition: TransitionId,
    number: &[u8],
    by: &[u8],
) -> Result<TableEntry, TableRefusal>
    requires number { is_number number.now ≡ true }
    requires by { is_number by.now ≡ true }
    ensures { result ≡
        delay_row is_repeated row transition.index
        (digits_value 10 number.now) (digits_value 10 by.now) }
{
    let number = number_up_to(number, u64::from(GREATEST_SEEN_NUMBER));
    let by = number_up_to(by, GREATEST_DELAY);
    match (number, by) {
        (Some(0), _) => Err(TableRefusal::OutOfRange { row }),
        _ if is_repeated => Err(TableRefusal::Repeated { row }),
        (Some(number), Some(by)) if by >= 1 => Ok(TableEntry::Late {
            delay: Delay {
                row,
                transition,
                number: number as u32,
                by,
            },
        }),
        _ => Err(TableRefusal::OutOfRange { row }),
    }
}

impl TableFile<'_> {
    ghost use Rattle.std.specs.Prelude.{◌<◌, ◌∷◌, []};
    ghost use Rattle.teg_due.specs.csv.Records.{fields_of};
    ghost use Rattle.timetable_files.specs.Entries.{entry_row};
    ghost use Rattle.timetable_files.specs.TableFiles.{HasEntries};

    // The entry of a record of two fields after these, or the first of its faults.
    fn departure(
        &self,
        entries: &[TableEntry],
        row: u32,
        fields: TwoFields<'_>,
    ) -> Result<TableEntry, TableRefusal>
        requires { HasEntries self.now.net.now self.now.names self.now.seen entries.now }
        ensures { result ≡
            entry_row self.now.net.now entries.now row
            (fields.entry.first.now ∷ fields.entry.second.now ∷ []) }
    {
        if !is_number(fields.second) {
            return Err(TableRefusal::BadRow { row });
        }
        let Some(transition) = transition_named(self.net, &self.names, fields.first) else {
            return Err(TableRefusal::UnknownTransition { row });
        };
        let is_repeated = self.seen.has(transition.index as usize, 0);
        departure_row(is_repeated, row, transition, fields.second)
    }

    // The entry of a record of three fields after these, or the first of its faults.
    fn delay(
        &self,
        entries: &[TableEntry],
        row: u32,
        fields: ThreeFields<'_>,
    ) -> Result<TableEntry, TableRefusal>
        requires { HasEntries self.now.net.now self.now.names self.now.seen entries.now }
        ensures { result ≡
            entry_row self.now.net.now entries.now row
            (fields.entry.first.now ∷ fields.entry.second.now ∷ fields.entry.third.now ∷ []) }
    {
        if !is_number(fields.second) || !is_number(fields.third) {
            return Err(TableRefusal::BadRow { row });
        }
        let Some(transition) = transition_named(self.net, &self.names, fields.first) else {
            return Err(TableRefusal::UnknownTransition { row });
        };
        let is_repeated = self
            .seen
            .has_number(transition.index as usize, fields.second);
        delay_row(is_repeated, row, transition, fields.second, fields.third)
    }

    // The entry of a record after these, or the first of its faults.
    fn entry(
        &self,
        entries: &[TableEntry],
        row: u32,
        record: &ByteRecord,
    ) -> Result<TableEntry, TableRefusal>
        requires { HasEntries self.now.net.now self.now.names self.now.seen entries.now }
        ensures { result ≡
            entry_row self.now.net.now entries.now row (fields_of «record».now) }
    {
        if let Some(fields) = two_fields(record) {
            return self.departure(entries, row, fields);
        }
        if let Some(fields) = three_fields(record) {
            return self.delay(entries, row, fields);
        }
        Err(TableRefusal::BadRow { row })
    }
}

impl RowFile for TableFile<'_> {
    ghost use Rattle.timetable_files.specs.declared.refusals.TableRefusal.TheVariants.{OutOfMemory};
    ghost use Rattle.timetable_files.specs.Entries.{entry_row, is_table_header};
    ghost use Rattle.timetable_files.specs.TableFiles.{HasEntries};

    type Row = TableEntry;

    type Refusal = TableRefusal;

    ghost is_header = { is_table_header };

    ghost row_of = { λ s. entry_row s.net.now };

    ghost no_memory = { OutOfMemory };

    ghost has_read = { λ s entries. HasEntries s.net.now s.names s.seen entries };

    // Whether the record is `transition`, `first`.
    fn is_header(&self, record: &ByteRecord) -> bool {
        match two_fields(record) {
            Some(fields) => {
                fields.first == b"transition".as_slice() && fields.second == b"first".as_slice()
            }
            None => false,
        }
    }

    fn read_row(
        &mut self,
        entries: &[TableEntry],
        row: u32,
        record: &ByteRecord,
    ) -> Result<TableEntry, TableRefusal> {
        let entry = self.entry(entries, row, record)?;
        self.seen
            .add(entry.transition().index as usize, entry.number());
        Ok(entry)
    }

    fn no_memory() -> TableRefusal
        ensures { result ≡ TableRefusal.OutOfMemory }
    {
        TableRefusal::OutOfMemory
    }
}

// The entries of a file in order, or its first faulty row with the first of its faults.
pub(crate) fn read_entries(
    alloc: Global,
    net: &Net,
    bytes: &[u8],
) -> Result<Vec<TableEntry>, TableRefusal>
    requires { length bytes.now ≤ most_file_bytes }
    ensures entries { IfOk result (λ entries. entries_of net.now bytes.now ≡ Ok entries.items) }
    ensures refused { IfErr result (λ e. e ≢ TableRefusal.OutOfMemory →
        entries_of net.now bytes.now ≡ Err e) }
    ensures rules { IfOk result (λ entries. AreEntriesOf net.now entries.items) }
{
    let names = NameOrder::new(alloc, net)?;
    let seen = Seen::new(alloc, net.transitions().len())?;
    let file = TableFile { net, names, seen };
    read_rows(alloc, file, bytes)
}
