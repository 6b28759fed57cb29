//! Due files: dates by which firings are due.
ghost use Rattle.std.specs.Prelude.{◌≡◌, ◌≢◌, ◌≤◌, Ok, Err, true, false, length, IfOk, IfErr};
ghost use Rattle.std.specs.Str.Parse.{digits_value};
ghost use Rattle.csv_records.specs.NumberFields.{is_number};
ghost use Rattle.csv_records.specs.Records.{most_file_bytes};
ghost use Rattle.teg_due.specs.DueFileRows.{due_numbered, due_of, greatest_due_number};
ghost use Rattle.teg_due.specs.RowRules.{IsDueOf};

use crate::names::{is_input, transition_named};
use crate::rows::{Due, DueRefusal, DueRow};
use csv_records::{
    ByteRecord, GREATEST_SEEN_NUMBER, RowFile, Seen, is_number, number_up_to, read_rows,
    three_fields,
};
use std::alloc::Global;
use teg_net::{GREATEST_INPUT_DATE, NameOrder, Net, TransitionId};

// A due file, which is read against a net, and the numbers that were read of each transition.
#[derive(Drop)]
struct DueFile<'a> {
    net: &'a Net,
    names: NameOrder<'a>,
    seen: Seen,
}

// The row of a firing, which an earlier row has or has not, by the digits of its number and its
// date, or the first of its faults.
fn numbered_row(
    is_repeated: bool,
    row: u32,
    transition: TransitionId,
    number: &[u8],
    date: &[u8],
) -> Result<DueRow, DueRefusal>
    requires number { is_number number.now ≡ true }
    requires date { is_number date.now ≡ true }
    ensures row { result ≡
        due_numbered is_repeated row transition.index
        (digits_value 10 number.now) (digits_value 10 date.now) }
    ensures transition { IfOk result (λ r. r.transition ≡ transition) }
    ensures number { IfOk result (λ r. r.number ≤ greatest_due_number) }
{
    if is_repeated {
        return Err(DueRefusal::RepeatedDue { row });
    }
    let number = number_up_to(number, u64::from(GREATEST_SEEN_NUMBER));
    let date = number_up_to(date, GREATEST_INPUT_DATE);
    match (number, date) {
        (Some(number), Some(date)) if number >= 1 => Ok(DueRow {
            row,
            transition,
            number: number as u32,
            date,
        }),
        _ => Err(DueRefusal::OutOfRange { row }),
    }
}

impl RowFile for DueFile<'_> {
    ghost use Rattle.teg_due.specs.declared.rows.DueRefusal.TheVariants.{OutOfMemory};
    ghost use Rattle.teg_due.specs.DueFileRows.{due_row, is_due_header};
    ghost use Rattle.teg_due.specs.DueFiles.{HasDues};

    type Row = DueRow;

    type Refusal = DueRefusal;

    ghost is_header = { is_due_header };

    ghost row_of = { λ s. due_row s.net.now };

    ghost no_memory = { OutOfMemory };

    ghost has_read = { λ s rows. HasDues s.net.now s.names s.seen rows };

    // Whether the record is `transition`, `number`, `date`.
    fn is_header(&self, record: &ByteRecord) -> bool {
        match three_fields(record) {
            Some(fields) => {
                fields.first == b"transition".as_slice()
                    && fields.second == b"number".as_slice()
                    && fields.third == b"date".as_slice()
            }
            None => false,
        }
    }

    fn read_row(
        &mut self,
        _rows: &[DueRow],
        row: u32,
        record: &ByteRecord,
    ) -> Result<DueRow, DueRefusal> {
        let Some(fields) = three_fields(record) else {
            return Err(DueRefusal::BadRow { row });
        };
        if !is_number(fields.second) || !is_number(fields.third) {
            return Err(DueRefusal::BadRow { row });
        }
        let Some(transition) = transition_named(self.net, &self.names, fields.first) else {
            return Err(DueRefusal::UnknownTransition { row });
        };
        if is_input(self.net, transition) {
            return Err(DueRefusal::NotDue { row });
        }
        let column = transition.index as usize;
        let is_repeated = self.seen.has_number(column, fields.second);
        let due = numbered_row(is_repeated, row, transition, fields.second, fields.third)?;
        self.seen.add(column, due.number);
        Ok(due)
    }

    fn no_memory() -> DueRefusal
        ensures { result ≡ DueRefusal.OutOfMemory }
    {
        DueRefusal::OutOfMemory
    }
}

/// The rows of a due file of at most 4,194,304 bytes, in order (rules of due files), or its first
/// faulty row with the first of its faults in the order of [`DueRefusal`]: a record that has not
/// three fields or whose second or third is no number; a name of no transition; an input; a firing
/// that an earlier row has; a number that is not 1 to 10,000, or a date above 10^12. A first record
/// `transition`, `number`, `date` is passed over. `OutOfMemory` comes only where no memory is
/// found. It takes 10,001 bytes for each transition of the net, and time of the order of them and
/// of the bytes, and for each row a look-up of its name.
pub fn read_due(alloc: Global, net: &Net, bytes: &[u8]) -> Result<Due, DueRefusal>
    requires { length bytes.now ≤ most_file_bytes }
    ensures rows { IfOk result (λ due. due_of net.now bytes.now ≡ Ok due.rows.items) }
    ensures refused { IfErr result (λ e. e ≢ DueRefusal.OutOfMemory →
        due_of net.now bytes.now ≡ Err e) }
    ensures rules { IfOk result (λ due. IsDueOf net.now due.rows.items) }
    ensures few { IfOk result (λ due. length due.rows.items ≤ length bytes.now) }
{
    let names = NameOrder::new(alloc, net)?;
    let seen = Seen::new(alloc, net.transitions().len())?;
    let file = DueFile { net, names, seen };
    let rows = read_rows(alloc, file, bytes)?;
    Ok(Due { rows })
}
