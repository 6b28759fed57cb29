//! Logs: recorded runs.
ghost use Rattle.std.specs.Prelude.{◌≡◌, ◌≢◌, ◌≤◌, Ok, Err, false, length, IfOk, IfErr};
ghost use Rattle.csv_records.specs.Records.{most_file_bytes};
ghost use Rattle.teg_due.specs.Logs.{log_of};
ghost use Rattle.teg_due.specs.RowRules.{IsLogOf};

use crate::names::transition_named;
use crate::rows::{LogRefusal, LogRow};
use csv_records::{ByteRecord, RowFile, is_number, number_up_to, read_rows, two_fields};
use std::alloc::Global;
use teg_net::{NameOrder, Net};

// The greatest date of a recorded firing.
pub(crate) const GREATEST_LOG_DATE: u64 = 1_000_000_000_000_000_000;

// A log, which is read against a net.
#[derive(Drop)]
struct Log<'a> {
    net: &'a Net,
    names: NameOrder<'a>,
}

impl RowFile for Log<'_> {
    ghost use Rattle.std.specs.Prelude.{◌≡◌};
    ghost use Rattle.teg_due.specs.declared.rows.LogRefusal.TheVariants.{OutOfMemory};
    ghost use Rattle.teg_due.specs.Logs.{is_log_header, log_row};

    type Row = LogRow;

    type Refusal = LogRefusal;

    ghost is_header = { is_log_header };

    ghost row_of = { λ s. log_row s.net.now };

    ghost no_memory = { OutOfMemory };

    ghost has_read = { λ s rows. s.names ≡ s.net.now };

    // Whether the record is `transition`, `date`.
    fn is_header(&self, record: &ByteRecord) -> bool {
        match two_fields(record) {
            Some(fields) => {
                fields.first == b"transition".as_slice() && fields.second == b"date".as_slice()
            }
            None => false,
        }
    }

    fn read_row(
        &mut self,
        _rows: &[LogRow],
        row: u32,
        record: &ByteRecord,
    ) -> Result<LogRow, LogRefusal> {
        let Some(fields) = two_fields(record) else {
            return Err(LogRefusal::BadRow { row });
        };
        if !is_number(fields.second) {
            return Err(LogRefusal::BadRow { row });
        }
        let Some(transition) = transition_named(self.net, &self.names, fields.first) else {
            return Err(LogRefusal::UnknownTransition { row });
        };
        match number_up_to(fields.second, GREATEST_LOG_DATE) {
            Some(date) => Ok(LogRow {
                row,
                transition,
                date,
            }),
            None => Err(LogRefusal::OutOfRange { row }),
        }
    }

    fn no_memory() -> LogRefusal
        ensures { result ≡ LogRefusal.OutOfMemory }
    {
        LogRefusal::OutOfMemory
    }
}

/// The rows of a log of at most 4,194,304 bytes, in order (rules of logs), or its first faulty row
/// with the first of its faults in the order of [`LogRefusal`]: a record that has not two fields or
/// whose second is no number; a name of no transition; a date above 10^18. A first record
/// `transition`, `date` is passed over. `OutOfMemory` comes only where no memory is found. It takes
/// time of the order of the bytes, and for each row a look-up of its name.
pub fn read_log(alloc: Global, net: &Net, bytes: &[u8]) -> Result<Vec<LogRow>, LogRefusal>
    requires { length bytes.now ≤ most_file_bytes }
    ensures rows { IfOk result (λ rows. log_of net.now bytes.now ≡ Ok rows.items) }
    ensures refused { IfErr result (λ e. e ≢ LogRefusal.OutOfMemory →
        log_of net.now bytes.now ≡ Err e) }
    ensures rules { IfOk result (λ rows. IsLogOf net.now rows.items) }
    ensures few { IfOk result (λ rows. length rows.items ≤ length bytes.now) }
{
    let names = NameOrder::new(alloc, net)?;
    let log = Log { net, names };
    read_rows(alloc, log, bytes)
}
