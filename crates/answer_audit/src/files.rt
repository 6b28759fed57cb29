//! The files that answers were asked with, each read once, and what each says.
ghost use Rattle.std.specs.Prelude.{◌≤◌, IfOk, Ok, length};
ghost use Rattle.csv_records.specs.Records.{most_file_bytes};
ghost use Rattle.teg_outside.specs.Shelves.{replied};
ghost use Rattle.audit_calls.specs.AuditFiles.{GivesFile, OpensFileOf};
ghost use Rattle.answer_audit.specs.RowFiles.{SaysDue, SaysEndlessDue, SaysTable};

use audit_calls::fetch_file;
use delay_laws::Timetable;
use endless_due::{EndlessRefusal, EndlessRow, read_endless};
use std::alloc::Global;
use teg_due::{Due, DueRefusal, read_due};
use teg_net::{Net, OutOfMemory};
use teg_outside::{Shelf, ShelfFault};
use timetable_files::{TableRefusal, read_timetable};

// The rows that the bytes of a due file say, if they say some.
fn due_said(alloc: Global, net: &Net, bytes: &[u8]) -> Result<Option<Due>, OutOfMemory>
    requires { length bytes.now ≤ most_file_bytes }
    ensures { IfOk result (GivesFile (SaysDue net.now) (Ok bytes.now)) }
{
    match read_due(alloc, net, bytes) {
        Ok(due) => Ok(Some(due)),
        Err(DueRefusal::OutOfMemory) => Err(OutOfMemory),
        Err(_) => Ok(None),
    }
}

// The rows that a reply gives, if it gives some.
fn due_given(
    alloc: Global,
    net: &Net,
    reply: Result<Vec<u8>, ShelfFault>,
) -> Result<Option<Due>, OutOfMemory>
    requires { IfOk reply (λ bytes. length bytes.items ≤ most_file_bytes) }
    ensures { IfOk result (GivesFile (SaysDue net.now) (replied reply)) }
{
    match reply {
        Ok(bytes) => due_said(alloc, net, &bytes),
        Err(ShelfFault::OutOfMemory) => Err(OutOfMemory),
        Err(ShelfFault::Failed | ShelfFault::TooLarge) => Ok(None),
    }
}

// The rows of the due file of this name.
pub(crate) fn open_due<S: Shelf>(
    alloc: Global,
    net: &Net,
    name: &str,
    shelf: &mut S,
) -> Result<Option<Due>, OutOfMemory>
    ensures { IfOk result (OpensFileOf (SaysDue net.now) name.now most_file_bytes
        (S.state shelf.old) (S.state shelf.new)) }
{
    let reply = fetch_file(alloc, name, shelf);
    let due = due_given(alloc, net, reply)?;
    Ok(due)
}

/// The rows of a due file without end.
#[derive(Drop)]
pub struct EndlessDue {
    pub rows: Vec<EndlessRow>,
}

// The rows that the bytes of a due file without end say, if they say some.
fn endless_said(alloc: Global, net: &Net, bytes: &[u8]) -> Result<Option<EndlessDue>, OutOfMemory>
    requires { length bytes.now ≤ most_file_bytes }
    ensures { IfOk result (GivesFile (SaysEndlessDue net.now) (Ok bytes.now)) }
{
    match read_endless(alloc, net, bytes) {
        Ok(rows) => Ok(Some(EndlessDue { rows })),
        Err(EndlessRefusal::OutOfMemory) => Err(OutOfMemory),
        Err(_) => Ok(None),
    }
}

// The rows that a reply gives, if it gives some.
fn endless_given(
    alloc: Global,
    net: &Net,
    reply: Result<Vec<u8>, ShelfFault>,
) -> Result<Option<EndlessDue>, OutOfMemory>
    requires { IfOk reply (λ bytes. length bytes.items ≤ most_file_bytes) }
    ensures { IfOk result (GivesFile (SaysEndlessDue net.now) (replied reply)) }
{
    match reply {
        Ok(bytes) => endless_said(alloc, net, &bytes),
        Err(ShelfFault::OutOfMemory) => Err(OutOfMemory),
        Err(ShelfFault::Failed | ShelfFault::TooLarge) => Ok(None),
    }
}

// The rows of the due file without end of this name.
pub(crate) fn open_endless<S: Shelf>(
    alloc: Global,
    net: &Net,
    name: &str,
    shelf: &mut S,
) -> Result<Option<EndlessDue>, OutOfMemory>
    ensures { IfOk result (OpensFileOf (SaysEndlessDue net.now) name.now most_file_bytes
        (S.state shelf.old) (S.state shelf.new)) }
{
    let reply = fetch_file(alloc, name, shelf);
    let due = endless_given(alloc, net, reply)?;
    Ok(due)
}

// The timetable that the bytes of its file say, if they say one.
fn table_said(alloc: Global, net: &Net, bytes: &[u8]) -> Result<Option<Timetable>, OutOfMemory>
    requires { length bytes.now ≤ most_file_bytes }
    ensures { IfOk result (GivesFile (SaysTable net.now) (Ok bytes.now)) }
{
    match read_timetable(alloc, net, bytes) {
        Ok(table) => Ok(Some(table)),
        Err(TableRefusal::OutOfMemory) => Err(OutOfMemory),
        Err(_) => Ok(None),
    }
}

// The timetable that a reply gives, if it gives one.
fn table_given(
    alloc: Global,
    net: &Net,
    reply: Result<Vec<u8>, ShelfFault>,
) -> Result<Option<Timetable>, OutOfMemory>
    requires { IfOk reply (λ bytes. length bytes.items ≤ most_file_bytes) }
    ensures { IfOk result (GivesFile (SaysTable net.now) (replied reply)) }
{
    match reply {
        Ok(bytes) => table_said(alloc, net, &bytes),
        Err(ShelfFault::OutOfMemory) => Err(OutOfMemory),
        Err(ShelfFault::Failed | ShelfFault::TooLarge) => Ok(None),
    }
}

// The timetable of the file of this name.
pub(crate) fn open_table<S: Shelf>(
    alloc: Global,
    net: &Net,
    name: &str,
    shelf: &mut S,
) -> Result<Option<Timetable>, OutOfMemory>
    ensures { IfOk result (OpensFileOf (SaysTable net.now) name.now most_file_bytes
        (S.state shelf.old) (S.state shelf.new)) }
{
    let reply = fetch_file(alloc, name, shelf);
    let table = table_given(alloc, net, reply)?;
    Ok(table)
}
