//! A list of dates, written as its rows are made: neither its dates nor its text are ever whole.
ghost use Rattle.std.specs.Prelude.{ℕ, ◌≡◌, ◌+◌, ◌<◌, ◌≤◌, length, map, IfOk};
ghost use Rattle.teg_report.specs.dioid.declared.dates.Date.{Date};
ghost use Rattle.teg_report.specs.teg_model.Datings.{IsLeastDating};
ghost use Rattle.date_rows.specs.DateCells.{date_of_cell};
ghost use Rattle.date_rows.specs.Streams.{AreFirstRowsOf, IsLeastRow, first_rows_given};
ghost use Rattle.date_rows.specs.DateTables.{most_numbers};
ghost use Rattle.teg_files.specs.List.{SaysList};
ghost use Rattle.teg_files.specs.List.{list_text};
ghost use Rattle.teg_report.specs.DateLists.{head_text};
ghost use Rattle.teg_net.specs.Limits.{most_transitions};
ghost use Rattle.teg_files.specs.WrittenLists.{HasRoom, IsListingOf, WritesFull, lines_text};
ghost use Rattle.teg_files.specs.Finishing.{WritesOutcome};
ghost use Rattle.teg_files.specs.Writing.{WritesText};

use crate::status::Status;
use crate::writing::write_all;
use date_rows::FirstRows;
use std::alloc::Global;
use teg_check::LiveNet;
use teg_net::{Net, OutOfMemory};
use teg_outside::{Sink, SinkFault};
use teg_report::{list_head, put_row, room_of_row};

// From so many bytes on the rows that were made are written.
const PIECE: usize = 65_536;

// Room for a row, for its line, and for the lines that are gathered.
#[derive(Drop)]
struct Buffers {
    row: Vec<u64>,
    line: Vec<u8>,
    block: Vec<u8>,
}

impl Buffers {
    // Room for rows of so many dates.
    fn new(alloc: Global, width: usize) -> Result<Buffers, OutOfMemory>
        requires { width ≤ most_transitions }
        ensures { IfOk result (HasRoom width) }
    {
        let row = vec![in alloc; 0u64; width]?;
        let line = vec![in alloc; 0u8; room_of_row(width)]?;
        let block = vec![in alloc; 0u8; PIECE + room_of_row(width)]?;
        Ok(Buffers { row, line, block })
    }
}

// All that a list needs before its first byte is written: its head, and room for what comes next.
#[derive(Drop)]
struct Listing {
    head: Vec<u8>,
    rows: FirstRows,
    buffers: Buffers,
}

// The head of the list, and the room.
fn head_and_room(alloc: Global, net: &Net, count: u32) -> Result<(Vec<u8>, Buffers), OutOfMemory>
    ensures head { IfOk result (λ parts. parts.0.items ≡ head_text net.now count) }
    ensures room { IfOk result (λ parts. HasRoom (length net.now.transitions) parts.1) }
{
    let head = list_head(alloc, net, count)?;
    let buffers = Buffers::new(alloc, net.transitions().len())?;
    Ok((head, buffers))
}

impl Listing {
    // The listing of so many numbers of the net.
    fn new(alloc: Global, net: &LiveNet, count: u32) -> Result<Listing, OutOfMemory>
        ensures { IfOk result (IsListingOf net.now count) }
    {
        let (head, buffers) = head_and_room(alloc, net.net(), count)?;
        let rows = FirstRows::new(alloc, net.net(), net.live())?;
        Ok(Listing {
            head,
            rows,
            buffers,
        })
    }
}

// Writes what is gathered where that is enough for a piece, and answers how much of the block is
// still to be written.
fn write_full<W: Sink>(out: &mut W, block: &[u8], filled: usize) -> Result<usize, SinkFault>
    requires { filled ≤ length block.now }
    ensures { WritesFull (W.state out.old) (W.state out.new) block.now filled result }
{
    if filled < PIECE {
        return Ok(filled);
    }
    write_all(out, &block[..filled])?;
    Ok(0)
}

// Writes the next row. It is kept apart from what is around it, so that the pass over the places
// has the registers to itself.
#[inline(never)]
fn next_row(net: &Net, rows: &mut FirstRows, row: &mut [u64])
    requires stands { AreFirstRowsOf net.now rows.old }
    requires few { first_rows_given rows.old < most_numbers }
    requires full { length row.old ≡ length net.now.transitions }
    ensures row { IsLeastRow net.now (first_rows_given rows.old + 1) (map date_of_cell row.new) }
    ensures number { first_rows_given rows.new ≡ first_rows_given rows.old + 1 }
    ensures stands { AreFirstRowsOf net.now rows.new }
{
    rows.next_row(net, row)
}

// Writes the lines of the numbers 1 to `count`, gathered into pieces.
fn write_rows<W: Sink>(
    net: &Net,
    mut rows: FirstRows,
    mut buffers: Buffers,
    count: u32,
    out: &mut W,
) -> Result<(), SinkFault>
    requires few { count ≤ most_numbers }
    requires stands { AreFirstRowsOf net.now rows }
    requires begins { first_rows_given rows ≡ 0 }
    requires room { HasRoom (length net.now.transitions) buffers }
    ensures { (x : ℕ → ℕ → Date) → IsLeastDating net.now x →
        WritesText (W.state out.old) (W.state out.new) (lines_text net.now x count) result }
{
    let row = buffers.row.as_mut_slice();
    let line = buffers.line.as_mut_slice();
    let block = buffers.block.as_mut_slice();
    let mut filled = 0;
    for number in 0..count {
        next_row(net, &mut rows, row);
        let end = put_row(block, filled, line, number as u64 + 1, row);
        filled = write_full(out, block, end)?;
    }
    write_all(out, &block[..filled])
}

// Writes the head and then the lines.
fn write_listing<W: Sink>(
    net: &Net,
    listing: Listing,
    count: u32,
    out: &mut W,
) -> Result<(), SinkFault>
    requires few { count ≤ most_numbers }
    requires listing { IsListingOf net.now count listing }
    ensures { (x : ℕ → ℕ → Date) → IsLeastDating net.now x →
        WritesText (W.state out.old) (W.state out.new) (list_text net.now x count) result }
{
    let Listing {
        head,
        rows,
        buffers,
    } = listing;
    write_all(out, &head)?;
    write_rows(net, rows, buffers, count, out)
}

/// Writes the first dates of a live net, and tells how the call ends. All memory is found before
/// the first byte is written, as much for every number of dates, and rows are gathered into pieces
/// of at least 64 KiB but for the last. It takes time of order `count (n + p)` for n transitions
/// and p places.
pub fn write_list<W: Sink>(alloc: Global, net: &LiveNet, count: u32, out: &mut W) -> Status
    requires { count ≤ most_numbers }
    ensures { WritesOutcome (SaysList count net.now) (W.state out.old) (W.state out.new) result }
{
    match Listing::new(alloc, net, count) {
        Ok(listing) => match write_listing(net.net(), listing, count, out) {
            Ok(()) => Status::Done,
            Err(SinkFault::Failed) => Status::WriteFault,
        },
        Err(_) => Status::NoMemory,
    }
}
