//! The text of a list of dates in pieces: its head, and its rows one after another.
ghost use Rattle.std.specs.Prelude.{◌≡◌, ◌+◌, ◌*◌, ◌++◌, ◌∷◌, ◌≤◌, ◌^◌, IfOk, drop, length, map, take};
ghost use Rattle.std.specs.Fmt.{decimal};
ghost use Rattle.teg_report.specs.DateLists.{ListsAreJoined, head_text, row_text};
ghost use Rattle.teg_text.specs.ValueWords.{date_word};

use crate::lists::head;
use date_rows::DateCell;
use dioid::Date;
use itoa::{Buffer, write_digits};
use std::alloc::Global;
use teg_net::{Net, OutOfMemory};

/// The room that a row of so many dates needs in a block, in bytes: at most 41 for each date, 20
/// for its number, and 1 for the line feed. It takes no memory.
pub fn room_of_row(dates: usize) -> usize
    requires { dates ≤ 2 ^ 58 }
    ensures { result ≡ (dates + 1) * 41 }
{
    (dates + 1) * 41
}

// Writes these bytes so that they end there, and answers where they begin.
fn put_before(line: &mut [u8], end: usize, bytes: &[u8]) -> usize
    requires room { length bytes.now ≤ end }
    requires within { end ≤ length line.old }
    ensures text { drop result line.new ≡ bytes.now ++ drop end line.old }
    ensures start { result + length bytes.now ≡ end }
    ensures same { length line.new ≡ length line.old }
{
    let start = end - bytes.len();
    line[start..end].copy_from_slice(bytes);
    start
}

// Writes a number so that it ends there, and answers where it begins.
fn number_before(line: &mut [u8], end: usize, number: u64) -> usize
    requires room { 20 ≤ end }
    requires within { end ≤ length line.old }
    ensures text { drop result line.new ≡ decimal number ++ drop end line.old }
    ensures start { (result ≤ end) × (end ≤ result + 20) }
    ensures same { length line.new ≡ length line.old }
{
    write_digits(number, line, end)
}

// Writes a date so that it ends there, and answers where it begins.
fn date_before(line: &mut [u8], end: usize, date: Date) -> usize
    requires room { 40 ≤ end }
    requires within { end ≤ length line.old }
    ensures text { drop result line.new ≡ date_word date ++ drop end line.old }
    ensures start { (result ≤ end) × (end ≤ result + 40) }
    ensures same { length line.new ≡ length line.old }
{
    match date {
        Date::Early => put_before(line, end, b"epsilon"),
        Date::At(date) => match u64::try_from(date) {
            Ok(number) => number_before(line, end, number),
            Err(_) => put_before(line, end, Buffer::new().format(date).as_bytes()),
        },
        Date::Never => put_before(line, end, b"never"),
    }
}

// Writes a byte so that it ends there, and answers where it stands.
fn byte_before(line: &mut [u8], end: usize, byte: u8) -> usize
    requires room { 1 ≤ end }
    requires within { end ≤ length line.old }
    ensures text { drop result line.new ≡ byte ∷ drop end line.old }
    ensures start { result + 1 ≡ end }
    ensures same { length line.new ≡ length line.old }
{
    line[end - 1] = byte;
    end - 1
}

// Writes the line of a number so that it ends with the room for it, and answers where it begins: so
// no digit is written twice. It takes no memory, and time of the order of the line.
fn end_row<C: DateCell>(line: &mut [u8], number: u64, row: &[C]) -> usize
    requires { (length row.now + 1) * 41 ≤ length line.old }
    ensures text { drop result line.new ≡ row_text number (map C.held row.now) }
    ensures start { length line.new ≤ result + (length row.now + 1) * 41 }
    ensures within { result ≤ length line.new }
    ensures same { length line.new ≡ length line.old }
{
    let mut start = byte_before(line, line.len(), b'\n');
    for index in 0..row.len() {
        let date = row[row.len() - 1 - index].date();
        start = date_before(line, start, date);
        start = byte_before(line, start, b' ');
    }
    number_before(line, start, number)
}

/// Writes the line of a number into the block from there on: the number, the dates of its firings,
/// a line feed. It answers where the line ends; `line` is room to make it in. It takes no memory,
/// and time of the order of the line.
#[tactic(auto, using(std::proofs::lemmas::Slice::overwrites))]
pub fn put_row<C: DateCell>(
    block: &mut [u8],
    at: usize,
    line: &mut [u8],
    number: u64,
    row: &[C],
) -> usize
    requires block { at + (length row.now + 1) * 41 ≤ length block.old }
    requires line { (length row.now + 1) * 41 ≤ length line.old }
    // The line stands behind what stood before it.
    ensures text { take result block.new ≡ take at block.old ++ row_text number
        (map C.held row.now) }
    // What stands behind it is as it was.
    ensures rest { drop result block.new ≡ drop result block.old }
    ensures end { result ≤ at + (length row.now + 1) * 41 }
    ensures same { length block.new ≡ length block.old }
    ensures room { length line.new ≡ length line.old }
{
    let start = end_row(line, number, row);
    let end = at + (line.len() - start);
    block[at..end].copy_from_slice(&line[start..]);
    end
}

/// The first two lines of the list of so many numbers of the net: how many firings are told, and
/// the names of the transitions, in their order. `OutOfMemory` comes only where no memory is found.
/// It takes time of the order of the lines.
pub fn list_head(alloc: Global, net: &Net, count: u32) -> Result<Vec<u8>, OutOfMemory>
    ensures { IfOk result (λ text. text.items ≡ head_text net.now count) }
{
    Ok(head(alloc, net, count)?.into_bytes())
}

/// The line of a number with the dates of its firings, one for each transition in their order, in
/// the user's unit. `OutOfMemory` comes only where no memory is found. It takes time of the order
/// of the line.
pub fn list_row(alloc: Global, number: u64, row: &[Date]) -> Result<Vec<u8>, OutOfMemory>
    ensures { IfOk result (λ text. text.items ≡ row_text number row.now) }
{
    let mut line = vec![in alloc; 0u8; room_of_row(row.len())]?;
    let start = end_row(&mut line, number, row);
    Ok(Vec::from_slice(alloc, &line[start..])?)
}

/// The law that the head of a list and its rows, one after another, are the text of the list: of
/// any dating whose rows they are. It does nothing when it runs.
pub fn lists_are_joined()
    ensures { ListsAreJoined }
{}
