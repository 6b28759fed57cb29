//! The files of a question, each read once, and what those of the net and of an answer say.
ghost use Rattle.std.specs.Prelude.{◌≡◌, IfOk, Ok};
ghost use Rattle.csv_records.specs.Records.{most_file_bytes};
ghost use Rattle.teg_outside.specs.Shelves.{Reads, replied};
ghost use Rattle.teg_reader.specs.PassWalks.{is_memory};
ghost use Rattle.audit_calls.specs.AuditFiles.{GivesFile, OpensFileOf, SaysNetOf, SaysText, file_named, most_answer_bytes};

use std::alloc::Global;
use teg_net::{Net, OutOfMemory};
use teg_outside::{Shelf, ShelfFault};
use teg_reader::{ReadRefusal, read_net};

// The most bytes that a file may have which is no answer.
const MOST_BYTES: usize = 4_194_304;

// The most bytes that an answer may have.
const MOST_ANSWER_BYTES: usize = 1_073_741_824;

// The file that a word names.
fn file_named(word: &str) -> &str
    ensures { result.now ≡ file_named word.now }
{
    match word {
        "-" => "/dev/stdin",
        _ => word,
    }
}

// The bytes of the file that the word names, which is read once.
fn fetch<S: Shelf>(
    alloc: Global,
    word: &str,
    most: usize,
    shelf: &mut S,
) -> Result<Vec<u8>, ShelfFault>
    ensures { Reads (S.state shelf.old) (S.state shelf.new) (file_named word.now) most
        (replied result) }
{
    shelf.read(alloc, file_named(word), most)
}

/// The bytes of the file that the word names, which is read once and is no answer: at most 4,194,304
/// of them, for which it takes memory. `-` is standard input.
pub fn fetch_file<S: Shelf>(alloc: Global, word: &str, shelf: &mut S) -> Result<Vec<u8>, ShelfFault>
    ensures { Reads (S.state shelf.old) (S.state shelf.new) (file_named word.now) most_file_bytes
        (replied result) }
{
    fetch(alloc, word, MOST_BYTES, shelf)
}

// Whether no memory was found.
fn is_memory(refusal: &ReadRefusal) -> bool
    ensures { result ≡ is_memory refusal.now }
{
    matches!(refusal, ReadRefusal::OutOfMemory)
}

// The net that the bytes say, if they say one.
fn net_said(alloc: Global, bytes: &[u8]) -> Result<Option<Net>, OutOfMemory>
    ensures { IfOk result (GivesFile SaysNetOf (Ok bytes.now)) }
{
    match read_net(alloc, bytes) {
        Ok(net) => Ok(Some(net)),
        Err(refusal) => {
            if is_memory(&refusal) {
                Err(OutOfMemory)
            } else {
                Ok(None)
            }
        }
    }
}

// The net that a reply gives, if it gives one.
fn net_given(alloc: Global, reply: Result<Vec<u8>, ShelfFault>) -> Result<Option<Net>, OutOfMemory>
    ensures { IfOk result (GivesFile SaysNetOf (replied reply)) }
{
    match reply {
        Ok(bytes) => net_said(alloc, &bytes),
        Err(ShelfFault::OutOfMemory) => Err(OutOfMemory),
        Err(ShelfFault::Failed | ShelfFault::TooLarge) => Ok(None),
    }
}

// The net of the file of this name.
pub(crate) fn open_net<S: Shelf>(
    alloc: Global,
    name: &str,
    shelf: &mut S,
) -> Result<Option<Net>, OutOfMemory>
    ensures { IfOk result (OpensFileOf SaysNetOf name.now most_file_bytes
        (S.state shelf.old) (S.state shelf.new)) }
{
    let reply = fetch_file(alloc, name, shelf);
    let net = net_given(alloc, reply)?;
    Ok(net)
}

// The text of these bytes, if they are one.
fn text_said(bytes: Vec<u8>) -> Option<String>
    ensures { GivesFile SaysText (Ok bytes.items) result }
{
    match String::from_utf8(bytes) {
        Ok(text) => {
            let _bytes = text.as_str().as_bytes();
            Some(text)
        }
        Err(_) => None,
    }
}

// The text that a reply gives, if it gives one.
fn text_given(reply: Result<Vec<u8>, ShelfFault>) -> Result<Option<String>, OutOfMemory>
    ensures { IfOk result (GivesFile SaysText (replied reply)) }
{
    match reply {
        Ok(bytes) => Ok(text_said(bytes)),
        Err(ShelfFault::OutOfMemory) => Err(OutOfMemory),
        Err(ShelfFault::Failed | ShelfFault::TooLarge) => Ok(None),
    }
}

/// The text of the file of this name, which is read once; none where it is not read or has no text.
/// It takes memory for it.
pub fn open_text<S: Shelf>(
    alloc: Global,
    name: &str,
    shelf: &mut S,
) -> Result<Option<String>, OutOfMemory>
    ensures { IfOk result (OpensFileOf SaysText name.now most_answer_bytes
        (S.state shelf.old) (S.state shelf.new)) }
{
    let reply = fetch(alloc, name, MOST_ANSWER_BYTES, shelf);
    let text = text_given(reply)?;
    Ok(text)
}
