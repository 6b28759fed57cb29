//! Real files, through the bound.
ghost use Rattle.teg_outside.specs.Shelves.{LongIsTooLarge, Reads, replied};

use std::alloc::Global;
use std::fs;
use std::test::Fail;
use teg_outside::{FileShelf, Shelf, ShelfFault};

// A read through the bound alone: all that the trait says, and that a long file is too large by it.
fn read_from<S: Shelf>(
    shelf: &mut S,
    alloc: Global,
    name: &str,
    limit: usize,
) -> Result<Vec<u8>, ShelfFault>
    ensures reads { Reads (S.state shelf.old) (S.state shelf.new) name.now limit (replied result) }
    ensures long { LongIsTooLarge (S.state shelf.old) (S.state shelf.new) name.now limit
        (replied result) }
{
    shelf.read(alloc, name, limit)
}

// Whether the read gives these bytes, or this fault where there is one.
fn gives<S: Shelf>(
    shelf: &mut S,
    alloc: Global,
    file: (&str, usize),
    bytes: &[u8],
    fault: Option<ShelfFault>,
) -> bool {
    let (name, limit) = file;
    match read_from(shelf, alloc, name, limit) {
        Ok(read) => fault.is_none() && read.as_slice() == bytes,
        Err(why) => fault == Some(why),
    }
}

// So many bytes of all kinds, none like the one before it.
fn mixed(alloc: Global, count: u32) -> Result<Vec<u8>, Fail> {
    let mut bytes = Vec::new(alloc);
    for number in 0..count {
        bytes.push((number % 251) as u8)?;
    }
    Ok(bytes)
}

// Two files, of which one has these bytes.
fn write_files(rt: &HostRuntime, bytes: &[u8]) -> Result<(), Fail> {
    fs::write(rt, "mixed", bytes)?;
    fs::write(rt, "other", b"another file".as_slice())?;
    Ok(())
}

// Whether both files are as they were written, and no read changed the one or the other.
fn are_unchanged(rt: &HostRuntime, bytes: &[u8]) -> Result<bool, Fail> {
    let is_same = fs::read(rt, "mixed")?.as_slice() == bytes;
    Ok(is_same && fs::read(rt, "other")?.as_slice() == b"another file".as_slice())
}

// Files, limits, and the fault of the read.
const READS: [(&str, usize, Option<ShelfFault>); 3] = [
    ("mixed", 70_000, None),
    ("mixed", 69_999, Some(ShelfFault::TooLarge)),
    ("missing", 70_000, Some(ShelfFault::Failed)),
];

// Whether each read is answered so, where the file that is there has these bytes.
fn are_read<S: Shelf>(shelf: &mut S, alloc: Global, bytes: &[u8]) -> bool {
    for (name, limit, fault) in &READS {
        if !gives(shelf, alloc, (*name, *limit), bytes, *fault) {
            return false;
        }
    }
    true
}

#[test]
fn a_real_file_is_read_as_it_stands_up_to_its_limit(rt: HostRuntime) -> Result<(), Fail> {
    let bytes = mixed(rt.alloc(), 70_000)?;
    write_files(&rt, &bytes)?;
    assert!(rt; are_read(&mut FileShelf::new(&rt), rt.alloc(), &bytes));
    assert!(rt; are_unchanged(&rt, &bytes)?);
    fs::remove_file(&rt, "mixed")?;
    fs::remove_file(&rt, "other")?;
    Ok(())
}
