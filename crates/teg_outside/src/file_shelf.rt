//! The real files.
ghost use Rattle.std.specs.Prelude.{◌≡◌, ◌≤◌, ◌<◌, Err, length, vec_len, IfOk, IfSome};
ghost use Rattle.teg_outside.specs.declared.shelf.ShelfFault.TheVariants.{TooLarge};
ghost use Rattle.teg_outside.specs.Shelves.{CountsFault, ReadAnswers, counting_shelf, replied};

use crate::{Shelf, ShelfFault};
use std::alloc::Global;
use std::fs;
use std::io::Read;
use std::rt::Files;

// How many bytes one call of std reads at most.
const PIECE: usize = 4096;

/// The files of the runtime that it is lent: the trusted edge.
///
/// A file is read in pieces, until its end or until more than `limit` bytes came. It tells nothing.
#[derive(Drop)]
pub struct FileShelf<'a, R: Files> {
    rt: &'a R,
    faults: u64,
    overlong: u64,
}

impl<'a, R: Files> FileShelf<'a, R> {
    /// A shelf of the runtime's files, with both counts at 0. No memory is taken.
    pub fn new(rt: &'a R) -> Self
        ensures { ⟦<FileShelf<'a, R> as Shelf>⟧.state result ≡ counting_shelf 0 0 }
    {
        FileShelf {
            rt,
            faults: 0,
            overlong: 0,
        }
    }
}

// Reads to the end, or until more than `limit` bytes came. Where the bytes that are left are known,
// the answer is all of them, or they are more than the limit.
fn read_up_to<F: Read>(alloc: Global, file: &mut F, limit: usize) -> Result<Vec<u8>, ShelfFault>
    ensures within { IfOk result (λ bytes. vec_len bytes ≤ limit) }
    ensures whole { IfOk result (λ bytes. IfSome (F.remaining file.old)
        (λ left. bytes.items ≡ left)) }
    ensures long { result ≡ Err TooLarge → IfSome (F.remaining file.old)
        (λ left. limit < length left) }
{
    let mut bytes = Vec::new(alloc);
    let mut piece = [0u8; PIECE];
    loop {
        let Ok(count) = file.read(&mut piece) else {
            return Err(ShelfFault::Failed);
        };
        if count == 0 {
            return Ok(bytes);
        }
        if count > limit - bytes.len() {
            return Err(ShelfFault::TooLarge);
        }
        bytes.extend_from_slice(&piece[..count])?;
    }
}

fn read_file<R: Files>(
    rt: &R,
    alloc: Global,
    name: &str,
    limit: usize,
) -> Result<Vec<u8>, ShelfFault>
    ensures { IfOk result (λ bytes. vec_len bytes ≤ limit) }
{
    let Ok(mut file) = fs::open(rt, name) else {
        return Err(ShelfFault::Failed);
    };
    read_up_to(alloc, &mut file, limit)
}

impl<R: Files> Shelf for FileShelf<'_, R> {
    ghost state = { λ s. counting_shelf s.faults s.overlong };

    /// The whole file of that name in the runtime. An error of std answers Failed. Failed and
    /// TooLarge raise their own count by one, and nothing else raises a count.
    fn read(&mut self, alloc: Global, name: &str, limit: usize) -> Result<Vec<u8>, ShelfFault>
        ensures files { (counting_shelf self.new.faults self.new.overlong).files
            ≡ (counting_shelf self.old.faults self.old.overlong).files }
        ensures faults { (counting_shelf self.old.faults self.old.overlong).faults ≤
            (counting_shelf self.new.faults self.new.overlong).faults }
        ensures overlong { (counting_shelf self.old.faults self.old.overlong).overlong ≤
            (counting_shelf self.new.faults self.new.overlong).overlong }
        ensures answer { ReadAnswers (counting_shelf self.old.faults self.old.overlong)
            (counting_shelf self.new.faults self.new.overlong) name.now limit (replied result) }
        ensures counts { CountsFault (counting_shelf self.old.faults self.old.overlong)
            (counting_shelf self.new.faults self.new.overlong) (replied result) }
    {
        let answer = read_file(self.rt, alloc, name, limit);
        match &answer {
            Err(ShelfFault::Failed) => self.faults = self.faults.saturating_add(1),
            Err(ShelfFault::TooLarge) => self.overlong = self.overlong.saturating_add(1),
            _ => {}
        }
        answer
    }
}
