//! Monitors that are handed in: each is dropped once, whatever the words and the files, and sees
//! just the firings that a replay accepts; and those that are lent have seen them.
ghost use Rattle.std.specs.Prelude.{codes};

use crate::bench::{Bench, WIDE};
use crate::nets::{DEAD_LOOP, LOOP};
use std::alloc::Global;
use std::cell::Cell;
use std::rc::Rc;
use std::test::Fail;
use teg_outside::{Firing, FiringCount, Monitor, OutOfMemory};
use teg_run::Status;

// Adds to the shared count 1 when it is dropped, and 1,000 for each firing that it sees.
struct Counter {
    count: Rc<Cell<u32>>,
}

impl Drop for Counter {
    fn drop(self) {
        self.count.set(self.count.get().saturating_add(1));
        let Counter { count: _ } = self;
    }
}

impl Monitor for Counter {
    ghost line_text = { λ m firings. codes "counted" };

    fn see(&mut self, _firing: Firing) {
        self.count.set(self.count.get().saturating_add(1000));
    }

    fn line(&self, alloc: Global) -> Result<String, OutOfMemory> {
        Ok(String::from_str(alloc, "counted")?)
    }
}

// The most bytes of a file.
const MOST_BYTES: usize = 4_194_304;

const LOG: &str = "a,0\nb,3\na,5\n";

// The words of each command.
const COMMANDS: [&[&str]; 18] = [
    &["check", "net"],
    &["list", "net", "3"],
    &["form", "net"],
    &["cycle", "net"],
    &["dates", "net"],
    &["date", "net", "a", "3"],
    &["jit", "net", "second"],
    &["calc", "e"],
    &["slack", "net"],
    &["transfer", "net"],
    &["trial", "1"],
    &["migrate", "net"],
    &["forever", "net", "second"],
    &["size", "net", "ba", "3/1"],
    &["timetable", "net", "6", "second"],
    &["bound", "net"],
    &["replay", "net", "second"],
    &["check"],
];

// A monitor that adds to the count.
fn counter_of(alloc: Global, count: &Rc<Cell<u32>>) -> Result<Vec<Box<dyn Monitor>>, Fail> {
    let counter = Counter {
        count: count.clone()?,
    };
    let mut monitors: Vec<Box<dyn Monitor>> = Vec::new(alloc);
    monitors.push(Box::new(alloc, counter)?)?;
    Ok(monitors)
}

// The count after the call with a monitor that adds to it.
fn count_after(alloc: Global, bench: &mut Bench, count: &Rc<Cell<u32>>) -> Result<u32, Fail> {
    let monitors = counter_of(alloc, count)?;
    let _ending = bench.run(alloc, monitors);
    Ok(count.get())
}

// The same from 0 on.
fn counted_from_zero(alloc: Global, bench: &mut Bench) -> Result<u32, Fail> {
    let count = Rc::new(alloc, Cell::new(0u32))?;
    count_after(alloc, bench, &count)
}

// The same of a call with these words on these files, of which this read fails.
fn counted(
    alloc: Global,
    words: &[&str],
    files: (&[u8], &[u8]),
    failing: u64,
) -> Result<u32, Fail> {
    let mut bench = Bench::new(alloc, words, files, &[failing], WIDE)?;
    counted_from_zero(alloc, &mut bench)
}

// Whether each command on these files leaves the count at 1, but for a replay.
fn are_counted(
    alloc: Global,
    files: (&[u8], &[u8]),
    failing: u64,
    replayed: u32,
) -> Result<bool, Fail> {
    for words in COMMANDS {
        let is_replay = words.contains(&"replay");
        let wanted = if is_replay { replayed } else { 1 };
        if counted(alloc, words, files, failing)? != wanted {
            return Ok(false);
        }
    }
    Ok(true)
}

// A net, a second file, which read fails, and the count after a replay.
const FILES: [(&str, &str, u64, u32); 10] = [
    (LOOP, "", 0, 1),
    (LOOP, LOG, 0, 3001),
    // a log with a faulty row, one with a row too early
    (LOOP, "a,0\nb,3\nc,5\n", 0, 1),
    (LOOP, "a,0\nb,3\na,4\n", 0, 2001),
    // a net that is no TOML, no net, not live
    ("[[", LOG, 0, 1),
    ("", LOG, 0, 1),
    (DEAD_LOOP, LOG, 0, 1),
    // a read that fails: the first, the second, and one that does not come
    (LOOP, LOG, 1, 1),
    (LOOP, LOG, 2, 1),
    (LOOP, LOG, 3, 3001),
];

// Whether the monitors are dropped once, and see nothing, where the net or the log is this.
fn are_counted_with(alloc: Global, long: &[u8]) -> Result<bool, Fail> {
    Ok(
        are_counted(alloc, (LOOP.as_bytes(), long), 0, 1)?
            && are_counted(alloc, (long, LOG.as_bytes()), 0, 1)?,
    )
}

// The same where it is too long.
fn are_long_files_counted(alloc: Global) -> Result<bool, Fail> {
    let long = vec![in alloc; b'#'; MOST_BYTES + 1]?;
    are_counted_with(alloc, &long)
}

#[test]
fn monitors_are_dropped_once_and_see_what_is_accepted(rt: HostRuntime) -> Result<(), Fail> {
    for (net, second, failing, replayed) in &FILES {
        let files = (net.as_bytes(), second.as_bytes());
        let are_counted = are_counted(rt.alloc(), files, *failing, *replayed)?;
        assert!(rt; are_counted, "{net} {second} {failing}");
    }
    assert!(rt; are_long_files_counted(rt.alloc())?);
    Ok(())
}

// Whether a replay whose third firing comes too early is refused, and the monitors that were lent to
// it have seen the two before.
fn have_seen(
    alloc: Global,
    bench: &mut Bench,
    monitors: &mut [Box<dyn Monitor>],
) -> Result<bool, Fail> {
    if bench.serve(alloc, monitors) != Status::Log {
        return Ok(false);
    }
    for monitor in monitors.iter() {
        if monitor.line(alloc)?.as_str() != "firings 2" {
            return Ok(false);
        }
    }
    Ok(true)
}

// The same of a monitor that counts firings.
fn has_seen(alloc: Global, bench: &mut Bench) -> Result<bool, Fail> {
    let mut monitors: Vec<Box<dyn Monitor>> = Vec::new(alloc);
    monitors.push(Box::new(alloc, FiringCount::new())?)?;
    have_seen(alloc, bench, &mut monitors)
}

// The same of a bench of its own.
fn are_lent(alloc: Global) -> Result<bool, Fail> {
    let files = (LOOP.as_bytes(), b"a,0\nb,3\na,4\n".as_slice());
    let mut bench = Bench::new(alloc, &["replay", "net", "second"], files, &[], WIDE)?;
    has_seen(alloc, &mut bench)
}

#[test]
fn monitors_are_lent(rt: HostRuntime) -> Result<(), Fail> {
    assert!(rt; are_lent(rt.alloc())?);
    Ok(())
}
