//! Reads and writes that fail, each in turn.
ghost use Rattle.std.specs.Prelude.{◌<◌};

use crate::bench::{Bench, Case, Room, is_answered};
use crate::nets::{DEAD_LOOP, LOOP};
use std::alloc::Global;
use std::test::Fail;
use teg_run::Status;

const LOG: &str = "a,0\nb,3\na,5\n";

const NO_NET: &str = "fault: cannot read the net\n";

const NO_LOG: &str = "fault: cannot read the log\n";

const REPLAY: &[&str] = &["replay", "net", "second"];

const REPLAYED: &str = "replayed 3 firings\n";

// Which read of a call fails, and what it then comes to.
const READS: [(u64, Case<'static>); 5] = [
    (1, (&["check", "net"], LOOP, LOG, Status::ReadFault, NO_NET)),
    (
        1,
        (&["list", "net", "3"], LOOP, LOG, Status::ReadFault, NO_NET),
    ),
    (
        1,
        (
            &["jit", "net", "second"],
            LOOP,
            LOG,
            Status::ReadFault,
            NO_NET,
        ),
    ),
    (2, (REPLAY, LOOP, LOG, Status::ReadFault, NO_LOG)),
    (3, (REPLAY, LOOP, LOG, Status::Done, REPLAYED)),
];

// A text of each kind that is whole before its first byte is written: an answer, a refusal, a
// fault.
const WHOLE: [Case<'static>; 3] = [
    (REPLAY, LOOP, LOG, Status::Done, REPLAYED),
    (
        &["check", "net"],
        DEAD_LOOP,
        LOG,
        Status::Net,
        "refused: token-free circuit ab ba\n",
    ),
    (&["check", "other"], LOOP, LOG, Status::ReadFault, NO_NET),
];

// A text that is written as it is made: its head, then its rows.
const LISTED: Case<'static> = (
    &["list", "net", "3"],
    LOOP,
    LOG,
    Status::Done,
    "dates of 3 firings\ntransition a b\n1 0 3\n2 5 8\n3 10 13\n",
);

#[test]
fn each_read_may_fail(rt: HostRuntime) -> Result<(), Fail> {
    for (failing, case) in &READS {
        assert!(rt; is_answered(rt.alloc(), case, *failing)?);
    }
    Ok(())
}

// Whether what was written are the first bytes of the text, as many as there is room for.
fn is_beginning(written: &[u8], text: &[u8], room: usize) -> bool {
    written.len() == room.min(text.len()) && text.starts_with(written)
}

// Whether the call ends so, and what it writes are the first bytes of the text, as many as there is
// room for.
fn ends_so(alloc: Global, bench: &mut Bench, status: Status, text: &str, room: usize) -> bool {
    let is_ended = bench.run(alloc, Vec::new(alloc)) == status;
    is_ended && is_beginning(bench.written(), text.as_bytes(), room)
}

// Whether a call into this sink, which takes so many bytes in all, writes just these first bytes of
// its text, and ends with WriteFault where they are not the whole.
fn is_cut(alloc: Global, whole: &Case<'static>, into: Room<'_>, room: usize) -> Result<bool, Fail>
    requires { 0 < into.0 }
{
    let (words, net, second, status, text) = *whole;
    let files = (net.as_bytes(), second.as_bytes());
    let is_whole = text.len() <= room;
    let wanted = if is_whole { status } else { Status::WriteFault };
    let mut bench = Bench::new(alloc, words, files, &[], into)?;
    Ok(ends_so(alloc, &mut bench, wanted, text, room))
}

// Whether calls into sinks of so many bytes a call are cut at the call that fails, each in turn.
fn are_cut(alloc: Global, whole: &Case<'static>, size: usize) -> Result<bool, Fail>
    requires { 0 < size }
{
    for failing in 0..40u64 {
        let room = size.saturating_mul(failing as usize);
        if !is_cut(alloc, whole, (size, 65_536, &[failing + 1]), room)? {
            return Ok(false);
        }
    }
    Ok(true)
}

#[test]
fn each_write_may_fail_and_room_may_end_anywhere(rt: HostRuntime) -> Result<(), Fail> {
    for whole in &WHOLE {
        assert!(rt; are_cut(rt.alloc(), whole, 1)? && are_cut(rt.alloc(), whole, 5)?);
    }
    for room in 0..70usize {
        assert!(rt;
            is_cut(rt.alloc(), &LISTED, (7, room, &[]), room)?,
            "{room} bytes"
        );
    }
    Ok(())
}
