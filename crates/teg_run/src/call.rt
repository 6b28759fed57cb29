//! The top call.
ghost use Rattle.std.specs.Prelude.{map, string_bytes};
ghost use Rattle.teg_run.specs.Calls.{call_of};
ghost use Rattle.teg_files.specs.Endings.{EndsWith};
ghost use Rattle.teg_run.specs.WholeCalls.{Runs};
ghost use Rattle.teg_files.specs.CallMeanings.{ended};
ghost use Rattle.teg_request.specs.Requests.{request_of, asked_files};
ghost use Rattle.teg_run.specs.ShownFirings.{ServesAndShows, ShowsAsked, ShowsJust, ShowsTold};
ghost use Rattle.teg_run.specs.Says.{Said, Asked};
ghost use Rattle.teg_files.specs.RefusalTexts.{usage};
ghost use Rattle.teg_outside.specs.Monitors.{lines_by};

use crate::carry_out::serve_request;
use std::alloc::Global;
use teg_files::{Ending, Status, finish};
use teg_outside::{Monitor, Shelf, Sink};
use teg_report::{Answer, report};
use teg_request::read_request;

// The usage, for words that ask for nothing.
fn refuse_words(alloc: Global) -> Ending
    ensures { EndsWith (Said Status.Words usage) (ended result) }
{
    match report(alloc, None, &Answer::Usage) {
        Ok(text) => Ending::Whole {
            status: Status::Words,
            text,
        },
        Err(_) => Ending::Lost,
    }
}

// Carries out what the words ask for.
fn serve_words<S: Shelf, W: Sink>(
    alloc: Global,
    words: &[String],
    shelf: &mut S,
    out: &mut W,
    monitors: &mut [Box<dyn Monitor>],
) -> Status
    ensures { let asked = request_of (map string_bytes words.now) in ServesAndShows
        (Asked asked (lines_by line_text monitors.old))
        (ShowsAsked asked (lines_by line_text monitors.old) (lines_by line_text monitors.new))
        (asked_files asked)
        (S.state shelf.old) (S.state shelf.new)
        (W.state out.old) (W.state out.new)
        result }
{
    match read_request(alloc, words) {
        Ok(Some(request)) => serve_request(alloc, request, shelf, out, monitors),
        Ok(None) => finish(out, refuse_words(alloc)),
        Err(_) => finish(out, Ending::Lost),
    }
}

/// Does what [`workbench`] does, with monitors that are lent to it.
///
/// It promises the same; and the monitors are shown just the firings that a `replay` accepts, in
/// their order, each once, by the same reads that its text tells: those of some first rows where no
/// memory is found for the text, and none for every other command. Where the files are told and no
/// read failed, these are the firings that the told log of the told net accepts (`ShowsTold`).
pub fn serve<S: Shelf, W: Sink>(
    alloc: Global,
    words: &[String],
    shelf: &mut S,
    out: &mut W,
    monitors: &mut [Box<dyn Monitor>],
) -> Status
    ensures runs { Runs (call_of (map string_bytes words.now) (lines_by line_text monitors.old)
        (S.state shelf.old) (S.state shelf.new) (W.state out.old) (W.state out.new) result) }
    ensures shown { ShowsJust
        (call_of (map string_bytes words.now) (lines_by line_text monitors.old)
        (S.state shelf.old) (S.state shelf.new) (W.state out.old) (W.state out.new) result)
        (lines_by line_text monitors.new) }
    ensures told { ShowsTold
        (call_of (map string_bytes words.now) (lines_by line_text monitors.old)
        (S.state shelf.old) (S.state shelf.new) (W.state out.old) (W.state out.new) result)
        (lines_by line_text monitors.new) }
{
    serve_words(alloc, words, shelf, out, monitors)
}

/// Does all that the program does: reads the words, reads the files that they name, and writes one
/// answer.
///
/// `words` are those after the name of the program. Each file is read at most once, with a limit of
/// 4,194,304 bytes, and no name is read that the words do not give. The text of the answer is whole
/// before its first byte is written, but for a list of dates: its rows are written as they are
/// made, in room that is found before. So nothing is written where no memory is found. `monitors`
/// see the firings of a replay; they are dropped when the call returns.
///
/// What it promises is `Runs`, at the end of `specs/WholeCalls.antt`: what the words ask for, what
/// the reads gave and what answer they lead to, and how that answer was written. What follows of
/// every such call the law [`runs_keep_promises`] says, promise by promise.
///
/// [`runs_keep_promises`]: crate::runs_keep_promises
pub fn workbench<S: Shelf, W: Sink>(
    alloc: Global,
    words: &[String],
    shelf: &mut S,
    out: &mut W,
    monitors: Vec<Box<dyn Monitor>>,
) -> Status
    ensures { Runs (call_of (map string_bytes words.now) (lines_by line_text monitors.items)
        (S.state shelf.old) (S.state shelf.new) (W.state out.old) (W.state out.new) result) }
{
    let mut monitors = monitors;
    serve(alloc, words, shelf, out, &mut monitors)
}
