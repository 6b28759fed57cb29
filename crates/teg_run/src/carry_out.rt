//! How a request is carried out: its files are opened one after another, its command answers, and
//! the answer is written.
ghost use Rattle.std.specs.Prelude.{[], ◌∷◌};
ghost use Rattle.teg_outside.specs.Monitors.{lines_by};
ghost use Rattle.teg_files.specs.CallMeanings.{ended};
ghost use Rattle.teg_files.specs.Openings.{OpensNet};
ghost use Rattle.teg_request.specs.Requests.{files_of, second_of};
ghost use Rattle.teg_run.specs.WholeCalls.{Serves};
ghost use Rattle.teg_run.specs.Says.{Says, SaysFile, SaysNet, SaysOutcome, SaysSecond};
ghost use Rattle.teg_run.specs.ShownFirings.{AnsweredAndShown, ServesAndShows, Shows, ShowsBoth, ShowsSecond};

use crate::file_commands::{of_files, second_of};
use crate::net_commands::write_answer;
use std::alloc::Global;
use teg_check::LiveNet;
use teg_files::{Ending, Opened, Status, closed, finish, open_bytes, open_net};
use teg_net::Label;
use teg_net_commands::tell_calc;
use teg_outside::{Monitor, Shelf, Sink};
use teg_pace_commands::tell_trial;
use teg_report::Which;
use teg_request::{FileCommand, NetCommand, Request};

// Carries out a command on the net in the file of that name.
fn serve_net<S: Shelf, W: Sink>(
    alloc: Global,
    command: NetCommand,
    net: &str,
    shelf: &mut S,
    out: &mut W,
) -> Status
    ensures { Serves
        (SaysFile OpensNet (λ file. SaysOutcome (SaysNet command file)))
        ((Which.Net, net.now) ∷ [])
        (S.state shelf.old) (S.state shelf.new)
        (W.state out.old) (W.state out.new)
        result }
{
    match open_net(alloc, net, shelf) {
        Opened::Accepted(net) => write_answer(alloc, command, &net, out),
        Opened::Refused(status, text) => finish(out, Ending::Whole { status, text }),
        Opened::Lost => finish(out, Ending::Lost),
    }
}

// A command on a net and a second file, with the name of the second.
#[derive(Drop)]
struct OnSecond {
    command: FileCommand,
    second: Label,
}

// Carries out a command on a live net and its second file.
fn answer_second<S: Shelf>(
    alloc: Global,
    asked: OnSecond,
    net: &LiveNet,
    shelf: &mut S,
    monitors: &mut [Box<dyn Monitor>],
) -> Ending
    ensures { let lines = lines_by line_text monitors.old in AnsweredAndShown
        (SaysSecond asked.command lines net.now)
        (ShowsSecond asked.command net.now lines (lines_by line_text monitors.new))
        ((second_of asked.command, asked.second) ∷ [])
        (S.state shelf.old) (S.state shelf.new)
        (ended result) }
{
    let OnSecond { command, second } = asked;
    match open_bytes(alloc, second_of(&command), second.as_str(), shelf) {
        Opened::Accepted(file) => closed(of_files(alloc, command, net, &file, monitors)),
        Opened::Refused(status, text) => Ending::Whole { status, text },
        Opened::Lost => Ending::Lost,
    }
}

// Carries out a command on the net in the file of that name and on its second file, which is read
// only where the net is accepted and live.
fn answer_files<S: Shelf>(
    alloc: Global,
    asked: OnSecond,
    net: &str,
    shelf: &mut S,
    monitors: &mut [Box<dyn Monitor>],
) -> Ending
    ensures { let lines = lines_by line_text monitors.old in AnsweredAndShown
        (SaysFile OpensNet (SaysSecond asked.command lines))
        (ShowsBoth asked.command lines (lines_by line_text monitors.new))
        ((Which.Net, net.now) ∷ (second_of asked.command, asked.second) ∷ [])
        (S.state shelf.old) (S.state shelf.new)
        (ended result) }
{
    match open_net(alloc, net, shelf) {
        Opened::Accepted(net) => answer_second(alloc, asked, &net, shelf, monitors),
        Opened::Refused(status, text) => Ending::Whole { status, text },
        Opened::Lost => Ending::Lost,
    }
}

/// Carries out a request: finds its answer and writes it. The monitors are shown just the accepted
/// firings of a log, and nothing for another command.
pub fn serve_request<S: Shelf, W: Sink>(
    alloc: Global,
    request: Request,
    shelf: &mut S,
    out: &mut W,
    monitors: &mut [Box<dyn Monitor>],
) -> Status
    ensures { let lines = lines_by line_text monitors.old in ServesAndShows
        (Says request lines)
        (Shows request lines (lines_by line_text monitors.new))
        (files_of request)
        (S.state shelf.old) (S.state shelf.new)
        (W.state out.old) (W.state out.new)
        result }
{
    match request {
        Request::OfNet { command, net } => serve_net(alloc, command, net.as_str(), shelf, out),
        Request::OfFiles {
            command,
            net,
            second,
        } => {
            let asked = OnSecond { command, second };
            let ending = answer_files(alloc, asked, net.as_str(), shelf, monitors);
            finish(out, ending)
        }
        Request::ValueOf { expression } => finish(out, closed(tell_calc(alloc, &expression))),
        Request::TrialOf { machines } => finish(out, closed(tell_trial(alloc, machines))),
    }
}
