//! Recorded runs: a log that is replayed, and the lines of the monitors.
ghost use Rattle.std.specs.Prelude.{◌≡◌, ◌≤◌, ◌++◌, Some, ◌∷◌, [], All, IfOk, IfSome, is_ok, length, map, string_bytes};
ghost use Rattle.teg_outside.specs.Monitors.{IsOneLine, lines_by};
ghost use Rattle.teg_outcome.specs.CommandOutcomes.{Tells, TellsWhy, outcome_of};
ghost use Rattle.teg_report.specs.csv_records.Records.{most_file_bytes};
ghost use Rattle.teg_plan_commands.specs.Replay.{CanTellRefusal, IsToldAs, SaysEnd, SaysReplay, SaysRun, ShowsReplay, ShowsRun};
ghost use Rattle.teg_due.specs.RowRules.{IsLogOf};
ghost use Rattle.teg_report.specs.FileRows.{IsFailureIn, IsLogKept, log_line};

use std::alloc::Global;
use teg_check::LiveNet;
use teg_due::{LogRefusal, LogRow, read_log};
use teg_net::OutOfMemory;
use teg_outcome::{CommandOutcome, Verdict};
use teg_outside::Monitor;
use teg_replay::{FireRefusal, Replayed, replay};
use teg_report::{Answer, Failure, report};

// Why a log says no firings.
fn refuse_log(alloc: Global, refusal: &LogRefusal) -> Result<CommandOutcome, OutOfMemory>
    ensures { Tells (TellsWhy (λ r. log_line r ∷ []) IsLogKept LogRefusal.OutOfMemory Verdict.Log refusal.now) (outcome_of result) }
{
    match refusal {
        LogRefusal::OutOfMemory => Err(OutOfMemory),
        LogRefusal::BadRow { .. }
        | LogRefusal::UnknownTransition { .. }
        | LogRefusal::OutOfRange { .. } => {
            let text = report(alloc, None, &Answer::Log { refusal })?;
            let verdict = Verdict::Log;
            Ok(CommandOutcome { verdict, text })
        }
    }
}

// The line of a monitor.
fn line_of(alloc: Global, monitor: &Box<dyn Monitor>) -> Result<String, OutOfMemory>
    ensures text { IfOk result (λ line. string_bytes line ≡ line_text monitor.now []) }
    ensures one_line { IfOk result (λ line. IsOneLine (string_bytes line)) }
{
    match monitor.line(alloc) {
        Ok(line) => Ok(line),
        Err(_) => Err(OutOfMemory),
    }
}

// Puts a line at the end of the list.
fn keep(lines: &mut Vec<String>, line: String) -> Result<(), OutOfMemory>
    ensures { IfOk result (λ _. lines.new.items ≡ lines.old.items ++ line ∷ []) }
{
    match lines.push(line) {
        Ok(()) => Ok(()),
        Err(_) => Err(OutOfMemory),
    }
}

// The line of each monitor, in order.
fn lines_of(alloc: Global, monitors: &[Box<dyn Monitor>]) -> Result<Vec<String>, OutOfMemory>
    ensures text { IfOk result (λ lines. map string_bytes lines.items
        ≡ lines_by line_text monitors.now []) }
    ensures one_line { IfOk result (λ lines. All IsOneLine (map string_bytes lines.items)) }
{
    let mut lines = Vec::new(alloc);
    for monitor in monitors {
        let line = line_of(alloc, monitor)?;
        keep(&mut lines, line)?;
    }
    Ok(lines)
}

// Why a firing was refused, as it is told.
fn failure_of(net: &LiveNet, why: &FireRefusal) -> Failure
    requires { CanTellRefusal net.now why.now }
    ensures told { IsToldAs why.now result }
    ensures about { IsFailureIn (Some net.now) result }
{
    match why {
        FireRefusal::Illegal { place, .. } => Failure::Illegal { place: *place },
        FireRefusal::BackInTime { .. } => Failure::BackInTime,
        FireRefusal::BeforeRelease { .. } => Failure::BeforeRelease,
        FireRefusal::OutOfMemory => unreachable!(),
    }
}

// What came of the replay of a log, with the lines of the monitors.
fn tell_end(
    alloc: Global,
    net: &LiveNet,
    replayed: &Replayed,
    lines: &[String],
) -> Result<CommandOutcome, OutOfMemory>
    requires named { IfSome replayed.now.refused (λ refused. CanTellRefusal net.now refused.why) }
    requires one_line { All IsOneLine (map string_bytes lines.now) }
    ensures { Tells (SaysEnd net.now replayed.now.refused replayed.now.accepted
        (map string_bytes lines.now)) (outcome_of result) }
{
    match &replayed.refused {
        None => {
            let accepted = replayed.accepted;
            let text = report(alloc, None, &Answer::Replayed { accepted, lines })?;
            let verdict = Verdict::Done;
            Ok(CommandOutcome { verdict, text })
        }
        Some(refused) => {
            let answer = Answer::Refused {
                row: refused.row,
                failure: failure_of(net, &refused.why),
                lines,
            };
            let text = report(alloc, Some(net.net()), &answer)?;
            let verdict = Verdict::Log;
            Ok(CommandOutcome { verdict, text })
        }
    }
}

// What came of the replay of a log, with the lines of monitors that saw it.
fn tell_seen(
    alloc: Global,
    net: &LiveNet,
    replayed: &Replayed,
    monitors: &[Box<dyn Monitor>],
) -> Result<CommandOutcome, OutOfMemory>
    requires { IfSome replayed.now.refused (λ refused. CanTellRefusal net.now refused.why) }
    ensures { Tells (SaysEnd net.now replayed.now.refused replayed.now.accepted
        (lines_by line_text monitors.now [])) (outcome_of result) }
{
    let lines = lines_of(alloc, monitors)?;
    tell_end(alloc, net, replayed, lines.as_slice())
}

// How the rows of a log are replayed, which the monitors see.
fn tell_run(
    alloc: Global,
    net: &LiveNet,
    rows: &[LogRow],
    monitors: &mut [Box<dyn Monitor>],
) -> Result<CommandOutcome, OutOfMemory>
    requires few { length rows.now ≤ most_file_bytes }
    requires rows { IsLogOf net.now rows.now }
    ensures says { Tells (SaysRun (lines_by line_text monitors.old) net.now rows.now)
        (outcome_of result) }
    ensures shown { ShowsRun net.now rows.now (lines_by line_text monitors.old)
        (lines_by line_text monitors.new) (is_ok result) }
{
    match replay(alloc, net.net(), rows, monitors) {
        Ok(replayed) => tell_seen(alloc, net, &replayed, monitors),
        Err(_) => Err(OutOfMemory),
    }
}

/// How the log of a recorded run is replayed on a live net by the token game (chapter 2): how many
/// firings it has, or its first faulty row, or the first row that the net does not allow. After a
/// replay the line of each monitor follows. The monitors are shown just the accepted firings, in
/// order, each once, those of some first rows where no memory is found. It takes time of the order
/// of the log and, for each row, of the places into its transition.
pub fn tell_replay(
    alloc: Global,
    net: &LiveNet,
    bytes: &[u8],
    monitors: &mut [Box<dyn Monitor>],
) -> Result<CommandOutcome, OutOfMemory>
    requires { length bytes.now ≤ most_file_bytes }
    ensures says { Tells (SaysReplay (lines_by line_text monitors.old) net.now bytes.now)
        (outcome_of result) }
    ensures shown { ShowsReplay net.now bytes.now (lines_by line_text monitors.old)
        (lines_by line_text monitors.new) (is_ok result) }
{
    match read_log(alloc, net.net(), bytes) {
        Ok(rows) => tell_run(alloc, net, rows.as_slice(), monitors),
        Err(refusal) => refuse_log(alloc, &refusal),
    }
}
