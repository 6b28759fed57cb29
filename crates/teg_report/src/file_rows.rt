//! The texts of due files and logs that are refused, and of recorded runs.
ghost use Rattle.std.specs.Prelude.{◌≡◌, ◌≢◌, ◌++◌, ◌∷◌, [], IfOk, codes, map, string_bytes};
ghost use Rattle.std.specs.Option.{option_copied};
ghost use Rattle.teg_due.specs.declared.rows.DueRefusal.TheVariants.{OutOfMemory as NoDueRoom};
ghost use Rattle.teg_due.specs.declared.rows.LogRefusal.TheVariants.{OutOfMemory as NoLogRoom};
ghost use Rattle.teg_report.specs.FileRows.{IsDueKept, IsFailureIn, IsLogKept, due_line, failure_words, log_line, refused_lines, replayed_lines};
ghost use Rattle.teg_report.specs.Reports.{names_from};
ghost use Rattle.teg_lines.specs.Widths.{IsWord32, IsWord64};
ghost use Rattle.teg_text.specs.Faults.{row_line};
ghost use Rattle.teg_text.specs.Lines.{line_then, phrase, written};

use crate::answer::Failure;
use std::alloc::{AllocError, Global};
use teg_due::{DueRefusal, LogRefusal};
use teg_net::{Net, OutOfMemory};
use teg_text::row_fault;

// Why a file is no due file.
pub(crate) fn due(alloc: Global, refusal: &DueRefusal) -> Result<Vec<u8>, OutOfMemory>
    requires { refusal.now ≢ NoDueRoom }
    ensures text { IfOk result (λ text. text.items ≡ written (due_line refusal.now ∷ [])) }
    ensures kept { IsDueKept refusal.now }
{
    let text = match refusal {
        DueRefusal::BadRow { row } => row_fault(alloc, "due", *row, "is not a due date")?,
        DueRefusal::UnknownTransition { row } => {
            row_fault(alloc, "due", *row, "unknown transition")?
        }
        DueRefusal::NotDue { row } => row_fault(alloc, "due", *row, "input transition")?,
        DueRefusal::RepeatedDue { row } => row_fault(alloc, "due", *row, "repeated")?,
        DueRefusal::OutOfRange { row } => row_fault(alloc, "due", *row, "out of range")?,
        DueRefusal::OutOfMemory => unreachable!(),
    };
    Ok(text.into_bytes())
}

// Why a file is no log.
pub(crate) fn log(alloc: Global, refusal: &LogRefusal) -> Result<Vec<u8>, OutOfMemory>
    requires { refusal.now ≢ NoLogRoom }
    ensures text { IfOk result (λ text. text.items ≡ written (log_line refusal.now ∷ [])) }
    ensures kept { IsLogKept refusal.now }
{
    let text = match refusal {
        LogRefusal::BadRow { row } => row_fault(alloc, "log", *row, "is not a firing")?,
        LogRefusal::UnknownTransition { row } => {
            row_fault(alloc, "log", *row, "unknown transition")?
        }
        LogRefusal::OutOfRange { row } => row_fault(alloc, "log", *row, "out of range")?,
        LogRefusal::OutOfMemory => unreachable!(),
    };
    Ok(text.into_bytes())
}

// Appends lines, each with its line feed.
fn push_lines(text: &mut String, lines: &[String]) -> Result<(), AllocError>
    ensures { IfOk result (λ _. string_bytes text.new ≡
        string_bytes text.old ++ written (map phrase (map string_bytes lines.now))) }
{
    for line in lines {
        text.push_str(line.as_str())?;
        text.push('\n')?;
    }
    Ok(())
}

// How many firings of a log were accepted, and a line of each monitor.
pub(crate) fn replayed(
    alloc: Global,
    accepted: u64,
    lines: &[String],
) -> Result<Vec<u8>, OutOfMemory>
    ensures text { IfOk result (λ text. text.items ≡ written
        (replayed_lines accepted (map string_bytes lines.now))) }
    ensures kept { IsWord64 accepted }
{
    let mut text = format!(in alloc; "replayed {accepted} firings\n")?;
    push_lines(&mut text, lines)?;
    Ok(text.into_bytes())
}

// The line of a row of a log whose firing is refused.
fn failure_at(
    alloc: Global,
    net: Option<&Net>,
    row: u32,
    failure: Failure,
) -> Result<String, AllocError>
    requires { IsFailureIn (option_copied net) failure }
    ensures text { IfOk result (λ text. string_bytes text ≡
        line_then (row_line (codes "log") row
        (failure_words (names_from (option_copied net.entry)) failure)) []) }
    ensures kept { IsWord32 row }
{
    match (failure, net) {
        (Failure::Illegal { place }, Some(net)) => {
            let name = net.places()[place.index as usize].name.as_str();
            format!(in alloc; "refused: log row {row} illegal place {name}\n")
        }
        (Failure::Illegal { .. }, None) => unreachable!(),
        (Failure::BackInTime, _) => row_fault(alloc, "log", row, "back in time"),
        (Failure::BeforeRelease, _) => row_fault(alloc, "log", row, "before release"),
    }
}

// Why a row of a log is refused, and a line of each monitor.
pub(crate) fn refused(
    alloc: Global,
    net: Option<&Net>,
    row: u32,
    failure: Failure,
    lines: &[String],
) -> Result<Vec<u8>, OutOfMemory>
    requires { IsFailureIn (option_copied net) failure }
    ensures text { IfOk result (λ text. text.items ≡
        written (refused_lines (names_from (option_copied net.entry)) row failure
        (map string_bytes lines.now))) }
    ensures kept { IsWord32 row }
{
    let mut text = failure_at(alloc, net, row, failure)?;
    push_lines(&mut text, lines)?;
    Ok(text.into_bytes())
}
