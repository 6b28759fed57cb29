//! The call of the program: the workbench with the program's monitors, as an exit status.
ghost use Rattle.std.specs.Prelude.{◌≡◌, ◌∷◌, ◌++◌, [], IfErr, IfOk, map, string_bytes};
ghost use Rattle.std.specs.Process.{exit_status};
ghost use Rattle.teg_run.specs.Calls.{call_of, program_lines};
ghost use Rattle.teg_run.specs.WholeCalls.{Runs};
ghost use Rattle.teg_files.specs.Statuses.{code_of};
ghost use Rattle.teg_files.specs.declared.status.Status.{Status};

use crate::call::workbench;
use std::alloc::{AllocError, Global};
use std::process::ExitCode;
use teg_files::Status;
use teg_outside::{FiringCount, HighWater, Lateness, Monitor, Shelf, Sink};

// Appends a monitor.
fn keep(monitors: &mut Vec<Box<dyn Monitor>>, monitor: Box<dyn Monitor>) -> Result<(), AllocError>
    ensures { IfOk result (λ _. monitors.new.items ≡ monitors.old.items ++ monitor ∷ []) }
{
    monitors.push(monitor)?;
    Ok(())
}

// The call with the three monitors, where they find memory.
fn watched<S: Shelf, W: Sink>(
    alloc: Global,
    words: &[String],
    shelf: &mut S,
    out: &mut W,
) -> Result<Status, AllocError>
    ensures runs { IfOk result (λ status. Runs (call_of (map string_bytes words.now) program_lines
        (S.state shelf.old) (S.state shelf.new) (W.state out.old) (W.state out.new) status)) }
    ensures unread { IfErr result (λ _. S.state shelf.new ≡ S.state shelf.old) }
    ensures unwritten { IfErr result (λ _. W.state out.new ≡ W.state out.old) }
{
    let mut monitors: Vec<Box<dyn Monitor>> = Vec::new(alloc);
    keep(&mut monitors, Box::new(alloc, FiringCount::new())?)?;
    keep(&mut monitors, Box::new(alloc, HighWater::new())?)?;
    keep(&mut monitors, Box::new(alloc, Lateness::new())?)?;
    Ok(workbench(alloc, words, shelf, out, monitors))
}

/// One call of the workbench with the monitors of the program, as its exit status.
///
/// The lines of the monitors tell the number of firings, the greatest number of tokens and the
/// greatest lateness, in this order. The exit status is the code of the status with which the call
/// runs. Where the monitors find no memory, nothing is read and nothing written.
pub fn run_watched<S: Shelf, W: Sink>(
    alloc: Global,
    words: &[String],
    shelf: &mut S,
    out: &mut W,
) -> ExitCode
    ensures { (status : Status)
        × Runs (call_of (map string_bytes words.now) program_lines
        (S.state shelf.old) (S.state shelf.new) (W.state out.old) (W.state out.new) status)
        × (exit_status result ≡ code_of status) }
{
    match watched(alloc, words, shelf, out) {
        Ok(status) => ExitCode::from(status.code()),
        Err(_) => ExitCode::from(Status::NoMemory.code()),
    }
}
