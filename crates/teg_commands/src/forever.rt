//! The latest inputs of a live net by which due dates without end are met.
ghost use Rattle.std.specs.Prelude.{◌≡◌, ◌≤◌, IfNone, IfSome, length};
ghost use Rattle.teg_report.specs.csv_records.Records.{most_file_bytes};
ghost use Rattle.endless_due.specs.EndlessRows.{IsEndlessOf};
ghost use Rattle.teg_commands.specs.Forever.{EndsUnreleased, SaysEndless, SaysForever, SaysUnreleased};
ghost use Rattle.teg_outcome.specs.CommandOutcomes.{Tells, TellsWhy, outcome_of};
ghost use Rattle.teg_forever.specs.EndlessTexts.{Faulty, IsFaultTold, answer_lines};
ghost use Rattle.teg_forever.specs.LatestReleases.{ForeverRefused};

use std::alloc::Global;
use teg_check::LiveNet;
use teg_forever::{
    EndlessRefusal, EndlessRow, ForeverRefusal, endless_refusal_text, forever,
    forever_refusal_text, read_endless, releases_text,
};
use teg_net::OutOfMemory;
use teg_outcome::{CommandOutcome, Verdict};

// Why a file says no endless due dates.
fn refuse_endless(
    alloc: Global,
    net: &LiveNet,
    fault: &EndlessRefusal,
) -> Result<CommandOutcome, OutOfMemory>
    ensures { Tells (TellsWhy (λ f. answer_lines net.now (Faulty f)) IsFaultTold EndlessRefusal.OutOfMemory Verdict.Schedule fault.now) (outcome_of result) }
{
    match fault {
        EndlessRefusal::OutOfMemory => Err(OutOfMemory),
        EndlessRefusal::BadRow { .. }
        | EndlessRefusal::UnknownTransition { .. }
        | EndlessRefusal::NotDue { .. }
        | EndlessRefusal::RepeatedDue { .. }
        | EndlessRefusal::OutOfRange { .. }
        | EndlessRefusal::Falls { .. } => {
            let text = endless_refusal_text(alloc, fault)?;
            Ok(CommandOutcome::told(Verdict::Schedule, text))
        }
    }
}

// How a command ends whose releases are not told; none for want of memory.
fn verdict_of(refusal: &ForeverRefusal) -> Option<Verdict>
    ensures told { IfSome result (EndsUnreleased refusal.now) }
    ensures memory { IfNone result (refusal.now ≡ ForeverRefusal.OutOfMemory) }
{
    match refusal {
        ForeverRefusal::Late { .. } => Some(Verdict::Late),
        ForeverRefusal::TooLong { .. } => Some(Verdict::TooLong),
        ForeverRefusal::TooWide { .. } => Some(Verdict::TooLong),
        ForeverRefusal::OutOfMemory => None,
    }
}

// Why the releases are not told.
fn tell_unreleased(
    alloc: Global,
    net: &LiveNet,
    rows: &[EndlessRow],
    refusal: &ForeverRefusal,
) -> Result<CommandOutcome, OutOfMemory>
    requires rows { IsEndlessOf net.now rows.now }
    requires refused { ForeverRefused net.now rows.now refusal.now }
    ensures { Tells (SaysUnreleased net.now rows.now) (outcome_of result) }
{
    let Some(verdict) = verdict_of(refusal) else {
        return Err(OutOfMemory);
    };
    let text = forever_refusal_text(alloc, net.net(), refusal)?;
    Ok(CommandOutcome::told(verdict, text))
}

// The latest releases for endless due dates that were read, or why they are not told.
fn tell_endless(
    alloc: Global,
    net: &LiveNet,
    rows: &[EndlessRow],
) -> Result<CommandOutcome, OutOfMemory>
    requires { IsEndlessOf net.now rows.now }
    ensures { Tells (SaysEndless net.now rows.now) (outcome_of result) }
{
    match forever(alloc, net.net(), net.live(), rows) {
        Ok(releases) => {
            let text = releases_text(alloc, net.net(), &releases)?;
            Ok(CommandOutcome::told(Verdict::Done, text))
        }
        Err(refusal) => tell_unreleased(alloc, net, rows, &refusal),
    }
}

/// The latest inputs of a live net by which the dates of a file of due dates without end are met,
/// as a series for each input (chapter 5); or the first row that comes late whatever the inputs
/// are, with its least late number; or the first input whose series are too long; or the first
/// faulty row of the file. It takes the time of the search for the settled forms of the dates and
/// of the times from each input.
pub fn tell_forever(
    alloc: Global,
    net: &LiveNet,
    bytes: &[u8],
) -> Result<CommandOutcome, OutOfMemory>
    requires { length bytes.now ≤ most_file_bytes }
    ensures { Tells (SaysForever net.now bytes.now) (outcome_of result) }
{
    match read_endless(alloc, net.net(), bytes) {
        Ok(rows) => tell_endless(alloc, net, rows.as_slice()),
        Err(fault) => refuse_endless(alloc, net, &fault),
    }
}
