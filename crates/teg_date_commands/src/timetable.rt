//! How the delays of a timetable spread through a live net.
ghost use Rattle.std.specs.Prelude.{◌≡◌, ◌≤◌, IfNone, IfSome, length};
ghost use Rattle.teg_report.specs.csv_records.Records.{most_file_bytes};
ghost use Rattle.teg_timetable.specs.delay_laws.PlannedTimetables.{IsTableOf};
ghost use Rattle.teg_outcome.specs.CommandOutcomes.{Tells, outcome_of};
ghost use Rattle.teg_date_commands.specs.Timetable.{EndsUnspread, SaysDelays, SaysTimetable, TellsBadTable, TellsUnspread};
ghost use Rattle.teg_settle.specs.LimitRefusals.{greatest_limit};
ghost use Rattle.teg_timetable.specs.DelayAnswers.{IsDelayRefusalIn};
ghost use Rattle.teg_timetable.specs.release_nets.PlannedNets.{greatest_period};
ghost use Rattle.teg_timetable.specs.timetable_files.TimetableFiles.{IsTableRefusalIn};

use crate::limits::most_of;
use std::alloc::Global;
use teg_check::LiveNet;
use teg_net::OutOfMemory;
use teg_outcome::{CommandOutcome, Limit, Period, Verdict};
use teg_timetable::{
    DelayRefusal, TableRefusal, Timetable, delay_refusal_text, read_timetable, spread, spread_text,
    table_refusal_text,
};

// Why a file says no timetable.
fn refuse_table(
    alloc: Global,
    net: &LiveNet,
    fault: &TableRefusal,
) -> Result<CommandOutcome, OutOfMemory>
    requires { IsTableRefusalIn net.now fault.now }
    ensures { Tells (TellsBadTable net.now fault.now) (outcome_of result) }
{
    let text = table_refusal_text(alloc, net.net(), fault)?;
    Ok(CommandOutcome::told(Verdict::Schedule, text))
}

// How a command ends that does not say how delays spread; none for want of memory.
fn verdict_of(refusal: &DelayRefusal) -> Option<Verdict>
    ensures told { IfSome result (EndsUnspread refusal.now) }
    ensures memory { IfNone result (refusal.now ≡ DelayRefusal.OutOfMemory) }
{
    match refusal {
        DelayRefusal::TooLarge { .. } => Some(Verdict::Schedule),
        DelayRefusal::Unworkable { .. } => Some(Verdict::Schedule),
        DelayRefusal::TooLong { .. } => Some(Verdict::TooLong),
        DelayRefusal::OutOfMemory => None,
    }
}

// Why it is not told how the delays of a timetable spread.
fn tell_unspread(
    alloc: Global,
    net: &LiveNet,
    refusal: &DelayRefusal,
) -> Result<CommandOutcome, OutOfMemory>
    requires { IsDelayRefusalIn net.now refusal.now }
    ensures { Tells (TellsUnspread net.now refusal.now) (outcome_of result) }
{
    let Some(verdict) = verdict_of(refusal) else {
        return Err(OutOfMemory);
    };
    let text = delay_refusal_text(alloc, net.net(), refusal)?;
    Ok(CommandOutcome::told(verdict, text))
}

// How the delays of a timetable that was read spread, or why not.
fn tell_delays(
    alloc: Global,
    net: &LiveNet,
    period: u64,
    table: &Timetable,
    limit: Option<u32>,
) -> Result<CommandOutcome, OutOfMemory>
    requires some { 1 ≤ period }
    requires period { period ≤ greatest_period }
    requires table { IsTableOf net.now table.now }
    requires limit { IfSome limit (λ most. most ≤ greatest_limit) }
    ensures { Tells (SaysDelays period limit net.now table.now) (outcome_of result) }
{
    match spread(alloc, net.net(), net.live(), period, table, limit) {
        Ok(delayed) => {
            let text = spread_text(alloc, net.net(), &delayed)?;
            Ok(CommandOutcome::told(Verdict::Done, text))
        }
        Err(refusal) => tell_unspread(alloc, net, &refusal),
    }
}

/// How the delays of the timetable in a file spread through a live net that departs again every
/// period: the delays left of each transition, and whether they die out or a circuit keeps them
/// (chapters 2 and 3); or that the net is too large for it, that the timetable does not leave a
/// place its time, or that the settled form is longer than the limit, where one is given; or the
/// first fault of the file. It takes the time of the search for the settled form of the delayed
/// dates.
pub fn tell_timetable(
    alloc: Global,
    net: &LiveNet,
    period: Period,
    bytes: &[u8],
    limit: Option<Limit>,
) -> Result<CommandOutcome, OutOfMemory>
    requires { length bytes.now ≤ most_file_bytes }
    ensures { Tells (SaysTimetable period limit net.now bytes.now) (outcome_of result) }
{
    let period = period.get();
    let limit = most_of(limit);
    match read_timetable(alloc, net.net(), bytes) {
        Ok(table) => tell_delays(alloc, net, period, &table, limit),
        Err(fault) => refuse_table(alloc, net, &fault),
    }
}
