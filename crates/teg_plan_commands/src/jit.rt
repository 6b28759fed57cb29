//! The latest inputs of a live net by which due dates are met.
ghost use Rattle.std.specs.Prelude.{◌≤◌, ◌∷◌, [], length};
ghost use Rattle.teg_report.specs.FileRows.{IsDueKept, due_line};
ghost use Rattle.teg_report.specs.csv_records.Records.{most_file_bytes};
ghost use Rattle.teg_plan_commands.specs.Jit.{SaysJit, SaysLate, SaysLatest};
ghost use Rattle.teg_outcome.specs.CommandOutcomes.{Tells, TellsWhy, outcome_of};
ghost use Rattle.teg_due.specs.RowRules.{IsDueOf};
ghost use Rattle.teg_jit.specs.LateRefusals.{LateIsRight};
ghost use Rattle.teg_net.specs.Circuits.{IsLive};

use due_laws::zero_inputs_meet;
use std::alloc::Global;
use teg_check::LiveNet;
use teg_due::{Due, DueRefusal, read_due};
use teg_jit::{JitRefusal, late_excludes_meet, latest_inputs, plans_lead};
use teg_net::OutOfMemory;
use teg_outcome::{CommandOutcome, Verdict};
use teg_report::{Answer, report};

// Why a due file says no due dates.
fn refuse_due(alloc: Global, refusal: &DueRefusal) -> Result<CommandOutcome, OutOfMemory>
    ensures { Tells (TellsWhy (λ r. due_line r ∷ []) IsDueKept DueRefusal.OutOfMemory Verdict.Schedule refusal.now) (outcome_of result) }
{
    match refusal {
        DueRefusal::OutOfMemory => Err(OutOfMemory),
        DueRefusal::BadRow { .. }
        | DueRefusal::UnknownTransition { .. }
        | DueRefusal::NotDue { .. }
        | DueRefusal::RepeatedDue { .. }
        | DueRefusal::OutOfRange { .. } => {
            let text = report(alloc, None, &Answer::Due { refusal })?;
            let verdict = Verdict::Schedule;
            Ok(CommandOutcome { verdict, text })
        }
    }
}

// That a firing is later than due whatever the inputs are.
fn tell_late(
    alloc: Global,
    net: &LiveNet,
    due: &Due,
    refusal: &JitRefusal,
) -> Result<CommandOutcome, OutOfMemory>
    requires due { IsDueOf net.now due.now.rows.items }
    requires live { IsLive net.now }
    requires late { LateIsRight net.now due.now.rows.items refusal.now }
    ensures { Tells (SaysLate net.now due.now.rows.items) (outcome_of result) }
{
    match refusal {
        JitRefusal::OutOfMemory => Err(OutOfMemory),
        JitRefusal::Late { .. } => {
            // The rules of the net, by which the walk can be told, and that no inputs are better.
            net.net().rules();
            zero_inputs_meet();
            late_excludes_meet();
            let text = report(alloc, Some(net.net()), &Answer::Late { refusal })?;
            let verdict = Verdict::Late;
            Ok(CommandOutcome { verdict, text })
        }
    }
}

// The latest dates for a due list that was read.
fn tell_latest(alloc: Global, net: &LiveNet, due: &Due) -> Result<CommandOutcome, OutOfMemory>
    requires { IsDueOf net.now due.now.rows.items }
    ensures { Tells (SaysLatest net.now due.now.rows.items) (outcome_of result) }
{
    match latest_inputs(alloc, net.net(), net.live(), due) {
        Ok(plan) => {
            // The rules of the net, and that the steps of its plans lead to due firings.
            net.net().rules();
            plans_lead();
            let text = report(alloc, Some(net.net()), &Answer::Jit { plan: &plan })?;
            let verdict = Verdict::Done;
            Ok(CommandOutcome { verdict, text })
        }
        Err(refusal) => tell_late(alloc, net, due, &refusal),
    }
}

/// The latest inputs of a live net by which the due dates of a due file are met, with the latest
/// date of each firing (chapter 5); or the first row that comes late whatever the inputs are; or
/// the first faulty row of the file. It takes time of order `N (n + p)` for numbers up to N, n
/// transitions and p places, and `r log r` for r rows.
pub fn tell_jit(alloc: Global, net: &LiveNet, bytes: &[u8]) -> Result<CommandOutcome, OutOfMemory>
    requires { length bytes.now ≤ most_file_bytes }
    ensures { Tells (SaysJit net.now bytes.now) (outcome_of result) }
{
    match read_due(alloc, net.net(), bytes) {
        Ok(due) => tell_latest(alloc, net, &due),
        Err(refusal) => refuse_due(alloc, &refusal),
    }
}
