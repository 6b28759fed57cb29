//! The cycle times of a live net, and the rounds of policy iteration that led to them.
ghost use Rattle.std.specs.Prelude.{◌≡◌, All, IfOk, IfSome, length};
ghost use Rattle.std.specs.Option.{option_copied, option_map};
ghost use Rattle.policy_rounds.specs.LastRounds.{AreLastOfRuns, rounds_of_runs};
ghost use Rattle.teg_net.specs.Certificates.{IsCertificate};
ghost use Rattle.teg_parts.specs.Partitions.{AreParts};
ghost use Rattle.teg_report.specs.teg_lines.CycleMeanings.{cycle_lists, runs_lists};
ghost use Rattle.teg_report.specs.teg_lines.RoundLines.{AreRoundsTold, IsRunKept};
ghost use Rattle.teg_pace_commands.specs.Cycle.{AreRuns, IsCycleAnswer, SaysCycle, SaysRounds};
ghost use Rattle.teg_outcome.specs.CommandOutcomes.{Tells, outcome_of};
ghost use Rattle.teg_pace_commands.specs.CycleTexts.{cycle_text};

use std::alloc::Global;
use teg_check::LiveNet;
use teg_cycle::{cycle, cycle_with_runs};
use teg_net::{CycleAnswer, OutOfMemory, Round};
use teg_outcome::{CommandOutcome, Verdict};
use teg_parts::{Parts, split};
use teg_report::{Answer, report};

// The cycle times of a live net and of these parts of it.
pub(crate) fn cycle_times(
    alloc: Global,
    net: &LiveNet,
    parts: &Parts,
) -> Result<CycleAnswer, OutOfMemory>
    requires { AreParts net.now parts.now }
    ensures answer { IfOk result (λ answer. IsCycleAnswer net.now answer) }
    ensures part_of { IfOk result (λ answer. answer.part_of.items ≡ parts.now.part_of) }
    ensures count { IfOk result (λ answer. length answer.parts.items ≡ length parts.now.inner) }
    ensures runs { IfOk result (λ answer. AreLastOfRuns net.now parts.now.part_of
        answer.parts.items) }
    ensures certificate { IfOk result (λ answer. IsCertificate net.now answer) }
{
    let answer = cycle(alloc, net.net(), net.live(), parts)?;
    Ok(answer)
}

// The cycle times of a live net and of these parts of it, and of each part with a circuit the
// rounds of policy iteration that end in its answer.
fn times_and_runs(
    alloc: Global,
    net: &LiveNet,
    parts: &Parts,
) -> Result<(CycleAnswer, Vec<Vec<Round>>), OutOfMemory>
    requires { AreParts net.now parts.now }
    ensures answer { IfOk result (λ w. IsCycleAnswer net.now w.0) }
    ensures runs { IfOk result (λ w. AreRuns net.now w.0 (rounds_of_runs w.1.items)) }
    ensures certificate { IfOk result (λ w. IsCertificate net.now w.0) }
{
    let (answer, runs) = cycle_with_runs(alloc, net.net(), net.live(), parts)?;
    Ok((answer, runs))
}

// The text of cycle times, with the rounds where they are given.
fn text_of_times(
    alloc: Global,
    net: &LiveNet,
    answer: &CycleAnswer,
    rounds: Option<&[Vec<Round>]>,
) -> Result<Vec<u8>, OutOfMemory>
    requires certificate { IsCertificate net.now answer.now }
    requires rounds { AreRoundsTold net.now (cycle_lists answer.now).parts
        (option_map runs_lists (option_copied rounds)) }
    ensures text { IfOk result (λ text. text.items ≡ cycle_text net.now answer.now
        (option_map runs_lists (option_copied rounds.entry))) }
    ensures kept { IfOk result (λ _. IfSome (option_map runs_lists (option_copied rounds.entry))
        (λ runs. All IsRunKept runs)) }
{
    match answer.best {
        None => report(alloc, Some(net.net()), &Answer::NoCircuit),
        Some(_) => report(alloc, Some(net.net()), &Answer::Cycle { answer, rounds }),
    }
}

/// The cycle times of a live net and of its strong parts, each with a circuit that has it and with
/// potentials, or that the net has no circuit (chapter 3). It takes the time of policy iteration.
pub fn tell_cycle(alloc: Global, net: &LiveNet) -> Result<CommandOutcome, OutOfMemory>
    ensures { Tells (SaysCycle net.now) (outcome_of result) }
{
    let parts = split(alloc, net.net())?;
    let answer = cycle_times(alloc, net, &parts)?;
    let text = text_of_times(alloc, net, &answer, None)?;
    let verdict = Verdict::Done;
    Ok(CommandOutcome { verdict, text })
}

/// The same, and of each part with a circuit the rounds of policy iteration that led to its cycle
/// time. It takes the time of policy iteration.
pub fn tell_rounds(alloc: Global, net: &LiveNet) -> Result<CommandOutcome, OutOfMemory>
    ensures { Tells (SaysRounds net.now) (outcome_of result) }
{
    let parts = split(alloc, net.net())?;
    let (answer, runs) = times_and_runs(alloc, net, &parts)?;
    let text = text_of_times(alloc, net, &answer, Some(runs.as_slice()))?;
    let verdict = Verdict::Done;
    Ok(CommandOutcome { verdict, text })
}
