//! The slack of the places of a live net.
ghost use Rattle.std.specs.Prelude.{◌≡◌, All, IfNone, IfOk, IfSome, length};
ghost use Rattle.teg_pace_commands.specs.Cycle.{IsCycleAnswer};
ghost use Rattle.teg_outcome.specs.CommandOutcomes.{Tells, outcome_of};
ghost use Rattle.teg_pace_commands.specs.Slack.{IsBestRatio, SaysSlack};
ghost use Rattle.teg_critical.specs.declared.slacks.Slack.TheVariants.{NoCircuit};
ghost use Rattle.teg_critical.specs.Slacks.{AreSlacks};
ghost use Rattle.teg_net.specs.Certificates.{IsCertificate};
ghost use Rattle.teg_net.specs.GreatestRatios.{HasNoCircuit, IsAnyPlace, IsGreatestRatio};
ghost use Rattle.teg_net.specs.Ratios.{Fraction};

use crate::cycle::cycle_times;
use std::alloc::Global;
use teg_check::LiveNet;
use teg_critical::{Slacks, critical};
use teg_net::{CycleAnswer, OutOfMemory, Ratio};
use teg_outcome::{CommandOutcome, Verdict};
use teg_parts::split;
use teg_report::{Answer, report};

// The greatest ratio that the cycle times of a live net tell; none where it has no circuit.
pub(crate) fn best_ratio(net: &LiveNet, answer: &CycleAnswer) -> Option<Ratio>
    requires { IsCycleAnswer net.now answer.now }
    ensures none { IfNone result (HasNoCircuit net.now IsAnyPlace) }
    ensures some { IfSome result (IsBestRatio net.now) }
{
    // The net stands in the clauses alone.
    let _net = net;
    teg_cycle::best_ratio(answer)
}

// The slack of each place, by an answer on the cycle times of a live net.
pub(crate) fn slacks_by(
    alloc: Global,
    net: &LiveNet,
    answer: &CycleAnswer,
) -> Result<Slacks, OutOfMemory>
    requires { IsCertificate net.now answer.now }
    ensures each { IfOk result (λ slacks. length slacks ≡ length net.now.places) }
    ensures slacks { IfOk result (λ slacks. (r : Fraction)
        → IsGreatestRatio net.now IsAnyPlace r → AreSlacks net.now r slacks) }
    ensures none { IfOk result (λ slacks. HasNoCircuit net.now IsAnyPlace
        → All (λ s. s ≡ NoCircuit) slacks) }
{
    critical(alloc, net.net(), answer)
}

// The slack of each place, by the cycle times of a live net that has this greatest ratio.
fn tell_slacks(
    alloc: Global,
    net: &LiveNet,
    answer: &CycleAnswer,
    ratio: &Ratio,
) -> Result<CommandOutcome, OutOfMemory>
    requires certificate { IsCertificate net.now answer.now }
    requires best { IsBestRatio net.now ratio.now }
    ensures { Tells (SaysSlack net.now) (outcome_of result) }
{
    let slacks = slacks_by(alloc, net, answer)?;
    let answer = Answer::Slack {
        ratio,
        slacks: &slacks,
    };
    let text = report(alloc, Some(net.net()), &answer)?;
    let verdict = Verdict::Done;
    Ok(CommandOutcome { verdict, text })
}

/// The slack of each place of a live net: by how much its holding time may rise while no circuit
/// has a greater ratio (chapter 3); or that the net has no circuit. It takes time of order n p log
/// p for n transitions and p places, and that of the cycle times.
pub fn tell_slack(alloc: Global, net: &LiveNet) -> Result<CommandOutcome, OutOfMemory>
    ensures { Tells (SaysSlack net.now) (outcome_of result) }
{
    let parts = split(alloc, net.net())?;
    let answer = cycle_times(alloc, net, &parts)?;
    match best_ratio(net, &answer) {
        Some(ratio) => tell_slacks(alloc, net, &answer, &ratio),
        None => {
            let text = report(alloc, None, &Answer::NoCircuit)?;
            let verdict = Verdict::Done;
            Ok(CommandOutcome { verdict, text })
        }
    }
}
