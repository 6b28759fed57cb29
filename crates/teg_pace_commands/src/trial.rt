//! The line of machines, and what is told of it.
ghost use Rattle.std.specs.Prelude.{◌≡◌, ◌≤◌, IfOk, length};
ghost use Rattle.teg_outcome.specs.CommandOutcomes.{Tells, outcome_of};
ghost use Rattle.teg_pace_commands.specs.Cycle.{IsCycleAnswer};
ghost use Rattle.teg_pace_commands.specs.Slack.{IsBestRatio};
ghost use Rattle.teg_pace_commands.specs.Trial.{SaysTrial, critical_count};
ghost use Rattle.teg_critical.specs.Slacks.{AreSlacks};
ghost use Rattle.teg_net.specs.Certificates.{IsCertificate};
ghost use Rattle.trial_net.specs.Trials.{trial};
ghost use Rattle.teg_net.specs.Circuits.{IsLive};
ghost use Rattle.teg_net.specs.Limits.{most_places};

use crate::cycle::cycle_times;
use crate::slack::{best_ratio, slacks_by};
use date_rows::first_dates;
use std::alloc::Global;
use teg_check::LiveNet;
use teg_critical::{Slack, Slacks};
use teg_net::{CycleAnswer, Net, OutOfMemory, PlaceId, Ratio, TransitionId};
use teg_outcome::{CommandOutcome, Machines, Verdict};
use teg_parts::split;
use teg_report::{Answer, report};
use trial_net::make_trial;

// The firing of the last machine of which the date is told.
const NUMBER: u32 = 1000;

// How many of so many places are critical.
fn critical_count(slacks: &Slacks, places: u32) -> u32
    requires count { places ≡ length slacks.now }
    requires few { places ≤ most_places }
    ensures { result ≡ critical_count slacks.now }
{
    let mut count = 0;
    for index in 0..places {
        if slacks.slack(PlaceId { index }) == Slack::Critical {
            count += 1;
        }
    }
    count
}

// A net that is live, with its ranks. It is refused for want of memory alone.
fn with_ranks(alloc: Global, net: Net) -> Result<LiveNet, OutOfMemory>
    requires { IsLive net }
    ensures { IfOk result (λ live. live ≡ net) }
{
    match LiveNet::new(alloc, net) {
        Ok(live) => Ok(live),
        Err(_) => Err(OutOfMemory),
    }
}

// What is told of the line with these slacks and this greatest ratio.
fn tell_line(
    alloc: Global,
    machines: &Machines,
    net: &LiveNet,
    ratio: &Ratio,
    slacks: &Slacks,
) -> Result<CommandOutcome, OutOfMemory>
    requires net { net.now ≡ trial machines.now }
    requires ratio { IsBestRatio net.now ratio.now }
    requires slacks { AreSlacks net.now ratio.now slacks.now }
    requires each { length slacks.now ≡ length net.now.places }
    ensures { Tells (SaysTrial machines.now) (outcome_of result) }
{
    let machines = machines.get() as u32;
    let table = first_dates(alloc, net.net(), net.live(), NUMBER)?;
    let last = TransitionId {
        index: machines - 1,
    };
    let places = net.net().places().len() as u32;
    let answer = Answer::Trial {
        machines,
        places,
        ratio,
        critical: critical_count(slacks, places),
        last: table.date(last, u64::from(NUMBER)),
    };
    let text = report(alloc, None, &answer)?;
    let verdict = Verdict::Done;
    Ok(CommandOutcome { verdict, text })
}

// What is told of the line by the cycle times of its net.
fn tell_answer(
    alloc: Global,
    machines: &Machines,
    net: &LiveNet,
    answer: &CycleAnswer,
) -> Result<CommandOutcome, OutOfMemory>
    requires some { 1 ≤ machines.now }
    requires net { net.now ≡ trial machines.now }
    requires answer { IsCycleAnswer net.now answer.now }
    requires certificate { IsCertificate net.now answer.now }
    ensures { Tells (SaysTrial machines.now) (outcome_of result) }
{
    let Some(ratio) = best_ratio(net, answer) else {
        unreachable!()
    };
    let slacks = slacks_by(alloc, net, answer)?;
    tell_line(alloc, machines, net, &ratio, &slacks)
}

// The cycle times of a net.
fn answer_of(alloc: Global, net: &LiveNet) -> Result<CycleAnswer, OutOfMemory>
    ensures answer { IfOk result (λ answer. IsCycleAnswer net.now answer) }
    ensures certificate { IfOk result (λ answer. IsCertificate net.now answer) }
{
    let parts = split(alloc, net.net())?;
    cycle_times(alloc, net, &parts)
}

// What is told of the line, by its net.
fn tell_net(
    alloc: Global,
    machines: &Machines,
    net: &LiveNet,
) -> Result<CommandOutcome, OutOfMemory>
    requires some { 1 ≤ machines.now }
    requires net { net.now ≡ trial machines.now }
    ensures { Tells (SaysTrial machines.now) (outcome_of result) }
{
    let answer = answer_of(alloc, net)?;
    tell_answer(alloc, machines, net, &answer)
}

/// The cycle time of the line of so many machines, how many of its places are critical, and the
/// date of the 1,000th firing of its last machine. It takes the time of policy iteration on its net
/// and of 1,000 rows of dates.
pub fn tell_trial(alloc: Global, machines: Machines) -> Result<CommandOutcome, OutOfMemory>
    ensures { Tells (SaysTrial machines) (outcome_of result) }
{
    let net = with_ranks(alloc, make_trial(alloc, machines.get() as u32)?)?;
    tell_net(alloc, &machines, &net)
}
