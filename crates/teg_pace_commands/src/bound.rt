//! How soon the dates of a live net become periodic.
ghost use Rattle.std.specs.Prelude.{IfOk};
ghost use Rattle.teg_bound.specs.PeriodicBounds.{EachReachesEach, HasPlacesAlone, IsBoundOf, IsRightBound};
ghost use Rattle.teg_bound.specs.ReturningRows.{IsShortestRepetition};
ghost use Rattle.teg_bound.specs.BoundTexts.{IsCause};
ghost use Rattle.teg_pace_commands.specs.Bound.{SaysBound};
ghost use Rattle.teg_outcome.specs.CommandOutcomes.{Tells, outcome_of};

use crate::cycle::cycle_times;
use std::alloc::Global;
use teg_bound::{
    BoundAnswer, SettledNumbers, bound_text, no_bound_text, settled_numbers, settling_bound,
};
use teg_check::LiveNet;
use teg_net::OutOfMemory;
use teg_outcome::{CommandOutcome, Verdict};
use teg_parts::split;
use teg_settle::{SettleRefusal, settle_dates_within};

// Up to how many numbers all rows are kept for the form.
const MOST_KEPT: u32 = 10_000;

// From when on the dates of a net that has a bound are periodic: by all its rows where the form is
// so short, and else by the last rows alone.
fn numbers_of(alloc: Global, net: &LiveNet) -> Result<SettledNumbers, OutOfMemory>
    requires alone { HasPlacesAlone net.now }
    requires strong { EachReachesEach net.now }
    ensures { IfOk result (IsShortestRepetition net.now) }
{
    let plain = net.net();
    let live = net.live();
    match settle_dates_within(alloc, plain, live, MOST_KEPT) {
        Ok(settled) => {
            let after = settled.after();
            let period = settled.period();
            Ok(SettledNumbers { after, period })
        }
        Err(SettleRefusal::TooLong { .. }) => settled_numbers(alloc, plain, live),
        Err(SettleRefusal::OutOfMemory) => Err(OutOfMemory),
    }
}

// A bound, and from when on the dates are periodic.
fn tell_number(alloc: Global, net: &LiveNet, number: u128) -> Result<CommandOutcome, OutOfMemory>
    requires { IsBoundOf net.now number }
    ensures { Tells (SaysBound net.now) (outcome_of result) }
{
    let settled = numbers_of(alloc, net)?;
    let text = bound_text(alloc, number, settled.after, settled.period)?;
    Ok(CommandOutcome::told(Verdict::Done, text))
}

// Why there is no bound.
fn tell_no_number(
    alloc: Global,
    net: &LiveNet,
    answer: &BoundAnswer,
) -> Result<CommandOutcome, OutOfMemory>
    requires right { IsRightBound net.now answer.now }
    requires cause { IsCause answer.now }
    ensures { Tells (SaysBound net.now) (outcome_of result) }
{
    let text = no_bound_text(alloc, answer)?;
    Ok(CommandOutcome::told(Verdict::Done, text))
}

/// A number past which the dates of a live net are periodic (chapter 3, cyclicity), with the number
/// and the period of its shortest settled form; or why there is no such bound. It takes the time of
/// the cycle times and of the search for the settled form, which keeps some 20,000 rows at most:
/// where the form is longer than 10,000, it is that of `settled_numbers`.
pub fn tell_bound(alloc: Global, net: &LiveNet) -> Result<CommandOutcome, OutOfMemory>
    ensures { Tells (SaysBound net.now) (outcome_of result) }
{
    let parts = split(alloc, net.net())?;
    let times = cycle_times(alloc, net, &parts)?;
    let answer = settling_bound(net.net(), net.live(), &parts, &times);
    match answer {
        BoundAnswer::Bound { number } => tell_number(alloc, net, number),
        BoundAnswer::HasInputs
        | BoundAnswer::NoPlace
        | BoundAnswer::NotStrong
        | BoundAnswer::ReadyDates => tell_no_number(alloc, net, &answer),
    }
}
