//! The dates of a live net for ever, and one of them.
ghost use Rattle.std.specs.Prelude.{◌≤◌, ◌<◌, IfErr, IfOk, IfSome, Some, length};
ghost use Rattle.settled_laws.specs.SettledForms.{IsSettledFormOf, NetSettlesPast};
ghost use Rattle.periodic_laws.specs.LinearSystem.{SettlesShortest};
ghost use Rattle.teg_outcome.specs.CommandOutcomes.{Tells, outcome_of};
ghost use Rattle.teg_date_commands.specs.CommandDates.{FormExceedsLimit, IsFormWithinLimit, SaysDate, SaysDateOf, SaysDates, SaysTooLong, SettlesWithin, TellsNoTransition};
ghost use Rattle.teg_net.specs.Limits.{greatest_firing_number};
ghost use Rattle.teg_settle.specs.LeastDates.{IsLeastDate};
ghost use Rattle.teg_settle.specs.LimitRefusals.{greatest_limit};

use crate::limits::most_of;
use crate::one_date::date_of_part;
use crate::told_dates::dates_text;
use dioid::Date;
use periodic_laws::live_nets_settle;
use run_rows::settles_past;
use settled_laws::forms_tell_dates;
use std::alloc::Global;
use teg_check::LiveNet;
use teg_net::{FiringNumber, Label, OutOfMemory, TransitionId};
use teg_outcome::{CommandOutcome, Limit, Verdict};
use teg_report::{Answer, report};
use teg_settle::{SettleRefusal, SettledDates, settle_dates, settle_dates_within};

// That the settled form is longer than the limit.
fn tell_too_long(
    alloc: Global,
    net: &LiveNet,
    limit: Option<u32>,
    refusal: SettleRefusal,
) -> Result<CommandOutcome, OutOfMemory>
    requires { FormExceedsLimit net.now limit refusal }
    ensures { Tells (SaysTooLong (NetSettlesPast net.now) limit) (outcome_of result) }
{
    match refusal {
        SettleRefusal::TooLong { limit } => {
            let text = report(alloc, None, &Answer::TooLong { limit })?;
            let verdict = Verdict::TooLong;
            Ok(CommandOutcome { verdict, text })
        }
        SettleRefusal::OutOfMemory => Err(OutOfMemory),
    }
}

// That jumps do not show the settled form to be longer than the limit: where they do, no rows up to
// there are made.
fn not_shown_longer(alloc: Global, net: &LiveNet, limit: u32) -> Result<(), SettleRefusal>
    ensures { IfErr result (FormExceedsLimit net.now (Some limit)) }
{
    if settles_past(alloc, net.net(), net.live(), limit)? {
        return Err(SettleRefusal::TooLong { limit });
    }
    Ok(())
}

// The shortest settled form of the least dates, of at most this length where there is a limit.
fn settled(alloc: Global, net: &LiveNet, limit: Option<u32>) -> Result<SettledDates, SettleRefusal>
    requires { IfSome limit (λ most. most ≤ greatest_limit) }
    ensures form { IfOk result (IsSettledFormOf net.now) }
    ensures within { IfOk result (IsFormWithinLimit limit) }
    ensures too_long { IfErr result (FormExceedsLimit net.now limit) }
{
    match limit {
        Some(most) => {
            not_shown_longer(alloc, net, most)?;
            settle_dates_within(alloc, net.net(), net.live(), most)
        }
        None => Ok(settle_dates(alloc, net.net(), net.live())?),
    }
}

// That the least dating of a live net has a settled form.
fn has_settled_form(net: &LiveNet)
    ensures { SettlesShortest net.now }
{
    live_nets_settle();
    let held = net.net();
    // The net keeps its rules.
    held.rules();
}

// The date of one firing by the least dating: by its settled form where that has a limit, and else
// by rows, form or jumps, whichever tells it first.
fn least_date(
    alloc: Global,
    net: &LiveNet,
    transition: TransitionId,
    number: u64,
    limit: Option<u32>,
) -> Result<Date, SettleRefusal>
    requires transition { transition.index < length net.now.transitions }
    requires first { 1 ≤ number }
    requires last { number ≤ greatest_firing_number }
    requires limit { IfSome limit (λ most. most ≤ greatest_limit) }
    ensures date { IfOk result (IsLeastDate net.now transition.index number) }
    ensures within { IfOk result (λ _. SettlesWithin limit net.now) }
    ensures too_long { IfErr result (FormExceedsLimit net.now limit) }
{
    match limit {
        Some(most) => {
            // That the settled form of a dating tells its dates.
            forms_tell_dates();
            not_shown_longer(alloc, net, most)?;
            let settled = settle_dates_within(alloc, net.net(), net.live(), most)?;
            Ok(settled.date(transition, number))
        }
        None => {
            has_settled_form(net);
            Ok(date_of_part(alloc, net.net(), net.live(), transition, number)?)
        }
    }
}

/// The dates of a live net for ever, as its shortest settled form (chapter 3); or that it is longer
/// than the limit, where one is given. It takes the time of the search for the settled form, and
/// beside the text and the rows of the search memory for the dates of one transition.
pub fn tell_dates(
    alloc: Global,
    net: &LiveNet,
    limit: Option<Limit>,
) -> Result<CommandOutcome, OutOfMemory>
    ensures { Tells (SaysDates limit net.now) (outcome_of result) }
{
    let limit = most_of(limit);
    match settled(alloc, net, limit) {
        Ok(settled) => {
            let text = dates_text(alloc, net.net(), &settled)?;
            let verdict = Verdict::Done;
            Ok(CommandOutcome { verdict, text })
        }
        Err(refusal) => tell_too_long(alloc, net, limit, refusal),
    }
}

// The date of one firing of this transition.
fn tell_date_of(
    alloc: Global,
    net: &LiveNet,
    transition: TransitionId,
    number: u64,
    limit: Option<u32>,
) -> Result<CommandOutcome, OutOfMemory>
    requires transition { transition.index < length net.now.transitions }
    requires first { 1 ≤ number }
    requires last { number ≤ greatest_firing_number }
    requires limit { IfSome limit (λ most. most ≤ greatest_limit) }
    ensures { Tells (SaysDateOf transition number limit net.now) (outcome_of result) }
{
    match least_date(alloc, net, transition, number, limit) {
        Ok(date) => {
            let answer = Answer::Date {
                transition,
                number,
                date,
            };
            let text = report(alloc, Some(net.net()), &answer)?;
            let verdict = Verdict::Done;
            Ok(CommandOutcome { verdict, text })
        }
        Err(refusal) => tell_too_long(alloc, net, limit, refusal),
    }
}

// That no transition has the name that was asked for.
fn tell_no_transition(alloc: Global, word: &str) -> Result<CommandOutcome, OutOfMemory>
    ensures { Tells (TellsNoTransition word.now) (outcome_of result) }
{
    let word = Label::new(alloc, word)?;
    let text = report(alloc, None, &Answer::NoTransition { word: &word })?;
    let verdict = Verdict::Name;
    Ok(CommandOutcome { verdict, text })
}

/// The date of one firing of a live net, by the name of its transition and its number from 1; or
/// that no transition has the name, or that the settled form is longer than the limit, where one is
/// given. It takes the time of the search for the settled form; without a limit it asks the part
/// that the transition waits for, and takes the time of so many rows as the number, where these are
/// fewer, and where rates nearly agree that of few rows near the numbers at which one circuit
/// overtakes another.
pub fn tell_date(
    alloc: Global,
    net: &LiveNet,
    word: &str,
    number: FiringNumber,
    limit: Option<Limit>,
) -> Result<CommandOutcome, OutOfMemory>
    ensures { Tells (SaysDate word.now number limit net.now) (outcome_of result) }
{
    let number = number.get();
    let limit = most_of(limit);
    match net.net().find(word) {
        Some(transition) => tell_date_of(alloc, net, transition, number, limit),
        None => tell_no_transition(alloc, word),
    }
}
