//! The commands on a net.
ghost use Rattle.teg_outcome.specs.CommandOutcomes.{Tells, outcome_of};
ghost use Rattle.teg_files.specs.Finishing.{WritesOutcome};
ghost use Rattle.teg_run.specs.Says.{SaysNet, SaysQuestion};

use std::alloc::Global;
use teg_check::LiveNet;
use teg_date_commands::{tell_date, tell_dates, tell_transfer};
use teg_files::{Status, closed, finish, write_list};
use teg_net::OutOfMemory;
use teg_net_commands::{tell_check, tell_form, tell_migrate};
use teg_outcome::CommandOutcome;
use teg_outside::Sink;
use teg_pace_commands::{tell_bound, tell_cycle, tell_rounds, tell_size, tell_slack};
use teg_request::{NetCommand, Question};

// What the question comes to on a live net.
fn of_net(alloc: Global, question: Question, net: &LiveNet) -> Result<CommandOutcome, OutOfMemory>
    ensures { Tells (SaysQuestion question net.now) (outcome_of result) }
{
    match question {
        Question::Check => tell_check(alloc, net),
        Question::Form => tell_form(alloc, net),
        Question::Cycle { rounds: false } => tell_cycle(alloc, net),
        Question::Cycle { rounds: true } => tell_rounds(alloc, net),
        Question::Slack => tell_slack(alloc, net),
        Question::Dates { limit } => tell_dates(alloc, net, limit),
        Question::Date {
            word,
            number,
            limit,
        } => tell_date(alloc, net, word.as_str(), number, limit),
        Question::Transfer { limit } => tell_transfer(alloc, net, limit),
        Question::Migrate => tell_migrate(alloc, net),
        Question::Size { word, target } => tell_size(alloc, net, word.as_str(), target),
        Question::Bound => tell_bound(alloc, net),
    }
}

/// Writes what the command comes to on a live net. A list of dates is written as it is made.
pub fn write_answer<W: Sink>(
    alloc: Global,
    command: NetCommand,
    net: &LiveNet,
    out: &mut W,
) -> Status
    ensures { WritesOutcome (SaysNet command net.now) (W.state out.old) (W.state out.new) result }
{
    match command {
        NetCommand::List { count } => write_list(alloc, net, count.get() as u32, out),
        NetCommand::Asks(question) => finish(out, closed(of_net(alloc, question, net))),
    }
}
