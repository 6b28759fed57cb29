//! The request that the words of the command line give.
ghost use Rattle.std.specs.Prelude.{◌≡◌, IfOk, Some, map, string_bytes};
ghost use Rattle.std.specs.Option.{option_copied};
ghost use Rattle.teg_words.specs.WordMeanings.{given_by, texts};
ghost use Rattle.teg_words.specs.NumberWords.{number_of_word};
ghost use Rattle.teg_request.specs.declared.request.NetCommand.TheVariants.{Asks};
ghost use Rattle.teg_request.specs.declared.request.Request.TheVariants.{OfFiles, OfNet};
ghost use Rattle.teg_request.specs.Requests.{asked_for, calc_asked, date_asked, limit_asked, limited_asked, list_asked, net_and_file, number_limit, only_net, plain_asked, request_of, size_asked, target_asked, timetable_asked, trial_asked};

use crate::request::{FileCommand, NetCommand, Question, Request};
use std::alloc::Global;
use teg_net::{Label, OutOfMemory, UpTo};
use teg_outcome::{
    Expression, GREATEST_TARGET_TIME, Limit, MOST_EXPRESSION, MOST_TARGET_TOKENS, Target,
};
use teg_words::{GivenWords, WordsRefusal, number, read_words};

// The limit of a settled form where none is given.
const USUAL_LIMIT: u64 = 20_000;

// ---- numbers and options

// A number from 1 to the most.
fn up_to<const MOST: u64>(word: &str) -> Option<UpTo<MOST>>
    ensures { result ≡ number_of_word 1 MOST word.now }
{
    let number = number(word, 1, MOST)?;
    Some(UpTo::new(number))
}

// The time and the tokens of a target ratio, apart at the first `/`.
fn target(word: &str) -> Option<Target>
    ensures { result ≡ target_asked word.now }
{
    let (time, tokens) = word.split_once('/')?;
    let time = number(time, 0, GREATEST_TARGET_TIME)?;
    let tokens = number(tokens, 1, MOST_TARGET_TOKENS)?;
    Some(Target::new(time, tokens))
}

// The limit of a settled form: a number, or the usual one.
fn number_limit(limit: Option<&str>) -> Option<Limit>
    ensures { result ≡ number_limit (option_copied limit.entry) }
{
    match limit {
        None => Some(Limit::new(USUAL_LIMIT)),
        Some(word) => up_to(word),
    }
}

// The same, or no limit where the word is `none`.
fn limit_asked(limit: Option<&str>) -> Option<Option<Limit>>
    ensures { result ≡ limit_asked (option_copied limit.entry) }
{
    match limit {
        Some("none") => Some(None),
        _ => {
            let most = number_limit(limit)?;
            Some(Some(most))
        }
    }
}

// ---- requests by their shape

// This command on the net of this name.
fn on_net(alloc: Global, command: NetCommand, net: &str) -> Result<Option<Request>, OutOfMemory>
    ensures { IfOk result (λ request. request ≡ Some (OfNet command net.now)) }
{
    let net = Label::new(alloc, net)?;
    Ok(Some(Request::OfNet { command, net }))
}

// This command on the net and the second file of these names.
fn on_files(
    alloc: Global,
    command: FileCommand,
    net: &str,
    second: &str,
) -> Result<Option<Request>, OutOfMemory>
    ensures { IfOk result (λ request. request ≡ Some (OfFiles command net.now second.now)) }
{
    let net = Label::new(alloc, net)?;
    let second = Label::new(alloc, second)?;
    Ok(Some(Request::OfFiles {
        command,
        net,
        second,
    }))
}

// This question on the net of this name.
fn asks_net(alloc: Global, question: Question, net: &str) -> Result<Option<Request>, OutOfMemory>
    ensures { IfOk result (λ request. request ≡ Some (OfNet (Asks question) net.now)) }
{
    on_net(alloc, NetCommand::Asks(question), net)
}

// This question on the net of the one word that is given: as `check NET`.
fn only_net(
    alloc: Global,
    question: Question,
    rest: &[&str],
) -> Result<Option<Request>, OutOfMemory>
    ensures { IfOk result (λ request. request ≡ only_net question (texts rest.now)) }
{
    match rest {
        [net] => asks_net(alloc, question, net),
        _ => Ok(None),
    }
}

// This command on the net and the second file of the two words that are given: as `jit NET DUE`.
fn net_and_file(
    alloc: Global,
    command: FileCommand,
    rest: &[&str],
) -> Result<Option<Request>, OutOfMemory>
    ensures { IfOk result (λ request. request ≡ net_and_file command (texts rest.now)) }
{
    match rest {
        [net, second] => on_files(alloc, command, net, second),
        _ => Ok(None),
    }
}

// ---- requests with words of their own

// `list NET K`
fn list_asked(alloc: Global, rest: &[&str]) -> Result<Option<Request>, OutOfMemory>
    ensures { IfOk result (λ request. request ≡ list_asked (texts rest.now)) }
{
    match rest {
        [net, word] => match up_to(word) {
            Some(count) => on_net(alloc, NetCommand::List { count }, net),
            None => Ok(None),
        },
        _ => Ok(None),
    }
}

// `date NET TRANSITION K`, by this limit
fn date_asked(
    alloc: Global,
    rest: &[&str],
    limit: Option<Limit>,
) -> Result<Option<Request>, OutOfMemory>
    ensures { IfOk result (λ request. request ≡ date_asked (texts rest.now) limit) }
{
    match rest {
        [net, word, count] => match up_to(count) {
            Some(number) => {
                let word = Label::new(alloc, word)?;
                let question = Question::Date {
                    word,
                    number,
                    limit,
                };
                asks_net(alloc, question, net)
            }
            None => Ok(None),
        },
        _ => Ok(None),
    }
}

// `size NET PLACE A/B`
fn size_asked(alloc: Global, rest: &[&str]) -> Result<Option<Request>, OutOfMemory>
    ensures { IfOk result (λ request. request ≡ size_asked (texts rest.now)) }
{
    match rest {
        [net, word, ratio] => match target(ratio) {
            Some(target) => {
                let word = Label::new(alloc, word)?;
                asks_net(alloc, Question::Size { word, target }, net)
            }
            None => Ok(None),
        },
        _ => Ok(None),
    }
}

// `timetable NET A FILE`, by this limit
fn timetable_asked(
    alloc: Global,
    rest: &[&str],
    limit: Option<Limit>,
) -> Result<Option<Request>, OutOfMemory>
    ensures { IfOk result (λ request. request ≡ timetable_asked (texts rest.now) limit) }
{
    match rest {
        [net, word, second] => match up_to(word) {
            Some(period) => {
                on_files(alloc, FileCommand::Timetable { period, limit }, net, second)
            }
            None => Ok(None),
        },
        _ => Ok(None),
    }
}

// `calc EXPR`
fn calc_asked(alloc: Global, rest: &[&str]) -> Result<Option<Request>, OutOfMemory>
    ensures { IfOk result (λ request. request ≡ calc_asked (texts rest.now)) }
{
    match rest {
        [text] => {
            if text.len() <= MOST_EXPRESSION {
                let expression = Expression::new(alloc, text)?;
                Ok(Some(Request::ValueOf { expression }))
            } else {
                Ok(None)
            }
        }
        _ => Ok(None),
    }
}

// `trial N`
fn trial_asked(rest: &[&str]) -> Option<Request>
    ensures { result ≡ trial_asked (texts rest.now) }
{
    match rest {
        [count] => {
            let machines = up_to(count)?;
            Some(Request::TrialOf { machines })
        }
        _ => None,
    }
}

// ---- the commands by their names

// The request of a command that takes no option. A word that is no command asks for nothing.
fn plain_asked(alloc: Global, command: &str, rest: &[&str]) -> Result<Option<Request>, OutOfMemory>
    ensures { IfOk result (λ request. request ≡ plain_asked command.now (texts rest.now)) }
{
    match command {
        "check" => only_net(alloc, Question::Check, rest),
        "form" => only_net(alloc, Question::Form, rest),
        "slack" => only_net(alloc, Question::Slack, rest),
        "migrate" => only_net(alloc, Question::Migrate, rest),
        "bound" => only_net(alloc, Question::Bound, rest),
        "jit" => net_and_file(alloc, FileCommand::Jit, rest),
        "replay" => net_and_file(alloc, FileCommand::Replay, rest),
        "forever" => net_and_file(alloc, FileCommand::Forever, rest),
        "list" => list_asked(alloc, rest),
        "size" => size_asked(alloc, rest),
        "calc" => calc_asked(alloc, rest),
        "trial" => Ok(trial_asked(rest)),
        _ => Ok(None),
    }
}

// The request of a command with `--limit N` or `--limit none`, or without; of one that takes no
// limit where none is given.
fn limited_asked(
    alloc: Global,
    command: &str,
    rest: &[&str],
    limit: Option<&str>,
) -> Result<Option<Request>, OutOfMemory>
    ensures { IfOk result (λ request. request ≡ limited_asked command.now (texts rest.now)
        (option_copied limit.entry)) }
{
    match command {
        "dates" => match limit_asked(limit) {
            Some(limit) => only_net(alloc, Question::Dates { limit }, rest),
            None => Ok(None),
        },
        "date" => match limit_asked(limit) {
            Some(limit) => date_asked(alloc, rest, limit),
            None => Ok(None),
        },
        "timetable" => match limit_asked(limit) {
            Some(limit) => timetable_asked(alloc, rest, limit),
            None => Ok(None),
        },
        "transfer" => match number_limit(limit) {
            Some(limit) => only_net(alloc, Question::Transfer { limit }, rest),
            None => Ok(None),
        },
        _ => match limit {
            None => plain_asked(alloc, command, rest),
            Some(_) => Ok(None),
        },
    }
}

// The request of a command with what is given to it. `--rounds` goes with `cycle` alone.
fn asked_for(alloc: Global, given: &GivenWords<'_>) -> Result<Option<Request>, OutOfMemory>
    ensures { IfOk result (λ request. request ≡ asked_for (given_by given.now)) }
{
    let rest = given.rest.as_slice();
    let rounds = given.rounds;
    if given.command == "cycle" {
        match given.limit {
            None => only_net(alloc, Question::Cycle { rounds }, rest),
            Some(_) => Ok(None),
        }
    } else if rounds {
        Ok(None)
    } else {
        limited_asked(alloc, given.command, rest, given.limit)
    }
}

/// The request that the words give, if they give one.
pub fn read_request(alloc: Global, words: &[String]) -> Result<Option<Request>, OutOfMemory>
    ensures { IfOk result (λ request. request ≡ request_of (map string_bytes words.now)) }
{
    match read_words(alloc, words) {
        Ok(given) => asked_for(alloc, &given),
        Err(WordsRefusal::Refused) => Ok(None),
        Err(WordsRefusal::OutOfMemory) => Err(OutOfMemory),
    }
}
