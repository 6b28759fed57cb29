//! The text of an answer.
ghost use Rattle.std.specs.Prelude.{◌≡◌, None, Some, IfOk, IfSome};
ghost use Rattle.std.specs.Option.{option_copied};
ghost use Rattle.teg_net.specs.Nets.{IsNet};
ghost use Rattle.teg_report.specs.Answering.{AreOfOneNet, IsReadFrom};
ghost use Rattle.teg_report.specs.KeptAnswers.{IsAnswerKept, IsPlain, IsAnswerTold};
ghost use Rattle.teg_report.specs.AnswerMeanings.{meant};
ghost use Rattle.teg_report.specs.Reports.{IsAbout, text_of};

use crate::answer::Answer;
use crate::{file_rows, forms, lists, plans, refusals, series, settled, slacks, texts, usage};
use std::alloc::Global;
use teg_lines::{cycle_text, token_free_text};
use teg_net::{Net, OutOfMemory};

// The text of an answer that names nothing of a net.
fn alone(alloc: Global, answer: &Answer<'_>) -> Result<Vec<u8>, OutOfMemory>
    requires { IsAbout None (meant answer.now) }
    ensures text { IfOk result (λ text. text.items ≡ text_of None (meant answer.now)) }
    ensures kept { IfOk result (λ _. IsPlain (meant answer.now) → IsAnswerKept (meant answer.now)) }
{
    match answer {
        Answer::Usage => usage::usage(alloc),
        Answer::Live {
            transitions,
            places,
        } => texts::live(alloc, *transitions, *places),
        Answer::NoCircuit => texts::no_circuit(alloc),
        Answer::Replayed { accepted, lines } => file_rows::replayed(alloc, *accepted, lines),
        Answer::Refused {
            row,
            failure,
            lines,
        } => file_rows::refused(alloc, None, *row, *failure, lines),
        Answer::Calc { series } => series::calc(alloc, series),
        Answer::Trial {
            machines,
            places,
            ratio,
            critical,
            last,
        } => slacks::trial(alloc, (*machines, *places), **ratio, *critical, *last),
        Answer::Read { refusal } => refusals::read(alloc, refusal),
        Answer::TooLarge { file } => texts::too_large(alloc, *file),
        Answer::NoTransition { word } => texts::no_transition(alloc, word),
        Answer::Due { refusal } => file_rows::due(alloc, refusal),
        Answer::Log { refusal } => file_rows::log(alloc, refusal),
        Answer::TooLong { limit } => texts::too_long(alloc, *limit),
        Answer::Parse { refusal } => series::parse(alloc, refusal),
        Answer::Series { refusal } => series::refused(alloc, refusal),
        Answer::Fault { file } => texts::fault(alloc, *file),
        _ => unreachable!(),
    }
}

// The text of an answer about this net.
fn about(alloc: Global, net: &Net, answer: &Answer<'_>) -> Result<Vec<u8>, OutOfMemory>
    requires { IsAbout (Some net.now) (meant answer.now) }
    ensures text { IfOk result (λ text. text.items ≡ text_of (Some net.now) (meant answer.now)) }
    ensures kept { IfOk result (λ _. IsPlain (meant answer.now) → IsAnswerKept (meant answer.now)) }
{
    match answer {
        Answer::List { table } => lists::list(alloc, net, table),
        Answer::Form { form } => forms::form(alloc, net, form),
        Answer::Cycle { answer, rounds } => cycle_text(alloc, net, answer, *rounds),
        Answer::Dates { settled } => settled::dates(alloc, net, settled),
        Answer::Date {
            transition,
            number,
            date,
        } => texts::date(alloc, net, *transition, *number, *date),
        Answer::Jit { plan } => plans::jit(alloc, net, plan),
        Answer::Late { refusal } => plans::late(alloc, net, refusal),
        Answer::Slack { ratio, slacks } => slacks::slack(alloc, net, **ratio, slacks),
        Answer::Transfer { inputs } => settled::transfer(alloc, net, inputs),
        Answer::Refused {
            row,
            failure,
            lines,
        } => file_rows::refused(alloc, Some(net), *row, *failure, lines),
        Answer::TokenFree { circuit } => token_free_text(alloc, net, circuit),
        _ => alone(alloc, answer),
    }
}

// The text of an answer, whose values keep what their types keep.
fn text(alloc: Global, net: Option<&Net>, answer: &Answer<'_>) -> Result<Vec<u8>, OutOfMemory>
    requires { IsAbout (option_copied net) (meant answer.now) }
    ensures text { IfOk result (λ text. text.items ≡ text_of (option_copied net.entry)
        (meant answer.now)) }
    ensures kept { IfOk result (λ _. IsPlain (meant answer.now) → IsAnswerKept (meant answer.now)) }
{
    match net {
        Some(net) => about(alloc, net, answer),
        None => alone(alloc, answer),
    }
}

// That a net which is given keeps its rules.
fn know_rules(net: Option<&Net>)
    ensures { IfSome (option_copied net.entry) IsNet }
{
    if let Some(net) = net {
        net.rules();
    }
}

/// The bytes of an answer, one line feed after each line.
///
/// The net is given wherever the text has a name that the answer does not hold itself: for `List`,
/// `Form`, `Cycle`, `Dates`, `Date`, `Jit`, `Late`, `Slack`, `Transfer` (whose outputs are also
/// counted by it) and `TokenFree`, and for `Refused` where a place is named. What the answer names
/// is in the net: a table and a settled form have dates for each of its transitions, slacks are one
/// for each of its places, and transitions, the ends of entries, the places of a circuit, and the
/// transitions and places of a round are among its own. Rounds are a list for each part with a
/// circuit, and none of these lists is empty. A line of a monitor has no line feed. A refusal is
/// not want of memory.
///
/// `OutOfMemory` comes only where no memory is found. It takes time of the order of the text.
pub fn report(alloc: Global, net: Option<&Net>, answer: &Answer<'_>) -> Result<Vec<u8>, OutOfMemory>
    requires { IsAbout (option_copied net) (meant answer.now) }
    // The bytes are the text of the answer.
    ensures text { IfOk result (λ text. text.items ≡ text_of (option_copied net.entry)
        (meant answer.now)) }
    // The answer is told: the net keeps its rules, and its numbers have the bits of their types.
    ensures told { IfOk result (λ _. IsPlain (meant answer.now)
        → IsAnswerTold (option_copied net.entry) (meant answer.now)) }
    // The answer is read back from its bytes, by the names of its net: so answers with the same
    // bytes are one.
    ensures read_back { IfOk result (λ text. IsPlain (meant answer.now) →
        IsReadFrom (option_copied net.entry) (meant answer.now) text.items) }
{
    know_rules(net);
    text(alloc, net, answer)
}

/// The bytes of two answers about one net, each told with the net or without it. Where the answers
/// differ, so do the bytes.
///
/// `OutOfMemory` comes only where no memory is found. It takes time of the order of the texts.
pub fn report_both(
    alloc: Global,
    first_net: Option<&Net>,
    first: &Answer<'_>,
    second_net: Option<&Net>,
    second: &Answer<'_>,
) -> Result<(Vec<u8>, Vec<u8>), OutOfMemory>
    requires one_net { AreOfOneNet (option_copied first_net) (option_copied second_net) }
    requires first { IsAbout (option_copied first_net) (meant first.now) }
    requires second { IsAbout (option_copied second_net) (meant second.now) }
    ensures first { IfOk result (λ texts. texts.0.items
        ≡ text_of (option_copied first_net.entry) (meant first.now)) }
    ensures second { IfOk result (λ texts. texts.1.items
        ≡ text_of (option_copied second_net.entry) (meant second.now)) }
    // Different answers have different bytes.
    ensures different { IfOk result
        (λ texts. IsPlain (meant first.now) → IsPlain (meant second.now) →
        texts.0.items ≡ texts.1.items → meant first.now ≡ meant second.now) }
{
    let one = report(alloc, first_net, first)?;
    let two = report(alloc, second_net, second)?;
    Ok((one, two))
}
