//! The text of the times from the inputs of a live net to its outputs, one input after another.
ghost use Rattle.std.specs.Prelude.{◌≡◌, ◌≤◌, ◌<◌, ◌++◌, [], All, IfErr, IfOk, drop, length, string_bytes};
ghost use Rattle.teg_lags.specs.Lags.{AreLeaving};
ghost use Rattle.walks_by_ends.specs.EndForms.{AreEndsOf};
ghost use Rattle.teg_net.specs.declared.entries.Role.TheVariants.{Input, Output};
ghost use Rattle.teg_net.specs.Nets.{IsInput};
ghost use Rattle.teg_report.specs.AnswerMeanings.{times_from};
ghost use Rattle.teg_report.specs.SettledTexts.{AreTimesIn, AreTimesKept, from_lines, output_count, transfer_line};
ghost use Rattle.teg_report.specs.teg_text.Lines.{line_then, written};
ghost use Rattle.teg_settle.specs.LimitRefusals.{IsRightSettleRefusal, greatest_limit};
ghost use Rattle.teg_transfer.specs.TimesFromInputs.{TimesSettlePast, those_of_role};
ghost use Rattle.teg_transfer.specs.TransferTexts.{AreInputTimes, AreToldBehind, IsToldBehind, IsTransferText};

use crate::transfer::{Asked, keep, next_times, those_of_role};
use std::alloc::{AllocError, Global};
use std::slice;
use teg_check::LiveNet;
use teg_lags::lag_between;
use teg_net::{Net, OutOfMemory, PlaceEnd, PlacesOf, Role, TransitionId};
use teg_report::{Answer, TransferFrom, report};
use teg_settle::SettleRefusal;
use walks_by_ends::Ends;

// How many outputs the net has.
fn count_outputs(net: &Net) -> usize
    ensures { result ≡ output_count net.now }
{
    net.transitions()
        .iter()
        .filter(|transition| transition.role == Role::Output)
        .count()
}

// The first line: how many inputs and outputs there are.
fn head(alloc: Global, net: &Net, inputs: usize) -> Result<String, AllocError>
    ensures { IfOk result (λ text. string_bytes text
        ≡ line_then (transfer_line inputs (output_count net.now)) []) }
{
    let outputs = count_outputs(net);
    format!(in alloc; "transfer of {inputs} inputs to {outputs} outputs\n")
}

// What stands in a text behind its first bytes, as many as these.
fn behind<'a>(text: &'a [u8], first: &[u8]) -> &'a [u8]
    requires { length first.now ≤ length text.now }
    ensures { result.now ≡ drop (length first.now) text.now }
{
    &text[first.len()..]
}

// Appends the lines of the times from an input: what is told of them alone, but for its first line.
fn push_times(
    alloc: Global,
    text: &mut Vec<u8>,
    net: &Net,
    times: &TransferFrom,
) -> Result<(), OutOfMemory>
    requires { AreTimesIn net.now (times_from times.now) }
    ensures text { IfOk result (λ _. text.new.items ≡
        text.old.items ++ written (from_lines net.now (times_from times.now))) }
    ensures kept { IfOk result (λ _. AreTimesKept (times_from times.now)) }
{
    let inputs = slice::from_ref(times);
    let alone = report(alloc, Some(net), &Answer::Transfer { inputs })?;
    let first = head(alloc, net, 1)?;
    let lines = behind(alone.as_slice(), first.as_bytes());
    text.extend_from_slice(lines)?;
    Ok(())
}

// Whether from one of these inputs all is held so much longer than from this one.
fn is_asked_again(
    net: &Net,
    leaving: &PlacesOf,
    input: TransitionId,
    later: &[TransitionId],
) -> bool
    requires leaving { AreLeaving net.now leaving.now }
    requires input { input.index < length net.now.transitions }
    requires later { All (λ t. t.index < length net.now.transitions) later.now }
{
    for other in later {
        if lag_between(net, leaving, input, *other).is_some() {
            return true;
        }
    }
    false
}

// The text so far, and the times that are asked for again.
#[derive(Drop)]
struct Told {
    text: Vec<u8>,
    kept: Vec<TransferFrom>,
    ends: Ends,
}

// The text with the times from one input more. They are kept where they are its own and a later
// input asks for them.
fn tell_next(
    alloc: Global,
    net: &LiveNet,
    asked: &Asked,
    told: Told,
    input: TransitionId,
    later: &[TransitionId],
) -> Result<Told, SettleRefusal>
    requires input { IsInput net.now input.index }
    requires later { All (λ t. t.index < length net.now.transitions) later.now }
    requires outputs { asked.now.outputs.items ≡ those_of_role net.now Output }
    requires leaving { AreLeaving net.now asked.now.leaving }
    requires limit { asked.now.limit ≤ greatest_limit }
    requires kept { AreInputTimes net.now asked.now.limit told.kept.items }
    requires ends { AreEndsOf net.now told.ends }
    ensures text { IfOk result (λ next. IsToldBehind net.now asked.now.limit input told.text.items
        next.text.items) }
    ensures kept { IfOk result (λ next. AreInputTimes net.now asked.now.limit next.kept.items) }
    ensures ends { IfOk result (λ next. AreEndsOf net.now next.ends) }
    ensures too_long { IfErr result (IsRightSettleRefusal (TimesSettlePast net.now asked.now.limit)
        asked.now.limit) }
{
    let mut told = told;
    let held = net.net();
    let next = next_times(
        alloc,
        net,
        asked,
        &mut told.ends,
        input,
        told.kept.as_slice(),
    )?;
    push_times(alloc, &mut told.text, held, &next.0)?;
    if next.1 && is_asked_again(held, &asked.leaving, input, later) {
        keep(&mut told.kept, next.0)?;
    }
    Ok(told)
}

// The text with the times from these inputs, all of the net, behind what stands there.
fn tell_all(
    alloc: Global,
    net: &LiveNet,
    asked: &Asked,
    first: Told,
    inputs: &[TransitionId],
) -> Result<Vec<u8>, SettleRefusal>
    requires inputs { inputs.now ≡ those_of_role net.now Input }
    requires outputs { asked.now.outputs.items ≡ those_of_role net.now Output }
    requires leaving { AreLeaving net.now asked.now.leaving }
    requires limit { asked.now.limit ≤ greatest_limit }
    requires none { first.kept.items ≡ [] }
    requires ends { AreEndsOf net.now first.ends }
    ensures text { IfOk result (λ text. AreToldBehind net.now asked.now.limit inputs.now
        first.text.items text.items) }
    ensures too_long { IfErr result (IsRightSettleRefusal (TimesSettlePast net.now asked.now.limit)
        asked.now.limit) }
{
    let mut told = first;
    for index in 0..inputs.len() {
        let later = &inputs[index + 1..];
        told = tell_next(alloc, net, asked, told, inputs[index], later)?;
    }
    Ok(told.text)
}

/// The text of the greatest times of walks from the first firing of each input of a live net to the
/// firings of each output: a line that counts them, and for each input its lines, which tell what
/// `transfer_times` answers. `TooLong` comes exactly where a form is longer than the limit,
/// `OutOfMemory` only where no memory is found.
///
/// It takes the time of `transfer_times` and of the text. Beside the text it holds the times from
/// one input, and those that a later one asks for, of which each date is moved.
pub fn transfer_text(alloc: Global, net: &LiveNet, limit: u32) -> Result<Vec<u8>, SettleRefusal>
    requires { limit ≤ greatest_limit }
    ensures text { IfOk result (λ text. IsTransferText net.now limit text.items) }
    ensures too_long { IfErr result (IsRightSettleRefusal (TimesSettlePast net.now limit) limit) }
{
    let inputs = those_of_role(alloc, net.net(), Role::Input)?;
    let outputs = those_of_role(alloc, net.net(), Role::Output)?;
    let leaving = PlacesOf::new(alloc, net.net(), PlaceEnd::From)?;
    let asked = Asked {
        outputs,
        leaving,
        limit,
    };
    let line = head(alloc, net.net(), inputs.len())?;
    let first = Told {
        text: line.into_bytes(),
        kept: Vec::new(alloc),
        ends: Ends::new(alloc, net.net())?,
    };
    tell_all(alloc, net, &asked, first, inputs.as_slice())
}
