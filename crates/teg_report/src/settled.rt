//! The texts of settled forms: those of the dates of a net, and those of walks from its inputs to
//! its outputs.
ghost use Rattle.std.specs.Prelude.{◌≡◌, ◌++◌, ◌∷◌, ◌<◌, ◌^◌, [], All, IfOk, length, map, string_bytes};
ghost use Rattle.std.specs.Int.RustNames.{unsigned_abs};
ghost use Rattle.settled_forms.specs.settled_laws.SettledForms.{row_of, step_of_form};
ghost use Rattle.teg_report.specs.AnswerMeanings.{times_from, times_to};
ghost use Rattle.teg_report.specs.SettledTexts.{AreTimesIn, AreTimesKept, AreTimesToKept, IsSettledKept, from_line, from_lines, output_count, row_words, settled_line, settled_lines, to_line, transfer_lines};
ghost use Rattle.teg_lines.specs.Widths.{IsWord64};
ghost use Rattle.teg_text.specs.Lines.{further_then, line_then, written};
ghost use Rattle.teg_text.specs.WordsOfNames.{name_of_transition};
ghost use Rattle.teg_text.specs.ValueWords.{IsDate};

use crate::answer::{TransferFrom, TransferLine};
use dioid::Date;
use settled_forms::Settled;
use std::alloc::{AllocError, Global};
use teg_lines::{LineOf, push_each};
use teg_net::{Net, OutOfMemory, Role, TransitionId};
use teg_text::push_dates;

// Ends a line with dates and the step by which they go on.
fn end_row(text: &mut String, dates: &[Date], step: i128) -> Result<(), AllocError>
    ensures text { IfOk result (λ _. string_bytes text.new ≡
        string_bytes text.old ++ further_then (row_words dates.now step) []) }
    ensures dates { IfOk result (λ _. All IsDate dates.now) }
    ensures step { unsigned_abs step < 2 ^ 128 }
{
    push_dates(text, dates)?;
    write!(text, " step {step}\n")?;
    Ok(())
}

// Begins a line with a word and the name of a transition.
fn begin_row(
    text: &mut String,
    net: &Net,
    word: &str,
    transition: TransitionId,
) -> Result<(), AllocError>
    requires { transition.index < length net.now.transitions }
    ensures { IfOk result (λ _. string_bytes text.new ≡
        string_bytes text.old ++ (word.now ++ 32 ∷ name_of_transition net.now transition)) }
{
    let name = net.transitions()[transition.index as usize].name.as_str();
    write!(text, "{word} {name}")
}

// Appends the line of the transition of this number, counted from 0.
fn push_row(text: &mut String, net: &Net, settled: &Settled, index: usize) -> Result<(), AllocError>
    requires index { index < length net.now.transitions }
    requires full { length settled.now.rows ≡ length net.now.transitions }
    ensures text { IfOk result (λ _. string_bytes text.new ≡
        string_bytes text.old ++ line_then (settled_line net.now settled.now index) []) }
    ensures dates { IfOk result (λ _. All IsDate (row_of settled.now index)) }
    ensures step { IfOk result (λ _. unsigned_abs (step_of_form settled.now index) < 2 ^ 128) }
{
    // The rules of the net, by which its transitions are few.
    net.rules();
    let transition = TransitionId {
        index: index as u32,
    };
    begin_row(text, net, "transition", transition)?;
    end_row(text, settled.row(transition), settled.step(transition))?;
    Ok(())
}

// Past which number the dates of a net go on, and in how many numbers by a step; then the dates of
// each transition up to there.
pub(crate) fn dates(alloc: Global, net: &Net, settled: &Settled) -> Result<Vec<u8>, OutOfMemory>
    requires { length settled.now.rows ≡ length net.now.transitions }
    ensures text { IfOk result (λ text. text.items ≡ written (settled_lines net.now settled.now)) }
    ensures kept { IfOk result (λ _. IsSettledKept settled.now) }
{
    let after = settled.after();
    let period = settled.period();
    let mut text = format!(in alloc; "settled after {after} period {period}\n")?;
    for index in 0..net.transitions().len() {
        push_row(&mut text, net, settled, index)?;
    }
    Ok(text.into_bytes())
}

// Appends the line of an output.
fn push_to(text: &mut String, net: &Net, line: &TransferLine) -> Result<(), AllocError>
    requires { line.now.to.index < length net.now.transitions }
    ensures text { IfOk result (λ _. string_bytes text.new ≡
        string_bytes text.old ++ line_then (to_line net.now (times_to line.now)) []) }
    ensures kept { IfOk result (λ _. AreTimesToKept (times_to line.now)) }
{
    begin_row(text, net, "to", line.to)?;
    end_row(text, &line.dates, line.step)?;
    Ok(())
}

// The line of the times to an output.
struct ToLine;

impl LineOf<TransferLine> for ToLine {
    ghost line = { λ net line. to_line net (times_to line) };

    ghost is_there = { λ net line. line.to.index < length net.transitions };

    ghost is_kept = { λ line. AreTimesToKept (times_to line) };

    fn push(line: &TransferLine, text: &mut String, net: &Net) -> Result<(), AllocError> {
        push_to(text, net, line)
    }
}

// Appends the first line of an input.
fn push_from_line(text: &mut String, net: &Net, from: &TransferFrom) -> Result<(), AllocError>
    requires { from.now.from.index < length net.now.transitions }
    ensures text { IfOk result (λ _. string_bytes text.new ≡
        string_bytes text.old ++ line_then (from_line net.now (times_from from.now)) []) }
    ensures after { IfOk result (λ _. IsWord64 from.now.after) }
    ensures period { IfOk result (λ _. IsWord64 from.now.period) }
{
    let name = net.transitions()[from.from.index as usize].name.as_str();
    let after = from.after;
    let period = from.period;
    write!(text, "from {name} settled after {after} period {period}\n")
}

// Appends the lines of an input.
fn push_from(text: &mut String, net: &Net, from: &TransferFrom) -> Result<(), AllocError>
    requires { AreTimesIn net.now (times_from from.now) }
    ensures text { IfOk result (λ _. string_bytes text.new ≡
        string_bytes text.old ++ written (from_lines net.now (times_from from.now))) }
    ensures kept { IfOk result (λ _. AreTimesKept (times_from from.now)) }
{
    push_from_line(text, net, from)?;
    push_each::<TransferLine, ToLine>(text, net, &from.lines)?;
    Ok(())
}

// How many outputs the net has.
fn outputs(net: &Net) -> usize
    ensures { result ≡ output_count net.now }
{
    net.transitions()
        .iter()
        .filter(|transition| transition.role == Role::Output)
        .count()
}

// How many inputs and outputs there are, and then the lines of each input.
pub(crate) fn transfer(
    alloc: Global,
    net: &Net,
    inputs: &[TransferFrom],
) -> Result<Vec<u8>, OutOfMemory>
    requires { All (AreTimesIn net.now) (map times_from inputs.now) }
    ensures text { IfOk result (λ text. text.items ≡ written
        (transfer_lines net.now (map times_from inputs.now))) }
    ensures kept { IfOk result (λ _. All AreTimesKept (map times_from inputs.now)) }
{
    let count = inputs.len();
    let outputs = outputs(net);
    let mut text = format!(in alloc; "transfer of {count} inputs to {outputs} outputs\n")?;
    for from in inputs {
        push_from(&mut text, net, from)?;
    }
    Ok(text.into_bytes())
}
