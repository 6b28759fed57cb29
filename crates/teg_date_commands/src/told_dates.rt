//! The text of the dates of a net, from the rows of the search: with no other table of them.
ghost use Rattle.std.specs.Prelude.{◌≡◌, ◌++◌, ◌∷◌, ◌<◌, ◌^◌, [], All, IfOk, length, string_bytes};
ghost use Rattle.std.specs.Int.RustNames.{unsigned_abs};
ghost use Rattle.settled_laws.specs.SettledForms.{row_of, step_of_form};
ghost use Rattle.teg_report.specs.SettledTexts.{IsSettledKept, row_words, settled_line, settled_lines};
ghost use Rattle.teg_text.specs.Lines.{further_then, line_then, written};
ghost use Rattle.teg_text.specs.ValueWords.{IsDate};
ghost use Rattle.teg_text.specs.WordsOfNames.{name_of_transition};

use dioid::Date;
use std::alloc::{AllocError, Global};
use teg_net::{Net, OutOfMemory, TransitionId};
use teg_settle::SettledDates;
use teg_text::push_dates;

// The dates of this transition from number 1 to the end of the first period.
fn dates_of(
    alloc: Global,
    settled: &SettledDates,
    transition: TransitionId,
) -> Result<Vec<Date>, AllocError>
    requires { transition.index < length settled.now.rows }
    ensures { IfOk result (λ dates. dates.items ≡ row_of settled.now transition.index) }
{
    let after = settled.after();
    let period = settled.period();
    let count = after + period;
    let mut dates = Vec::with_capacity(alloc, count as usize)?;
    for number in 0..count {
        dates.push(settled.date(transition, number + 1))?;
    }
    Ok(dates)
}

// Begins a line with a word and the name of a transition.
fn begin_row(
    text: &mut String,
    net: &Net,
    word: &str,
    transition: TransitionId,
) -> Result<(), AllocError>
    requires { transition.index < length net.now.transitions }
    ensures { IfOk result (λ _. string_bytes text.new ≡
        string_bytes text.old ++ (word.now ++ 32 ∷ name_of_transition net.now transition)) }
{
    let name = net.transitions()[transition.index as usize].name.as_str();
    write!(text, "{word} {name}")
}

// Ends a line with dates and the step by which they go on.
fn end_row(text: &mut String, dates: &[Date], step: i128) -> Result<(), AllocError>
    ensures text { IfOk result (λ _. string_bytes text.new ≡
        string_bytes text.old ++ further_then (row_words dates.now step) []) }
    ensures dates { IfOk result (λ _. All IsDate dates.now) }
    ensures step { unsigned_abs step < 2 ^ 128 }
{
    push_dates(text, dates)?;
    write!(text, " step {step}\n")?;
    Ok(())
}

// Appends the line of the transition of this number, counted from 0.
fn push_line(
    alloc: Global,
    text: &mut String,
    net: &Net,
    settled: &SettledDates,
    index: usize,
) -> Result<(), AllocError>
    requires index { index < length net.now.transitions }
    requires full { length settled.now.rows ≡ length net.now.transitions }
    ensures text { IfOk result (λ _. string_bytes text.new ≡
        string_bytes text.old ++ line_then (settled_line net.now settled.now index) []) }
    ensures dates { IfOk result (λ _. All IsDate (row_of settled.now index)) }
    ensures step { IfOk result (λ _. unsigned_abs (step_of_form settled.now index) < 2 ^ 128) }
{
    // The rules of the net, by which its transitions are few.
    net.rules();
    let transition = TransitionId {
        index: index as u32,
    };
    let dates = dates_of(alloc, settled, transition)?;
    let step = settled.step(transition);
    begin_row(text, net, "transition", transition)?;
    end_row(text, dates.as_slice(), step)?;
    Ok(())
}

// Past which number the dates of a net go on, and in how many numbers by a step; then the dates of
// each transition up to there, of one at a time.
pub(crate) fn dates_text(
    alloc: Global,
    net: &Net,
    settled: &SettledDates,
) -> Result<Vec<u8>, OutOfMemory>
    requires { length settled.now.rows ≡ length net.now.transitions }
    ensures text { IfOk result (λ text. text.items ≡ written (settled_lines net.now settled.now)) }
    ensures kept { IfOk result (λ _. IsSettledKept settled.now) }
{
    let after = settled.after();
    let period = settled.period();
    let mut text = format!(in alloc; "settled after {after} period {period}\n")?;
    for index in 0..net.transitions().len() {
        push_line(alloc, &mut text, net, settled, index)?;
    }
    Ok(text.into_bytes())
}
