//! The text of an answer: the bound with the number and the period of the shortest settled form, or
//! why there is none.
ghost use Rattle.std.specs.Prelude.{◌≡◌, ◌++◌, [], IfOk, string_bytes};
ghost use Rattle.teg_text.specs.Lines.{line_then, written};
ghost use Rattle.teg_bound.specs.BoundTexts.{BoundTold, told_bound, bound_line, bound_lines, AreNumbersIn, IsCause, TextsOfBoundsDiffer};

use crate::bound::BoundAnswer;
use std::alloc::{AllocError, Global};
use teg_net::OutOfMemory;
use teg_text::push_settled;

// Appends the line of a bound.
fn push_bound(text: &mut String, number: u128) -> Result<(), AllocError>
    ensures { IfOk result (λ _. string_bytes text.new ≡ string_bytes text.old ++ line_then
        (bound_line number) []) }
{
    write!(text, "bound {number}\n")
}

// The two lines of a bound.
fn two_lines(alloc: Global, number: u128, after: u64, period: u64) -> Result<String, AllocError>
    ensures { IfOk result (λ text. string_bytes text ≡ written
        (bound_lines (BoundTold number after period))) }
{
    let mut text = String::new(alloc);
    push_bound(&mut text, number)?;
    push_settled(&mut text, after, period)?;
    Ok(text)
}

/// The text of a bound, with the number past which the shortest settled form goes on and its
/// period: a line of each. `OutOfMemory` comes only where no memory is found.
pub fn bound_text(
    alloc: Global,
    number: u128,
    after: u64,
    period: u64,
) -> Result<String, OutOfMemory>
    ensures text { IfOk result (λ text. string_bytes text
        ≡ written (bound_lines (BoundTold number after period))) }
    ensures told { IfOk result (λ _. AreNumbersIn (BoundTold number after period)) }
{
    Ok(two_lines(alloc, number, after, period)?)
}

// The line of an answer that tells no bound.
fn cause_line(answer: &BoundAnswer) -> &'static str
    requires { IsCause answer.now }
    ensures { result.now ≡ written (bound_lines (told_bound answer.now 0 0)) }
{
    match answer {
        BoundAnswer::Bound { .. } => unreachable!(),
        BoundAnswer::HasInputs => "no bound: has inputs\n",
        BoundAnswer::NoPlace => "no bound: no place\n",
        BoundAnswer::NotStrong => "no bound: not strongly connected\n",
        BoundAnswer::ReadyDates => "no bound: ready dates\n",
    }
}

/// The text of an answer that tells no bound: one line with the cause. `OutOfMemory` comes only
/// where no memory is found.
pub fn no_bound_text(alloc: Global, answer: &BoundAnswer) -> Result<String, OutOfMemory>
    requires { IsCause answer.now }
    ensures { IfOk result (λ text. string_bytes text ≡ written
        (bound_lines (told_bound answer.now 0 0))) }
{
    let mut text = String::new(alloc);
    text.push_str(cause_line(answer))?;
    Ok(text)
}

/// The law that different answers have different texts. It does nothing when it runs.
pub fn texts_of_bounds_differ()
    ensures { TextsOfBoundsDiffer }
{}
