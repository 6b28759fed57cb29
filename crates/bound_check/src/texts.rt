//! The texts of a bound and of why there is none.
ghost use Rattle.std.specs.Prelude.{◌≡◌, ◌++◌, ◌∷◌, [], IfOk, codes, string_bytes};
ghost use Rattle.std.specs.Fmt.{decimal};
ghost use Rattle.teg_text.specs.Lines.{line_then, written};
ghost use Rattle.bound_check.specs.ShownBounds.{number_lines, words_of_cause};

use crate::cause::WhyNone;
use std::alloc::{AllocError, Global};
use teg_text::push_settled;

// Appends the line of a bound.
fn push_number(text: &mut String, number: u128) -> Result<(), AllocError>
    ensures { IfOk result (λ _. string_bytes text.new ≡ string_bytes text.old
        ++ line_then (codes "bound" ∷ decimal number ∷ []) []) }
{
    write!(text, "bound {number}\n")
}

// The text of a bound, with the number and the period of a form.
pub(crate) fn number_text(
    alloc: Global,
    number: u128,
    after: u64,
    period: u64,
) -> Result<String, AllocError>
    ensures { IfOk result (λ text. string_bytes text ≡ written (number_lines number after period)) }
{
    let mut text = String::new(alloc);
    push_number(&mut text, number)?;
    push_settled(&mut text, after, period)?;
    Ok(text)
}

// The text of a cause.
pub(crate) fn cause_text(cause: WhyNone) -> &'static str
    ensures { result.now ≡ written (words_of_cause cause ∷ []) }
{
    match cause {
        WhyNone::HasInputs => "no bound: has inputs\n",
        WhyNone::NoPlace => "no bound: no place\n",
        WhyNone::NotStrong => "no bound: not strongly connected\n",
        WhyNone::ReadyDates => "no bound: ready dates\n",
    }
}
