//! Whether a part is the first of greatest ratio among the answers of parts.
ghost use Rattle.std.specs.Prelude.{◌≡◌, ◌↔◌, All, IsTrue, Some, None};
ghost use Rattle.teg_net.specs.GreatestRatios.{ratio_in, IsFirstGreatest};
ghost use Rattle.teg_certificates.specs.Checks.{IsNotAbove, IsBelow};

use crate::best_ratios::ratio_of;
use std::cmp::Ordering;
use teg_net::{PartAnswer, Ratio};

// Whether the answer tells no ratio above this one.
fn is_not_above(ratio: Ratio, answer: &PartAnswer) -> bool
    ensures { IsTrue result ↔ IsNotAbove ratio answer.now }
{
    match ratio_of(answer) {
        None => true,
        Some(told) => told.compare(&ratio) != Ordering::Greater,
    }
}

// Whether the answer tells no ratio, or one below this one.
fn is_below(ratio: Ratio, answer: &PartAnswer) -> bool
    ensures { IsTrue result ↔ IsBelow ratio answer.now }
{
    match ratio_of(answer) {
        None => true,
        Some(told) => told.compare(&ratio) == Ordering::Less,
    }
}

// Whether no answer tells a ratio above this one.
fn none_above(ratio: Ratio, answers: &[PartAnswer]) -> bool
    ensures { IsTrue result ↔ All (IsNotAbove ratio) answers.now }
{
    answers.iter().all(|answer| is_not_above(ratio, answer))
}

// Whether each ratio that is told is below this one.
fn all_below(ratio: Ratio, answers: &[PartAnswer]) -> bool
    ensures { IsTrue result ↔ All (IsBelow ratio) answers.now }
{
    answers.iter().all(|answer| is_below(ratio, answer))
}

// Whether no answer tells a ratio.
fn none_told(answers: &[PartAnswer]) -> bool
    ensures { IsTrue result ↔ All (λ a. ratio_in a ≡ None) answers.now }
{
    answers.iter().all(|answer| ratio_of(answer).is_none())
}

// Whether the part of this number is the first of greatest ratio.
fn is_first(answers: &[PartAnswer], part: usize) -> bool
    ensures { IsTrue result ↔ IsFirstGreatest answers.now (Some part) }
{
    if answers.len() <= part {
        return false;
    }
    match ratio_of(&answers[part]) {
        None => false,
        Some(ratio) => none_above(ratio, answers) && all_below(ratio, &answers[..part]),
    }
}

// Whether the part that is named is the first of greatest ratio; none where no part has a circuit.
pub(crate) fn is_first_best(answers: &[PartAnswer], best: Option<u32>) -> bool
    ensures { IsTrue result ↔ IsFirstGreatest answers.now best }
{
    match best {
        None => none_told(answers),
        Some(part) => is_first(answers, part as usize),
    }
}
