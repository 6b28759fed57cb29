//! The text of `teg cycle --rounds`, which shows what it tells.
ghost use Rattle.std.specs.Prelude.{All, IfOk, IfSome, IsTrue};
ghost use Rattle.policy_rounds.specs.RunAnswers.{KeepsLimits};
ghost use Rattle.round_check.specs.ShownRounds.{IsShownRounds};

use crate::others::first_other;
use crate::runs::{is_circuit_ratio, is_small};
use crate::told::told_in;
use std::alloc::Global;
use teg_net::{CycleAnswer, Net, OutOfMemory, PartAnswer, Ratio};

// Whether the answer of a part keeps the limits of circuits.
fn keeps_limits(part: &PartAnswer) -> bool
    ensures { IsTrue result → KeepsLimits part.now }
{
    match part {
        PartAnswer::NoCircuit => true,
        PartAnswer::Best {
            ratio,
            potentials,
            ..
        } => { is_circuit_ratio(*ratio) && potentials.iter().all(|told| is_small(told.value)) }
    }
}

// Whether the answer of each part does.
fn keep_limits(answer: &CycleAnswer) -> bool
    ensures { IsTrue result → All KeepsLimits answer.now.parts.items }
{
    answer.parts.iter().all(|part| keeps_limits(part))
}

/// The ratio that the text of `teg cycle --rounds` tells in its first line, where the net is seen to
/// be live and the text to tell its cycle times and the rounds that lead to them (chapter 3;
/// Howard's algorithm, of which the book has none). The whole text is looked at: what stands before
/// the rounds is shown as by `shown_times` of `pace_check`; and of each part with a circuit, in
/// order, the rounds are its policy run ([`check_run`](crate::check_run)), whose last one has the
/// part's ratio, circuit and potentials. So it is known which circuit is named, too. It takes the
/// time of both. `OutOfMemory` comes only where no memory is found.
pub fn shown_rounds(alloc: Global, net: &Net, text: &str) -> Result<Option<Ratio>, OutOfMemory>
    ensures { IfOk result (λ r. IfSome r (IsShownRounds net.now text.now)) }
{
    let Some(told) = told_in(alloc, net, text)? else {
        return Ok(None);
    };
    if !keep_limits(&told.answer) {
        return Ok(None);
    }
    match first_other(alloc, net, &told.answer, &told.runs)? {
        Some(_) => Ok(None),
        None => Ok(Some(told.ratio)),
    }
}
