//! Policy iteration on one part of a net: its answer alone, or with the rounds that led to it.
ghost use Rattle.std.specs.Prelude.{◌≡◌, ◌≢◌, IfOk};
ghost use Rattle.teg_net.specs.PartAnswers.{IsPartAnswer};
ghost use Rattle.teg_check.specs.Ranks.{IsRanking};
ghost use Rattle.teg_parts.specs.Partitions.{AreParts};
ghost use Rattle.policy_rounds.specs.PolicyRounds.{IsPolicyRun};
ghost use Rattle.teg_howard.specs.RoundStates.{HasCircuit};
ghost use Rattle.policy_rounds.specs.RunAnswers.{IsAnswerOfLast, EndsRun, KeepsLimits};
ghost use Rattle.teg_howard.specs.PolicyRuns.{HasInnerPlace, AllRise, RiseByCase};

use crate::iteration::{answer_after, last_answer, policy_run};
use std::alloc::Global;
use teg_check::Live;
use teg_net::{Net, OutOfMemory, PartAnswer, Round};
use teg_parts::Parts;

// The number of each transition's part, where a circuit lies in the part.
fn numbers_of(net: &Net, live: &Live, parts: &Parts, part: u32) -> Result<Vec<u32>, OutOfMemory>
    requires live { IsRanking net.now live.now }
    requires parts { AreParts net.now parts.now }
    requires circuit { HasInnerPlace net.now parts.now.part_of part }
    ensures same { IfOk result (λ numbers. numbers.items ≡ parts.now.part_of) }
    ensures circuit { IfOk result (λ numbers. HasCircuit net.now numbers.items part) }
{
    let _ranks = live;
    net.rules();
    let numbers = parts.numbers()?;
    Ok(numbers)
}

/// The greatest ratio of a part that has a circuit (chapter 3), by policy iteration (Howard's
/// algorithm), and the rounds that led to it.
///
/// The rounds are the policy run of the part: each follows from the one before, no place improves
/// the last, and in each step the pair of ratio and sum of potentials rises: the ratio where a
/// better circuit is found, and else the sum. A part has one policy run only. The answer has the
/// last round's ratio, in the user's unit for a token, its circuit, and its potentials, in the
/// user's unit times the tokens of the ratio. Values stand for the net. A round takes time of order
/// n p at most, for n transitions and p places. `OutOfMemory` comes only where no memory is found.
pub fn howard(
    alloc: Global,
    net: &Net,
    live: &Live,
    parts: &Parts,
    part: u32,
) -> Result<(PartAnswer, Vec<Round>), OutOfMemory>
    requires live { IsRanking net.now live.now }
    requires parts { AreParts net.now parts.now }
    requires circuit { HasInnerPlace net.now parts.now.part_of part }
    ensures run { IfOk result (λ w. IsPolicyRun net.now parts.now.part_of part w.1.items) }
    ensures best { IfOk result (λ w. IsPartAnswer net.now parts.now.part_of part w.0) }
    ensures answer { IfOk result (λ w. IsAnswerOfLast w.1.items w.0) }
    ensures limits { IfOk result (λ w. KeepsLimits w.0) }
    ensures rises { IfOk result (λ w. AllRise w.1.items) }
    ensures cases { IfOk result (λ w. RiseByCase net.now parts.now.part_of part w.1.items) }
{
    let part_of = numbers_of(net, live, parts, part)?;
    let run = policy_run(alloc, net, &part_of, part)?;
    Ok(run)
}

/// The greatest ratio of a part that has a circuit, as `howard` gives it (chapter 3), with its
/// units and in its time. One round is kept at a time: the answer is that of the last of the part's
/// policy run. `OutOfMemory` comes only where no memory is found.
pub fn last_round(
    alloc: Global,
    net: &Net,
    live: &Live,
    parts: &Parts,
    part: u32,
) -> Result<PartAnswer, OutOfMemory>
    requires live { IsRanking net.now live.now }
    requires parts { AreParts net.now parts.now }
    requires circuit { HasInnerPlace net.now parts.now.part_of part }
    ensures best { IfOk result (λ answer. IsPartAnswer net.now parts.now.part_of part answer) }
    ensures run { IfOk result (λ answer. EndsRun net.now parts.now.part_of part answer) }
    ensures limits { IfOk result (λ answer. KeepsLimits answer) }
{
    let part_of = numbers_of(net, live, parts, part)?;
    let answer = last_answer(alloc, net, &part_of, part)?;
    Ok(answer)
}

/// The greatest ratio of a part that has a circuit, as `last_round` gives it (chapter 3), by rounds
/// that begin with what an earlier answer tells: after a small change of the net they are few.
///
/// To begin with, each member takes the place of the part that lifts it the most by the ratio and
/// the potentials of `before`; where `before` is `NoCircuit`, its lowest numbered one. So `before`
/// may be an answer on any part of any net: ratio and potentials are right whatever it tells, and of
/// circuits of this ratio another may be named than by `last_round`. `OutOfMemory` comes only where
/// no memory is found.
pub fn last_round_from(
    alloc: Global,
    net: &Net,
    live: &Live,
    parts: &Parts,
    part: u32,
    before: &PartAnswer,
) -> Result<PartAnswer, OutOfMemory>
    requires live { IsRanking net.now live.now }
    requires parts { AreParts net.now parts.now }
    requires circuit { HasInnerPlace net.now parts.now.part_of part }
    ensures best { IfOk result (λ answer. IsPartAnswer net.now parts.now.part_of part answer) }
    ensures told { IfOk result (λ answer. answer ≢ PartAnswer.NoCircuit) }
    ensures limits { IfOk result (λ answer. KeepsLimits answer) }
{
    let part_of = numbers_of(net, live, parts, part)?;
    let answer = answer_after(alloc, net, &part_of, part, before)?;
    Ok(answer)
}
