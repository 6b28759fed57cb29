//! The cycle time of a net and of its parts, from an earlier answer on.
ghost use Rattle.std.specs.Prelude.{◌≡◌, ◌<◌, All, length, IfOk};
ghost use Rattle.teg_net.specs.PartAnswers.{IsPartAnswer, ArePartAnswers};
ghost use Rattle.teg_net.specs.GreatestRatios.{IsFirstGreatest, IsCycleTime};
ghost use Rattle.teg_net.specs.Certificates.{IsCertificate, IsPartCertificate};
ghost use Rattle.teg_check.specs.Ranks.{IsRanking};
ghost use Rattle.teg_parts.specs.Partitions.{AreParts};
ghost use Rattle.policy_rounds.specs.RunAnswers.{KeepsLimits};

use crate::cycle_time::{gathered, keep};
use std::alloc::Global;
use teg_check::Live;
use teg_howard::last_round_from;
use teg_net::{CycleAnswer, Net, OutOfMemory, PartAnswer};
use teg_parts::Parts;

// The answer of one part, by rounds that begin with what an earlier answer tells of the part of
// this number.
fn part_answer_from(
    alloc: Global,
    net: &Net,
    live: &Live,
    parts: &Parts,
    part: u32,
    before: &CycleAnswer,
) -> Result<PartAnswer, OutOfMemory>
    requires live { IsRanking net.now live.now }
    requires parts { AreParts net.now parts.now }
    requires part { part < length parts.now.inner }
    ensures answer { IfOk result (λ a. IsPartAnswer net.now parts.now.part_of part a) }
    ensures certificate { IfOk result (λ a. IsPartCertificate net.now parts.now.part_of part a) }
    ensures limits { IfOk result (λ a. KeepsLimits a) }
{
    if !parts.has_circuit(part) {
        return Ok(PartAnswer::NoCircuit);
    }
    let untold = PartAnswer::NoCircuit;
    let told = before.parts.get(part as usize).unwrap_or(&untold);
    let answer = last_round_from(alloc, net, live, parts, part, told)?;
    Ok(answer)
}

/// The cycle times as `cycle` gives them (chapters 2 and 3), with its limits, by rounds that begin
/// with what an earlier answer tells: after a change of a holding time or of a number of tokens they
/// are few.
///
/// `before` is an answer on the net before the change, or any other: each ratio, each potential and
/// `best` are right whatever it tells. Each member of a part takes to begin with the place that
/// lifts it the most by the ratio and the potentials that `before` tells of the part of this number,
/// and not its lowest numbered one; so where several circuits of a part have its greatest ratio,
/// another of them may be named than by `cycle`. For each part with a circuit it takes the time of
/// `last_round_from` of `teg_howard`. It answers `OutOfMemory` only where no memory is found.
pub fn cycle_from(
    alloc: Global,
    net: &Net,
    live: &Live,
    parts: &Parts,
    before: &CycleAnswer,
) -> Result<CycleAnswer, OutOfMemory>
    requires live { IsRanking net.now live.now }
    requires parts { AreParts net.now parts.now }
    ensures part_of { IfOk result (λ a. a.part_of.items ≡ parts.now.part_of) }
    ensures count { IfOk result (λ a. length a.parts.items ≡ length parts.now.inner) }
    ensures parts { IfOk result (λ a. ArePartAnswers net.now parts.now.part_of a.parts.items) }
    ensures limits { IfOk result (λ a. All KeepsLimits a.parts.items) }
    ensures best { IfOk result (λ a. IsFirstGreatest a.parts.items a.best) }
    ensures net { IfOk result (λ a. IsCycleTime net.now a.parts.items a.best) }
    ensures certificate { IfOk result (λ a. IsCertificate net.now a) }
{
    net.rules();
    let part_of = parts.numbers()?;
    let mut answers = Vec::new(alloc);
    for part in 0..parts.count() {
        let answer = part_answer_from(alloc, net, live, parts, part, before)?;
        keep(&mut answers, answer)?;
    }
    Ok(gathered(net, parts, part_of, answers))
}
