//! The cycle time of a net and of its parts: the answer alone, or with the rounds that led to it.
ghost use Rattle.std.specs.Prelude.{◌≡◌, ◌<◌, ◌++◌, ◌∷◌, [], All, length, IfOk, OnOk};
ghost use Rattle.teg_net.specs.Nets.{IsNet};
ghost use Rattle.teg_net.specs.PartAnswers.{IsPartAnswer, ArePartAnswers};
ghost use Rattle.teg_net.specs.GreatestRatios.{IsFirstGreatest, IsCycleTime};
ghost use Rattle.teg_net.specs.Certificates.{IsCertificate, IsPartCertificate};
ghost use Rattle.teg_check.specs.Ranks.{IsRanking};
ghost use Rattle.teg_parts.specs.Partitions.{AreParts};
ghost use Rattle.std.specs.Option.{option_map};
ghost use Rattle.teg_certificates.specs.Checks.{ArePartCertificates};
ghost use Rattle.policy_rounds.specs.RunAnswers.{KeepsLimits};
ghost use Rattle.policy_rounds.specs.LastRounds.{IsLastOfRun, AreLastOfRuns, IsRunOf, AreRunsFrom, rounds_of_runs, some_run};

use crate::best_parts::best_number;
use std::alloc::{AllocError, Global};
use teg_check::Live;
use teg_howard::{howard, last_round};
use teg_net::{CycleAnswer, Net, OutOfMemory, PartAnswer, Round};
use teg_parts::Parts;

// The answer of one part.
fn part_answer(
    alloc: Global,
    net: &Net,
    live: &Live,
    parts: &Parts,
    part: u32,
) -> Result<PartAnswer, OutOfMemory>
    requires live { IsRanking net.now live.now }
    requires parts { AreParts net.now parts.now }
    requires part { part < length parts.now.inner }
    ensures answer { IfOk result (λ a. IsPartAnswer net.now parts.now.part_of part a) }
    ensures certificate { IfOk result (λ a. IsPartCertificate net.now parts.now.part_of part a) }
    ensures limits { IfOk result (λ a. KeepsLimits a) }
    ensures run { IfOk result (λ a. IsLastOfRun net.now parts.now.part_of part a) }
{
    if !parts.has_circuit(part) {
        return Ok(PartAnswer::NoCircuit);
    }
    let answer = last_round(alloc, net, live, parts, part)?;
    Ok(answer)
}

// The answer of one part, and the rounds that led to it where a circuit lies there.
fn part_run(
    alloc: Global,
    net: &Net,
    live: &Live,
    parts: &Parts,
    part: u32,
) -> Result<(PartAnswer, Option<Vec<Round>>), OutOfMemory>
    requires live { IsRanking net.now live.now }
    requires parts { AreParts net.now parts.now }
    requires part { part < length parts.now.inner }
    ensures answer { IfOk result (λ w. IsPartAnswer net.now parts.now.part_of part w.0) }
    ensures certificate { IfOk result (λ w. IsPartCertificate net.now parts.now.part_of part w.0) }
    ensures limits { IfOk result (λ w. KeepsLimits w.0) }
    ensures run { IfOk result (λ w. IsRunOf net.now parts.now.part_of part w.0
        (option_map (λ r. r.items) w.1)) }
{
    if !parts.has_circuit(part) {
        return Ok((PartAnswer::NoCircuit, None));
    }
    let (answer, rounds) = howard(alloc, net, live, parts, part)?;
    Ok((answer, Some(rounds)))
}

// Puts the answer at the end of the list.
pub(crate) fn keep(answers: &mut Vec<PartAnswer>, answer: PartAnswer) -> Result<(), AllocError>
    ensures { OnOk result (answers.new.items ≡ answers.old.items ++ answer ∷ []) }
{
    answers.push(answer)?;
    Ok(())
}

// Puts the rounds of a part, if it has some, at the end of the list.
fn keep_run(runs: &mut Vec<Vec<Round>>, rounds: Option<Vec<Round>>) -> Result<(), AllocError>
    ensures { OnOk result (rounds_of_runs runs.new.items ≡ rounds_of_runs runs.old.items ++ some_run
        (option_map (λ r. r.items) rounds)) }
{
    if let Some(rounds) = rounds {
        runs.push(rounds)?;
    }
    Ok(())
}

// The answer on the net that has these answers of its parts.
pub(crate) fn gathered(
    net: &Net,
    parts: &Parts,
    part_of: Vec<u32>,
    answers: Vec<PartAnswer>,
) -> CycleAnswer
    requires rules { IsNet net.now }
    requires parts { AreParts net.now parts.now }
    requires numbers { part_of.items ≡ parts.now.part_of }
    requires count { length answers.items ≡ length parts.now.inner }
    requires answers { ArePartAnswers net.now parts.now.part_of answers.items }
    requires certificates { ArePartCertificates net.now parts.now.part_of answers.items }
    ensures part_of { result.part_of.items ≡ part_of.items }
    ensures parts { result.parts.items ≡ answers.items }
    ensures best { IsFirstGreatest result.parts.items result.best }
    ensures net { IsCycleTime net.now result.parts.items result.best }
    ensures certificate { IsCertificate net.now result }
{
    let _net = net;
    let _count = parts.count();
    let best = best_number(&answers);
    CycleAnswer {
        part_of,
        parts: answers,
        best,
    }
}

/// The greatest ratio of holding time to tokens over the circuits of each part and of the net
/// (chapters 2 and 3).
///
/// Parts and order are those of `parts`. A part is `NoCircuit` exactly where no circuit lies in it.
/// Otherwise it has its greatest ratio, in the user's unit for a token, a circuit that has it, told
/// from its lowest numbered transition on, and for each member the greatest reduced time of the
/// paths in the part that lead there from where the circuit begins: a place with holding time h and
/// m tokens has the reduced time b h - a m at the ratio a/b. It is the last round of the part's
/// policy run. `best` is the first part of greatest ratio, none exactly where the net has no
/// circuit. The answer is a certificate; each ratio has a time of at most 4 x 10^11 and at most
/// 400,000 tokens, and no potential passes 4 x 10^17 in magnitude. Values stand for the net. For
/// each part with a circuit it takes the time of `last_round` of `teg_howard`. It answers
/// `OutOfMemory` only where no memory is found.
pub fn cycle(
    alloc: Global,
    net: &Net,
    live: &Live,
    parts: &Parts,
) -> Result<CycleAnswer, OutOfMemory>
    requires live { IsRanking net.now live.now }
    requires parts { AreParts net.now parts.now }
    ensures part_of { IfOk result (λ a. a.part_of.items ≡ parts.now.part_of) }
    ensures count { IfOk result (λ a. length a.parts.items ≡ length parts.now.inner) }
    ensures parts { IfOk result (λ a. ArePartAnswers net.now parts.now.part_of a.parts.items) }
    ensures runs { IfOk result (λ a. AreLastOfRuns net.now parts.now.part_of a.parts.items) }
    ensures limits { IfOk result (λ a. All KeepsLimits a.parts.items) }
    ensures best { IfOk result (λ a. IsFirstGreatest a.parts.items a.best) }
    ensures net { IfOk result (λ a. IsCycleTime net.now a.parts.items a.best) }
    ensures certificate { IfOk result (λ a. IsCertificate net.now a) }
{
    net.rules();
    let part_of = parts.numbers()?;
    let mut answers = Vec::new(alloc);
    for part in 0..parts.count() {
        let answer = part_answer(alloc, net, live, parts, part)?;
        keep(&mut answers, answer)?;
    }
    Ok(gathered(net, parts, part_of, answers))
}

/// The cycle times as `cycle` gives them (chapters 2 and 3), and of each part with a circuit, in
/// order, the rounds of policy iteration that end in its answer.
///
/// Policy iteration runs once, so it takes the time of `cycle`, and it keeps all rounds. It answers
/// `OutOfMemory` only where no memory is found.
pub fn cycle_with_runs(
    alloc: Global,
    net: &Net,
    live: &Live,
    parts: &Parts,
) -> Result<(CycleAnswer, Vec<Vec<Round>>), OutOfMemory>
    requires live { IsRanking net.now live.now }
    requires parts { AreParts net.now parts.now }
    ensures part_of { IfOk result (λ w. w.0.part_of.items ≡ parts.now.part_of) }
    ensures count { IfOk result (λ w. length w.0.parts.items ≡ length parts.now.inner) }
    ensures parts { IfOk result (λ w. ArePartAnswers net.now parts.now.part_of w.0.parts.items) }
    ensures limits { IfOk result (λ w. All KeepsLimits w.0.parts.items) }
    ensures best { IfOk result (λ w. IsFirstGreatest w.0.parts.items w.0.best) }
    ensures net { IfOk result (λ w. IsCycleTime net.now w.0.parts.items w.0.best) }
    ensures certificate { IfOk result (λ w. IsCertificate net.now w.0) }
    ensures runs { IfOk result (λ w. AreRunsFrom net.now parts.now.part_of 0 w.0.parts.items
        (rounds_of_runs w.1.items)) }
{
    net.rules();
    let part_of = parts.numbers()?;
    let mut answers = Vec::new(alloc);
    let mut runs = Vec::new(alloc);
    for part in 0..parts.count() {
        let (answer, rounds) = part_run(alloc, net, live, parts, part)?;
        keep(&mut answers, answer)?;
        keep_run(&mut runs, rounds)?;
    }
    Ok((gathered(net, parts, part_of, answers), runs))
}
