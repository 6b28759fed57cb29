//! Which rounds are not those that lead to an answer, part by part.
ghost use Rattle.std.specs.Prelude.{◌≡◌, ◌≢◌, ◌↔◌, ◌+◌, ◌<◌, ◌≤◌, ◌^◌, IfNone, IfOk, IfSome, IsTrue, length, map, slice_index_or};
ghost use Rattle.teg_net.specs.declared.answers.PartAnswer.TheVariants.{NoCircuit};
ghost use Rattle.teg_net.specs.Circuits.{IsLive};
ghost use Rattle.policy_rounds.specs.LastRounds.{AreRunsFrom, rounds_of_runs};
ghost use Rattle.policy_rounds.specs.PolicyRounds.{IsLastRound};
ghost use Rattle.policy_rounds.specs.RunAnswers.{IsAnswerOf, potential_of};
ghost use Rattle.teg_lines.specs.CycleMeanings.{part_lists, runs_lists};
ghost use Rattle.teg_lines.specs.RoundLines.{AreRunsTold};
ghost use Rattle.round_check.specs.OtherRounds.{IsOtherAt, IsOtherOf, IsOtherRound};
ghost use Rattle.round_check.specs.Rounds.{Stands};
ghost use Rattle.round_check.specs.ShownRounds.{EndsIn};
ghost use Rattle.round_check.specs.ToldRounds.{GoOn, HasRounds};

use crate::parts::Part;
use crate::runs::{is_last, round_at, rounds_begun, same_places};
use crate::told::circuits_of;
use std::alloc::{AllocError, Global};
use teg_net::{
    Choice, CycleAnswer, Net, OutOfMemory, PartAnswer, PlaceId, Potential, Ratio, Round,
};

// Whether the potential is that of the choice.
fn is_potential_of(told: Potential, choice: Choice) -> bool
    ensures { IsTrue result ↔ (told ≡ potential_of choice) }
{
    told.transition == choice.transition && told.value == choice.value
}

// Whether the potentials are those of the choices.
fn are_potentials_of(told: &[Potential], choices: &[Choice]) -> bool
    ensures { IsTrue result ↔ (told.now ≡ map potential_of choices.now) }
{
    if told.len() != choices.len() {
        return false;
    }
    for index in 0..told.len() {
        if !is_potential_of(told[index], choices[index]) {
            return false;
        }
    }
    true
}

// Whether ratio, circuit and potentials are those of the round.
fn has_answer(round: &Round, ratio: Ratio, circuit: &[PlaceId], potentials: &[Potential]) -> bool
    ensures { IsTrue result ↔ ((ratio ≡ round.now.ratio)
        × (circuit.now ≡ round.now.circuit.places.items)
        × (potentials.now ≡ map potential_of round.now.choices.items)) }
{
    ratio == round.ratio
        && same_places(circuit, &round.circuit.places)
        && are_potentials_of(potentials, &round.choices)
}

// Whether the answer is that of the round.
fn is_answer_of(round: &Round, answer: &PartAnswer) -> bool
    ensures { IsTrue result ↔ IsAnswerOf round.now answer.now }
{
    match answer {
        PartAnswer::NoCircuit => false,
        PartAnswer::Best {
            ratio,
            circuit,
            potentials,
        } => has_answer(round, *ratio, &circuit.places, potentials),
    }
}

// Whether the answer is that of the round, and no place improves it.
fn is_end(
    alloc: Global,
    part: &Part,
    round: &Round,
    answer: &PartAnswer,
) -> Result<bool, AllocError>
    requires { Stands part.now.net.now part.now.parts.now part.now.number round.now }
    ensures { IfOk result (λ yes. IsTrue yes ↔ (IsAnswerOf round.now answer.now
        × IsLastRound part.now.net.now part.now.parts.now part.now.number round.now)) }
{
    if !is_answer_of(round, answer) {
        return Ok(false);
    }
    let is_last = is_last(alloc, part, round)?;
    Ok(is_last)
}

// The first of the rounds of a part that is another than that of its run, where they are not the
// policy run of the part that ends in its answer. In another than a live net it may be any.
fn other_round(
    alloc: Global,
    net: &Net,
    answer: &CycleAnswer,
    number: usize,
    rounds: &[Round],
) -> Result<Option<usize>, OutOfMemory>
    requires count { length answer.now.part_of.items ≡ length net.now.transitions }
    requires number { number < length answer.now.parts.items }
    requires few { length answer.now.parts.items < 2 ^ 32 }
    requires some { 0 < length rounds.now }
    ensures none { IfOk result (λ other. IfNone other (EndsIn net.now answer.now.part_of.items number
        (slice_index_or answer.now.parts.items number NoCircuit) rounds.now)) }
    ensures some { IsLive net.now → IfOk result (λ other. IfSome other (IsOtherRound net.now
        answer.now.part_of.items number (slice_index_or answer.now.parts.items number NoCircuit)
        rounds.now)) }
{
    let own = Part {
        net,
        parts: &answer.part_of,
        number: number as u32,
    };
    let begun = rounds_begun(alloc, &own, rounds)?;
    if begun < rounds.len() {
        return Ok(Some(begun));
    }
    let last = rounds.len() - 1;
    let is_end = is_end(alloc, &own, round_at(rounds, last), &answer.parts[number])?;
    if is_end { Ok(None) } else { Ok(Some(last)) }
}

// The same of the part of this number, where so many runs are told before it; none where it has no
// circuit, too.
fn other_in(
    alloc: Global,
    net: &Net,
    answer: &CycleAnswer,
    number: usize,
    runs: &[Vec<Round>],
    told: usize,
) -> Result<Option<usize>, OutOfMemory>
    requires count { length answer.now.part_of.items ≡ length net.now.transitions }
    requires number { number < length answer.now.parts.items }
    requires few { length answer.now.parts.items < 2 ^ 32 }
    requires told { slice_index_or answer.now.parts.items number NoCircuit ≢ NoCircuit
        → HasRounds (rounds_of_runs runs.now) told }
    ensures none { IfOk result (λ other. IfNone other (GoOn net.now answer.now.part_of.items
        answer.now.parts.items (rounds_of_runs runs.now) number told)) }
    ensures some { IsLive net.now → IfOk result (λ other. IfSome other (IsOtherOf net.now
        answer.now.part_of.items answer.now.parts.items (rounds_of_runs runs.now) number told)) }
{
    match &answer.parts[number] {
        PartAnswer::NoCircuit => Ok(None),
        PartAnswer::Best { .. } => {
            let other = other_round(alloc, net, answer, number, &runs[told])?;
            Ok(other)
        }
    }
}

// The first part whose rounds are not its run that ends in its answer, and of its rounds the first
// that is another, both counted from 0; none where all are. In another than a live net it may be
// any.
pub(crate) fn first_other(
    alloc: Global,
    net: &Net,
    answer: &CycleAnswer,
    runs: &[Vec<Round>],
) -> Result<Option<(usize, usize)>, OutOfMemory>
    requires count { length answer.now.part_of.items ≡ length net.now.transitions }
    requires few { length answer.now.parts.items < 2 ^ 32 }
    requires told { AreRunsTold net.now (map part_lists answer.now.parts.items) (runs_lists
        runs.now) }
    ensures none { IfOk result (λ other. IfNone other (AreRunsFrom net.now
        answer.now.part_of.items 0 answer.now.parts.items (rounds_of_runs runs.now))) }
    ensures some { IsLive net.now → IfOk result (λ other. IfSome other (λ at. IsOtherAt net.now
        answer.now.part_of.items answer.now.parts.items (rounds_of_runs runs.now) at.0 at.1)) }
{
    let mut told = 0;
    for number in 0..answer.parts.len() {
        if let Some(round) = other_in(alloc, net, answer, number, runs, told)? {
            return Ok(Some((number, round)));
        }
        told += circuits_of(&answer.parts[number]);
    }
    Ok(None)
}
