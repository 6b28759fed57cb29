//! Texts that are whole those of cycle times and rounds, right or not.
ghost use Rattle.std.specs.Prelude.{◌≡◌, ◌<◌, ◌≤◌, ◌∷◌, ◌++◌, ◌^◌, [], All, IfOk, IfSome, IsTrue, Some, length, map};
ghost use Rattle.teg_net.specs.Certificates.{IsCertificate};
ghost use Rattle.teg_certificates.specs.BestRatios.{best_ratio_of};
ghost use Rattle.teg_text.specs.Lines.{written};
ghost use Rattle.teg_lines.specs.CycleLines.{cycle_lines};
ghost use Rattle.teg_lines.specs.CycleMeanings.{cycle_lists, part_lists, round_lists, runs_lists};
ghost use Rattle.teg_lines.specs.RoundLines.{AreRunsTold, IsChoiceIn, IsRoundIn, IsRunIn, IsRunKept, circuits_in, runs_lines, told_runs};
ghost use Rattle.round_check.specs.OtherRounds.{IsRoundsText};
ghost use Rattle.round_check.specs.ToldRounds.{IsTold};

use crate::reading::rounds_in;
use pace_check::shown_times;
use std::alloc::Global;
use teg_certificates::best_ratio;
use teg_lines::{certificates_can_be_told, cycle_text};
use teg_net::{Choice, CycleAnswer, Net, OutOfMemory, PartAnswer, PlaceId, Ratio, Round};

// 1 where the part has a circuit, else 0.
pub(crate) fn circuits_of(part: &PartAnswer) -> usize
    ensures number { result ≡ circuits_in (part_lists part.now ∷ []) }
    ensures small { result ≤ 1 }
{
    match part {
        PartAnswer::NoCircuit => 0,
        PartAnswer::Best { .. } => 1,
    }
}

// How many of the parts have a circuit.
fn circuits_among(parts: &[PartAnswer]) -> usize
    ensures { result ≡ circuits_in (map part_lists parts.now) }
{
    let mut count = 0;
    for number in 0..parts.len() {
        count += circuits_of(&parts[number]);
    }
    count
}

// Whether the place is one of the net.
fn is_place_in(net: &Net, id: PlaceId) -> bool
    ensures { IsTrue result → id.index < length net.now.places }
{
    (id.index as usize) < net.places().len()
}

// Whether the choice is of a transition and a place of the net.
fn is_choice_in(net: &Net, choice: Choice) -> bool
    ensures { IsTrue result → IsChoiceIn net.now choice }
{
    (choice.transition.index as usize) < net.transitions().len() && is_place_in(net, choice.place)
}

// Whether the circuit and the choices of the round are of the net.
fn is_round_in(net: &Net, round: &Round) -> bool
    ensures { IsTrue result → IsRoundIn net.now (round_lists round.now) }
{
    round.circuit.places.iter().all(|id| is_place_in(net, *id))
        && round
            .choices
            .iter()
            .all(|choice| is_choice_in(net, *choice))
}

// Whether each round is of the net.
fn are_rounds_in(net: &Net, rounds: &[Round]) -> bool
    ensures { IsTrue result → All (λ round. IsRoundIn net.now (round_lists round)) rounds.now }
{
    rounds.iter().all(|round| is_round_in(net, round))
}

// Whether there is a round, and each is of the net.
fn is_run_in(net: &Net, rounds: &[Round]) -> bool
    ensures { IsTrue result → IsRunIn net.now (map round_lists rounds.now) }
{
    if rounds.len() == 0 {
        return false;
    }
    are_rounds_in(net, rounds)
}

// Whether each run is so.
fn is_each_in(net: &Net, runs: &[Vec<Round>]) -> bool
    ensures { IsTrue result → All (λ run. IsRunIn net.now (map round_lists run.items)) runs.now }
{
    runs.iter().all(|run| is_run_in(net, run))
}

// Whether there are rounds for each part with a circuit, all of the net.
fn are_runs_in(net: &Net, parts: &[PartAnswer], runs: &[Vec<Round>]) -> bool
    ensures { IsTrue result → AreRunsTold net.now (map part_lists parts.now) (runs_lists
        runs.now) }
{
    if runs.len() != circuits_among(parts) {
        return false;
    }
    is_each_in(net, runs)
}

// Whether the whole text is that of these cycle times and of these rounds.
fn is_text_of(
    alloc: Global,
    net: &Net,
    text: &str,
    answer: &CycleAnswer,
    ratio: Ratio,
    runs: &[Vec<Round>],
) -> Result<bool, OutOfMemory>
    requires certificate { IsCertificate net.now answer.now }
    requires best { best_ratio_of answer.now ≡ Some ratio }
    requires runs { AreRunsTold net.now (cycle_lists answer.now).parts (runs_lists runs.now) }
    ensures text { IfOk result (λ yes. IsTrue yes → text.now
        ≡ written (cycle_lines net.now (cycle_lists answer.now)
        ++ runs_lines net.now (told_runs (cycle_lists answer.now).parts
        (Some (runs_lists runs.now))))) }
    ensures kept { IfOk result (λ _. All IsRunKept (runs_lists runs.now)) }
{
    certificates_can_be_told();
    let lines = cycle_text(alloc, net, answer, Some(runs))?;
    Ok(text.as_bytes() == lines.as_slice())
}

// Whether there are fewer than 2^32 parts.
fn are_few(parts: &[PartAnswer]) -> bool
    ensures { IsTrue result → length parts.now < 2 ^ 32 }
{
    parts.len() <= u32::MAX as usize
}

// What a text tells: the cycle times with the greatest ratio, and the rounds of each part with a
// circuit.
#[derive(Drop)]
pub(crate) struct Told {
    pub(crate) answer: CycleAnswer,
    pub(crate) ratio: Ratio,
    pub(crate) runs: Vec<Vec<Round>>,
}

// What the text tells, where it is whole that of cycle times that are shown and of rounds of the
// net, whatever rounds they are.
pub(crate) fn told_in(alloc: Global, net: &Net, text: &str) -> Result<Option<Told>, OutOfMemory>
    ensures { IfOk result (λ told. IfSome told (IsTold net.now text.now)) }
{
    let Some(read) = rounds_in(alloc, net, text)? else {
        return Ok(None);
    };
    let Some(answer) = shown_times(alloc, net, read.times.as_str())? else {
        return Ok(None);
    };
    let Some(ratio) = best_ratio(&answer) else {
        return Ok(None);
    };
    if !are_few(&answer.parts) {
        return Ok(None);
    }
    if !are_runs_in(net, &answer.parts, &read.runs) {
        return Ok(None);
    }
    let is_whole = is_text_of(alloc, net, text, &answer, ratio, &read.runs)?;
    if !is_whole {
        return Ok(None);
    }
    Ok(Some(Told {
        answer,
        ratio,
        runs: read.runs,
    }))
}
