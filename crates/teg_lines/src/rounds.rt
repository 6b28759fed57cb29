//! The text of the rounds of policy iteration, behind that of cycle times: for each part with a
//! circuit one block of lines a round.
ghost use Rattle.std.specs.Prelude.{◌≡◌, ◌++◌, ◌<◌, ◌^◌, [], All, IfOk, map, string_bytes};
ghost use Rattle.teg_lines.specs.CycleMeanings.{part_lists, round_lists, runs_lists};
ghost use Rattle.teg_lines.specs.RoundLines.{AreRunsTold, IsChoiceIn, IsChoiceKept, IsRoundIn, IsRoundKept, IsRunIn, IsRunKept, choice_line, round_lines, run_lines, runs_from, runs_lines as runs_text, turn_line};
ghost use Rattle.teg_lines.specs.Widths.{IsWord64};
ghost use Rattle.teg_text.specs.Lines.{line_then, written};

use crate::told::{LineOf, push_each};
use std::alloc::AllocError;
use teg_net::{Choice, Net, PartAnswer, Ratio, Round};
use teg_text::push_circuit;

// The line of a choice.
struct ChoiceLine;

impl LineOf<Choice> for ChoiceLine {
    ghost line = { choice_line };

    ghost is_there = { IsChoiceIn };

    ghost is_kept = { IsChoiceKept };

    fn push(choice: &Choice, text: &mut String, net: &Net) -> Result<(), AllocError> {
        let transition = net.transitions()[choice.transition.index as usize]
            .name
            .as_str();
        let place = net.places()[choice.place.index as usize].name.as_str();
        let value = choice.value;
        write!(text, "choice {transition} {place} {value}\n")
    }
}

// Appends the first line of a round.
fn push_turn(text: &mut String, part: usize, turn: usize, ratio: &Ratio) -> Result<(), AllocError>
    requires parts { part < 2 ^ 63 }
    requires turns { turn < 2 ^ 63 }
    ensures text { IfOk result (λ _. string_bytes text.new ≡
        string_bytes text.old ++ line_then (turn_line part turn ratio.now) []) }
    ensures time { IfOk result (λ _. IsWord64 ratio.now.time) }
    ensures tokens { IfOk result (λ _. IsWord64 ratio.now.tokens) }
{
    let part_told = part + 1;
    let turn_told = turn + 1;
    let time = ratio.time();
    let tokens = ratio.tokens();
    write!(
        text,
        "part {part_told} round {turn_told} ratio {time}/{tokens}\n"
    )
}

// Appends the lines of a round.
fn push_round(
    text: &mut String,
    net: &Net,
    part: usize,
    turn: usize,
    round: &Round,
) -> Result<(), AllocError>
    requires parts { part < 2 ^ 63 }
    requires turns { turn < 2 ^ 63 }
    requires round { IsRoundIn net.now (round_lists round.now) }
    ensures text { IfOk result (λ _. string_bytes text.new ≡
        string_bytes text.old ++ written (round_lines net.now part turn (round_lists round.now))) }
    ensures kept { IfOk result (λ _. IsRoundKept (round_lists round.now)) }
{
    push_turn(text, part, turn, &round.ratio)?;
    push_circuit(text, net, &round.circuit)?;
    push_each::<Choice, ChoiceLine>(text, net, &round.choices)?;
    Ok(())
}

// Appends the lines of the rounds of a part.
fn push_run(text: &mut String, net: &Net, part: usize, rounds: &[Round]) -> Result<(), AllocError>
    requires parts { part < 2 ^ 63 }
    requires rounds { IsRunIn net.now (map round_lists rounds.now) }
    ensures text { IfOk result (λ _. string_bytes text.new ≡
        string_bytes text.old
        ++ written (run_lines net.now
        (record { part = part; rounds = map round_lists rounds.now }))) }
    ensures kept { IfOk result (λ _. IsRunKept (map round_lists rounds.now)) }
{
    for turn in 0..rounds.len() {
        push_round(text, net, part, turn, &rounds[turn])?;
    }
    Ok(())
}

// Appends the lines of all rounds, of which each part with a circuit has a list.
pub(crate) fn push_runs(
    text: &mut String,
    net: &Net,
    parts: &[PartAnswer],
    runs: &[Vec<Round>],
) -> Result<(), AllocError>
    requires { AreRunsTold net.now (map part_lists parts.now) (runs_lists runs.now) }
    ensures text { IfOk result (λ _. string_bytes text.new ≡
        string_bytes text.old
        ++ written (runs_text net.now
        (runs_from 0 (map part_lists parts.now) (runs_lists runs.now)))) }
    ensures kept { IfOk result (λ _. All IsRunKept (runs_lists runs.now)) }
{
    let mut told = 0;
    for number in 0..parts.len() {
        match &parts[number] {
            PartAnswer::NoCircuit => {}
            PartAnswer::Best { .. } => {
                push_run(text, net, number, &runs[told])?;
                told += 1;
            }
        }
    }
    Ok(())
}
