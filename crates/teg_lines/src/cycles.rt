//! The text of cycle times: the greatest ratio and a circuit that has it, then the lines of each
//! part, and then the rounds that led to them, where they are given.
ghost use Rattle.std.specs.Prelude.{◌≡◌, ◌++◌, ◌<◌, ◌^◌, [], All, IfOk, IfSome, length, map, string_bytes, ⊤};
ghost use Rattle.std.specs.Option.{option_copied, option_map};
ghost use Rattle.teg_lines.specs.CycleLines.{HasPartCircuitIn, IsCycleTold, IsPartTold, IsPotentialIn, best_lines, best_of, cycle_lines, member_line, members_from, part_lines, potential_line, ratio_line};
ghost use Rattle.teg_lines.specs.CycleMeanings.{cycle_lists, part_lists, runs_lists};
ghost use Rattle.teg_lines.specs.RoundLines.{AreRoundsTold, IsRunKept, runs_lines as runs_text, told_runs};
ghost use Rattle.teg_text.specs.Lines.{line_then, written};

use crate::rounds::push_runs;
use crate::told::{LineOf, push_each};
use std::alloc::{AllocError, Global};
use teg_net::{CycleAnswer, Net, OutOfMemory, PartAnswer, Potential, Ratio, Round};
use teg_text::push_circuit;

// The line of a potential.
struct PotentialLine;

impl LineOf<Potential> for PotentialLine {
    ghost line = { potential_line };

    ghost is_there = { IsPotentialIn };

    ghost is_kept = { λ _. ⊤ };

    fn push(potential: &Potential, text: &mut String, net: &Net) -> Result<(), AllocError> {
        let name = net.transitions()[potential.transition.index as usize]
            .name
            .as_str();
        let value = potential.value;
        write!(text, "potential {name} {value}\n")
    }
}

// Appends the line of a transition of a part without a circuit.
fn push_member(text: &mut String, net: &Net, index: usize) -> Result<(), AllocError>
    requires { index < length net.now.transitions }
    ensures { IfOk result (λ _. string_bytes text.new ≡
        string_bytes text.old ++ line_then (member_line net.now (record { index = index })) []) }
{
    let name = net.transitions()[index].name.as_str();
    write!(text, "member {name}\n")
}

// Appends the lines of the transitions of a part without a circuit.
fn push_members(
    text: &mut String,
    net: &Net,
    part_of: &[u32],
    part: usize,
) -> Result<(), AllocError>
    requires { length part_of.now ≡ length net.now.transitions }
    ensures { IfOk result (λ _. string_bytes text.new ≡
        string_bytes text.old
        ++ written (map (member_line net.now) (members_from 0 part_of.now part))) }
{
    for index in 0..part_of.len() {
        if part_of[index] as usize == part {
            push_member(text, net, index)?;
        }
    }
    Ok(())
}

// Appends the first line of a part with a circuit.
fn push_ratio(text: &mut String, number: usize, ratio: &Ratio) -> Result<(), AllocError>
    requires { number < 2 ^ 63 }
    ensures { IfOk result (λ _. string_bytes text.new ≡
        string_bytes text.old ++ line_then (ratio_line number ratio.now) []) }
{
    let told = number + 1;
    let time = ratio.time();
    let tokens = ratio.tokens();
    write!(text, "part {told} ratio {time}/{tokens}\n")
}

// Appends the lines of the part of this number.
fn push_part(
    text: &mut String,
    net: &Net,
    part_of: &[u32],
    number: usize,
    part: &PartAnswer,
) -> Result<(), AllocError>
    requires few { number < 2 ^ 63 }
    requires full { length part_of.now ≡ length net.now.transitions }
    requires part { IsPartTold net.now (members_from 0 part_of.now number) (part_lists part.now) }
    ensures { IfOk result (λ _. string_bytes text.new ≡
        string_bytes text.old
        ++ written (part_lines net.now part_of.now number (part_lists part.now))) }
{
    match part {
        PartAnswer::NoCircuit => {
            let told = number + 1;
            write!(text, "part {told} no circuit\n")?;
            push_members(text, net, part_of, number)?;
        }
        PartAnswer::Best {
            ratio,
            circuit,
            potentials,
        } => {
            push_ratio(text, number, ratio)?;
            push_circuit(text, net, circuit)?;
            push_each::<Potential, PotentialLine>(text, net, potentials)?;
        }
    }
    Ok(())
}

// The lines of the greatest ratio, that of this part.
fn best(alloc: Global, net: &Net, part: &PartAnswer) -> Result<String, AllocError>
    requires { HasPartCircuitIn net.now (part_lists part.now) }
    ensures { IfOk result (λ text. string_bytes text ≡ written
        (best_lines net.now (part_lists part.now))) }
{
    let mut text = String::new(alloc);
    if let PartAnswer::Best { ratio, circuit, .. } = part {
        let time = ratio.time();
        let tokens = ratio.tokens();
        write!(text, "cycle time {time}/{tokens}\n")?;
        push_circuit(&mut text, net, circuit)?;
    }
    Ok(text)
}

// The lines of the part that is told first.
fn head(alloc: Global, net: &Net, answer: &CycleAnswer) -> Result<String, AllocError>
    requires { IsCycleTold net.now (cycle_lists answer.now) }
    ensures { IfOk result (λ text. string_bytes text ≡
        written (best_lines net.now
        (best_of (cycle_lists answer.now).parts (cycle_lists answer.now).best))) }
{
    match answer.best {
        Some(number) => Ok(best(alloc, net, &answer.parts[number as usize])?),
        None => Ok(String::new(alloc)),
    }
}

// The cycle time and a circuit that has it, and then the lines of each part.
fn cycle_times(alloc: Global, net: &Net, answer: &CycleAnswer) -> Result<String, AllocError>
    requires { IsCycleTold net.now (cycle_lists answer.now) }
    ensures { IfOk result (λ text. string_bytes text ≡ written
        (cycle_lines net.now (cycle_lists answer.now))) }
{
    let mut text = head(alloc, net, answer)?;
    for number in 0..answer.parts.len() {
        push_part(
            &mut text,
            net,
            &answer.part_of,
            number,
            &answer.parts[number],
        )?;
    }
    Ok(text)
}

/// The text of cycle times: the greatest ratio and a circuit that has it, then of each part its
/// ratio, a circuit and potentials, or its members where no circuit lies in it; and then, where
/// rounds are given, the rounds of each part with a circuit. Parts and rounds are numbered from 1
/// on, times are in the user's unit.
///
/// The answer tells a part of each transition and has a part that is told first, as a certificate
/// with a best part does ([`certificates_can_be_told`]); rounds are a list for each part with a
/// circuit, none of them empty. `OutOfMemory` comes only where no memory is found. It takes time of
/// order `parts n` and of the text for n transitions.
///
/// [`certificates_can_be_told`]: crate::certificates_can_be_told
pub fn cycle_text(
    alloc: Global,
    net: &Net,
    answer: &CycleAnswer,
    rounds: Option<&[Vec<Round>]>,
) -> Result<Vec<u8>, OutOfMemory>
    requires answer { IsCycleTold net.now (cycle_lists answer.now) }
    requires rounds { AreRoundsTold net.now (cycle_lists answer.now).parts
        (option_map runs_lists (option_copied rounds)) }
    ensures text { IfOk result
        (λ text. text.items ≡ written (cycle_lines net.now (cycle_lists answer.now)
        ++ runs_text net.now
        (told_runs (cycle_lists answer.now).parts
        (option_map runs_lists (option_copied rounds.entry))))) }
    ensures kept { IfOk result (λ _. IfSome (option_map runs_lists (option_copied rounds.entry))
        (λ runs. All IsRunKept runs)) }
{
    let mut text = cycle_times(alloc, net, answer)?;
    match rounds {
        Some(runs) => push_runs(&mut text, net, &answer.parts, runs)?,
        None => {}
    }
    Ok(text.into_bytes())
}
