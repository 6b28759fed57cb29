//! The witness of `teg cycle`: a circuit and potentials of each part.
ghost use Rattle.std.specs.Prelude.{◌≡◌, ◌<◌, IfOk, IfSome, IsTrue, Some, length, slice_index_or};
ghost use Rattle.teg_net.specs.declared.answers.PartAnswer.TheVariants.{NoCircuit};
ghost use Rattle.teg_net.specs.Circuits.{AreInRange};
ghost use Rattle.teg_net.specs.Certificates.{IsBestCertificate, IsCertificate};
ghost use Rattle.teg_net.specs.PartAnswers.{ArePartAnswers, IsPartAnswer, first_transition_of};
ghost use Rattle.teg_certificates.specs.BestRatios.{best_ratio_of};
ghost use Rattle.teg_text.specs.Lines.{written};
ghost use Rattle.teg_lines.specs.CycleLines.{cycle_lines};
ghost use Rattle.teg_lines.specs.CycleMeanings.{cycle_lists};
ghost use Rattle.pace_check.specs.PathSums.{IsToldFromLowest};
ghost use Rattle.pace_check.specs.ShownCycles.{HasPartsInOrder, IsShownPace, IsShownTimes};

use crate::path_sums::{PartAt, are_greatest};
use crate::reading::answer_in;
use std::alloc::{AllocError, Global};
use teg_certificates::{best_ratio, certificates_tell, check_cycle};
use teg_lines::{certificates_can_be_told, cycle_text};
use teg_net::{CycleAnswer, Net, OutOfMemory, PartAnswer, PlaceId, Potential, Ratio};
use teg_parts::split;
use witness_check::{begins_lowest, is_seen_live};

// Whether the answer has so many parts, and these numbers of them.
fn has_numbers(answer: &CycleAnswer, count: u32, numbers: &[u32]) -> bool
    ensures count { IsTrue result → length answer.now.parts.items ≡ count }
    ensures numbers { IsTrue result → answer.now.part_of.items ≡ numbers.now }
{
    answer.parts.len() == count as usize && answer.part_of.as_slice() == numbers
}

// Whether the parts of the answer are the strong parts of the net, in their order.
fn has_parts_in_order(alloc: Global, net: &Net, answer: &CycleAnswer) -> Result<bool, OutOfMemory>
    ensures { IfOk result (λ yes. IsTrue yes → HasPartsInOrder net.now answer.now) }
{
    let parts = split(alloc, net)?;
    let numbers = parts.numbers()?;
    let same = has_numbers(answer, parts.count(), &numbers);
    Ok(same)
}

// What is told of a part with a circuit.
#[derive(Drop)]
struct BestPart<'a> {
    number: usize,
    ratio: Ratio,
    circuit: &'a [PlaceId],
    potentials: &'a [Potential],
}

// The lowest transition of a circuit that is told from there on.
fn first_of(net: &Net, places: &[PlaceId]) -> u32
    requires some { 0 < length places.now }
    requires range { AreInRange net.now places.now }
    ensures { result ≡ first_transition_of net.now places.now }
{
    net.places()[places[0].index as usize].from.index
}

// Whether the circuit of a part is told from its lowest numbered transition on, and its potentials
// are the greatest sums of paths from there.
fn is_told_from_lowest(
    alloc: Global,
    net: &Net,
    part_of: &[u32],
    told: &BestPart<'_>,
) -> Result<bool, AllocError>
    requires count { length part_of.now ≡ length net.now.transitions }
    requires certificate { IsBestCertificate net.now part_of.now told.now.number told.now.ratio
        told.now.circuit.now told.now.potentials.now }
    ensures { IfOk result (λ yes. IsTrue yes → IsToldFromLowest net.now part_of.now
        told.now.number told.now.ratio told.now.circuit.now told.now.potentials.now) }
{
    net.rules();
    if !begins_lowest(net, told.circuit) {
        return Ok(false);
    }
    let part = PartAt {
        net,
        part_of,
        number: told.number,
        ratio: told.ratio,
        start: first_of(net, told.circuit),
    };
    let greatest = are_greatest(alloc, &part, told.potentials)?;
    Ok(greatest)
}

// Whether the answer of the part of this number tells what a part answer says.
fn is_part_told(
    alloc: Global,
    net: &Net,
    answer: &CycleAnswer,
    number: usize,
) -> Result<bool, AllocError>
    requires certificate { IsCertificate net.now answer.now }
    requires number { number < length answer.now.parts.items }
    ensures { IfOk result (λ yes. IsTrue yes → IsPartAnswer net.now answer.now.part_of.items number
        (slice_index_or answer.now.parts.items number NoCircuit)) }
{
    certificates_tell();
    match &answer.parts[number] {
        PartAnswer::NoCircuit => Ok(true),
        PartAnswer::Best {
            ratio,
            circuit,
            potentials,
        } => {
            let told = BestPart {
                number,
                ratio: *ratio,
                circuit: &circuit.places,
                potentials,
            };
            let from_lowest = is_told_from_lowest(alloc, net, &answer.part_of, &told)?;
            Ok(from_lowest)
        }
    }
}

// Whether the answer of each part tells what a part answer says.
fn are_parts_told(alloc: Global, net: &Net, answer: &CycleAnswer) -> Result<bool, AllocError>
    requires { IsCertificate net.now answer.now }
    ensures { IfOk result (λ yes. IsTrue yes → ArePartAnswers net.now answer.now.part_of.items
        answer.now.parts.items) }
{
    for number in 0..answer.parts.len() {
        if !is_part_told(alloc, net, answer, number)? {
            return Ok(false);
        }
    }
    Ok(true)
}

// Whether the whole text is that of these cycle times.
fn tells_times(
    alloc: Global,
    net: &Net,
    text: &str,
    answer: &CycleAnswer,
    ratio: Ratio,
) -> Result<bool, OutOfMemory>
    requires certificate { IsCertificate net.now answer.now }
    requires best { best_ratio_of answer.now ≡ Some ratio }
    ensures { IfOk result (λ yes. IsTrue yes
        → text.now ≡ written (cycle_lines net.now (cycle_lists answer.now))) }
{
    certificates_can_be_told();
    let lines = cycle_text(alloc, net, answer, None)?;
    Ok(text.as_bytes() == lines.as_slice())
}

/// The cycle times that the text of `teg cycle` tells, where the net is seen to be live and the text
/// to tell them (chapter 3). The whole text is looked at: its parts are the strong parts of the net
/// in their order; of each part its ratio is the greatest over the circuits in it, its circuit has
/// it and is told from its lowest numbered transition on, and its potentials are the greatest sums of
/// the paths from there, or no circuit lies in it; and the part that is named is the first of
/// greatest ratio. Which of several such circuits is named is not looked at. It takes time of the
/// order transitions times places, and for each part transitions times members. `OutOfMemory` comes
/// only where no memory is found.
pub fn shown_times(alloc: Global, net: &Net, text: &str) -> Result<Option<CycleAnswer>, OutOfMemory>
    ensures { IfOk result (λ a. IfSome a (IsShownTimes net.now text.now)) }
{
    net.rules();
    certificates_tell();
    if !is_seen_live(alloc, net)? {
        return Ok(None);
    }
    let Some(answer) = answer_in(alloc, net, text)? else {
        return Ok(None);
    };
    if !check_cycle(net, &answer) {
        return Ok(None);
    }
    if !has_parts_in_order(alloc, net, &answer)? || !are_parts_told(alloc, net, &answer)? {
        return Ok(None);
    }
    let Some(ratio) = best_ratio(&answer) else {
        return Ok(None);
    };
    if !tells_times(alloc, net, text, &answer, ratio)? {
        return Ok(None);
    }
    Ok(Some(answer))
}

/// The ratio that the text of `teg cycle` tells in its first line, where it is shown
/// ([`shown_times`], in whose time and memory). `OutOfMemory` comes only where no memory is found.
pub fn shown_pace(alloc: Global, net: &Net, text: &str) -> Result<Option<Ratio>, OutOfMemory>
    ensures { IfOk result (λ r. IfSome r (IsShownPace net.now text.now)) }
{
    match shown_times(alloc, net, text)? {
        Some(answer) => Ok(best_ratio(&answer)),
        None => Ok(None),
    }
}
