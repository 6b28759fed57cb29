//! Whether an answer is a certificate: a short check of the answer and the net alone.
ghost use Rattle.std.specs.Prelude.{◌≡◌, ◌↔◌, ◌<◌, ◌≤◌, All, IsTrue, length, slice_index};
ghost use Rattle.teg_net.specs.Ratios.{IsLowestTerms, IsRatioWithin};
ghost use Rattle.teg_net.specs.Certificates.{IsPartCertificate, IsCertificate};
ghost use Rattle.teg_certificates.specs.Checks.{AreNumbersOf, HasRatio, FitsBest, ArePartCertificates, FitsLists};

use crate::first_best::is_first_best;
use crate::inner_places::{Part, all_inner, has_no_place};
use crate::potentials::potentials_fit;
use crate::sums::{attains, has_token};
use teg_net::{CycleAnswer, Net, PartAnswer, Place, PlaceId, Potential, Ratio, is_circuit};

// The greatest time and the most tokens of a ratio in an answer that is checked.
const GREATEST_CHECKED_RATIO: u64 = 1_000_000_000_000;

// Whether each number is below the count.
fn all_below(part_of: &[u32], count: usize) -> bool
    ensures { IsTrue result ↔ All (λ k. k < count) part_of.now }
{
    part_of.iter().all(|part| (*part as usize) < count)
}

// Whether the number does not fall along the place.
fn rises_along(part_of: &[u32], place: &Place) -> bool
    requires from_in { place.now.from.index < length part_of.now }
    requires to_in { place.now.to.index < length part_of.now }
    ensures { IsTrue result ↔ (slice_index part_of.now place.now.from.index ≤ slice_index
        part_of.now place.now.to.index) }
{
    part_of[place.from.index as usize] <= part_of[place.to.index as usize]
}

// Whether the numbers never fall along a place.
pub(crate) fn never_fall(net: &Net, part_of: &[u32]) -> bool
    requires { length part_of.now ≡ length net.now.transitions }
    ensures { IsTrue result ↔ All (λ p. slice_index part_of.now p.from.index ≤ slice_index
        part_of.now p.to.index) net.now.places }
{
    net.places().iter().all(|place| rises_along(part_of, place))
}

// Whether the numbers of transitions are those of parts, and never fall along a place.
fn numbers_fit(net: &Net, part_of: &[u32], count: usize) -> bool
    ensures { IsTrue result ↔ AreNumbersOf net.now part_of.now count }
{
    part_of.len() == net.transitions().len()
        && all_below(part_of, count)
        && never_fall(net, part_of)
}

// Whether the ratio keeps the limits of an answer that is checked.
pub(crate) fn is_within(ratio: Ratio) -> bool
    ensures within { IsTrue result ↔ IsRatioWithin ratio }
    ensures terms { IsLowestTerms ratio }
{
    ratio.time() <= GREATEST_CHECKED_RATIO && ratio.tokens() <= GREATEST_CHECKED_RATIO
}

// Whether the places are a circuit with a token in the part that has the ratio.
fn has_ratio(part: &Part, ratio: Ratio, places: &[PlaceId]) -> bool
    ensures { IsTrue result ↔ HasRatio part.now.net.now part.now.part_of.now part.now.number
        ratio places.now }
{
    is_circuit(part.net, places)
        && all_inner(part, places)
        && attains(part.net, ratio, places)
        && has_token(part.net, places)
}

// What is told of a part with a circuit.
#[derive(Drop)]
struct BestTold<'a> {
    ratio: Ratio,
    circuit: &'a [PlaceId],
    potentials: &'a [Potential],
}

// Whether ratio, circuit and potentials are a certificate of the part.
fn best_fits(part: &Part, told: &BestTold) -> bool
    ensures fits { IsTrue result ↔ FitsBest part.now.net.now part.now.part_of.now part.now.number
        told.now.ratio told.now.circuit.now told.now.potentials.now }
    ensures terms { IsLowestTerms told.now.ratio }
{
    is_within(told.ratio)
        && has_ratio(part, told.ratio, told.circuit)
        && potentials_fit(part, told.ratio, told.potentials)
}

// Whether the answer is a certificate of the part.
fn part_fits(part: &Part, answer: &PartAnswer) -> bool
    ensures { IsTrue result ↔ IsPartCertificate part.now.net.now part.now.part_of.now
        part.now.number answer.now }
{
    match answer {
        PartAnswer::NoCircuit => has_no_place(part),
        PartAnswer::Best {
            ratio,
            circuit,
            potentials,
        } => {
            let told = BestTold {
                ratio: *ratio,
                circuit: &circuit.places,
                potentials,
            };
            best_fits(part, &told)
        }
    }
}

// Whether each answer is a certificate of its part.
fn parts_fit(net: &Net, part_of: &[u32], answers: &[PartAnswer]) -> bool
    requires { length part_of.now ≡ length net.now.transitions }
    ensures { IsTrue result ↔ ArePartCertificates net.now part_of.now answers.now }
{
    for (number, answer) in answers.iter().enumerate() {
        let part = Part {
            net,
            part_of,
            number,
        };
        if !part_fits(&part, answer) {
            return false;
        }
    }
    true
}

// Whether the parts of an answer on the net are a certificate.
fn lists_fit(net: &Net, part_of: &[u32], answers: &[PartAnswer], best: Option<u32>) -> bool
    ensures { IsTrue result ↔ FitsLists net.now part_of.now answers.now best }
{
    if !numbers_fit(net, part_of, answers.len()) {
        return false;
    }
    if !parts_fit(net, part_of, answers) {
        return false;
    }
    is_first_best(answers, best)
}

/// Whether an answer is a certificate (`IsCertificate`, chapter 3): exactly where each transition
/// has the number of a part, numbers never fall along a place, each part's answer is certified, and
/// `best` is the first part of greatest ratio.
///
/// A part that is `NoCircuit` has no place with both ends in it. In any other part the ratio a/b
/// has time and tokens of at most 10^12, the circuit is one in the part that has a token and the
/// ratio, the potentials are those of the members in order, each of magnitude at most 10^18, and each place of
/// the part with holding time h and m tokens lifts the potential of its start by b h - a m to no
/// more than the potential of its end.
///
/// It takes any answer over any net and no memory, and stands on nothing but the two. It is true of
/// each answer of `cycle`, by that call's clause `certificate`; what it shows is the law
/// `certificates_tell`.
pub fn check_cycle(net: &Net, answer: &CycleAnswer) -> bool
    ensures { IsTrue result ↔ IsCertificate net.now answer.now }
{
    lists_fit(net, &answer.part_of, &answer.parts, answer.best)
}
