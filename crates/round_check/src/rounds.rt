//! Whether a round is that of its policy.
ghost use Rattle.std.specs.Prelude.{◌≡◌, ◌↔◌, ◌<◌, ◌≤◌, ◌*◌, ◌+ℤ◌, All, IsTrue, length};
ghost use Rattle.teg_net.specs.Circuits.{AreInRange, IsCircuit, from_of, time_of, tokens_of};
ghost use Rattle.teg_net.specs.Limits.{greatest_hold, most_place_tokens};
ghost use Rattle.teg_net.specs.PartAnswers.{first_transition_of};
ghost use Rattle.teg_net.specs.Parts.{IsPlaceOfPart, to_of};
ghost use Rattle.teg_net.specs.Ratios.{IsLowestTerms};
ghost use Rattle.teg_net.specs.ReducedTimes.{reduced_time_of_place};
ghost use Rattle.policy_rounds.specs.PolicyRounds.{IsRound, choice_of_member, chosen_place};
ghost use Rattle.round_check.specs.Checks.{AreChoicesOf, AreChosen, AreSumsTold, FitsCircuit, FitsRound, IsCircuitTold, IsInRangeAt, IsOwnCircuit, sum_told};

use crate::choices::{are_entered, list_members, place_for, value_for};
use crate::parts::{Part, end_of, is_inside, start_of};
use teg_net::{Choice, Net, Place, PlaceId, Ratio, Round, is_circuit, time_of, tokens_of};

// Whether the place lies in the part and is the one that is chosen for its end.
fn is_chosen(part: &Part, choices: &[Choice], id: PlaceId) -> bool
    ensures { IsTrue result ↔ (IsPlaceOfPart part.now.net.now part.now.parts.now part.now.number id
        × (chosen_place (choice_of_member choices.now (to_of part.now.net.now id)) ≡ id)) }
{
    is_inside(part, id) && place_for(choices, end_of(part.net, id)) == id
}

// Whether each place of the circuit is so.
fn are_chosen(part: &Part, choices: &[Choice], circuit: &[PlaceId]) -> bool
    ensures { IsTrue result ↔ AreChosen part.now.net.now part.now.parts.now part.now.number
        choices.now circuit.now }
{
    circuit.iter().all(|id| is_chosen(part, choices, *id))
}

// Whether none of the places leaves a lower numbered transition than this.
fn are_from(net: &Net, lowest: usize, places: &[PlaceId]) -> bool
    requires { AreInRange net.now places.now }
    ensures { IsTrue result ↔ All (λ p. lowest ≤ from_of net.now p) places.now }
{
    for id in places {
        if start_of(net, *id) < lowest {
            return false;
        }
    }
    true
}

// Whether the circuit has the ratio.
fn has_ratio(net: &Net, ratio: Ratio, circuit: &[PlaceId]) -> bool
    requires { IsCircuit net.now circuit.now }
    ensures same { IsTrue result ↔ (time_of net.now circuit.now * ratio.tokens
        ≡ ratio.time * tokens_of net.now circuit.now) }
    ensures terms { IsLowestTerms ratio }
{
    net.rules();
    time_of(net, circuit) * u128::from(ratio.tokens())
        == u128::from(ratio.time()) * tokens_of(net, circuit)
}

// The number of the transition at which the places begin.
pub(crate) fn root_of(net: &Net, places: &[PlaceId]) -> usize
    requires some { 0 < length places.now }
    requires range { AreInRange net.now places.now }
    ensures { result ≡ first_transition_of net.now places.now }
{
    start_of(net, places[0])
}

// Whether the circuit begins at its lowest numbered transition, has the ratio, and is one of the
// places that are chosen for their ends.
fn is_own_circuit(part: &Part, ratio: Ratio, choices: &[Choice], circuit: &[PlaceId]) -> bool
    requires { IsCircuit part.now.net.now circuit.now }
    ensures own { IsTrue result ↔ IsOwnCircuit part.now.net.now part.now.parts.now
        part.now.number ratio choices.now circuit.now }
    ensures terms { IsLowestTerms ratio }
{
    are_from(part.net, root_of(part.net, circuit), circuit)
        && are_chosen(part, choices, circuit)
        && has_ratio(part.net, ratio, circuit)
}

// Whether the places are such a circuit.
fn is_circuit_told(part: &Part, ratio: Ratio, choices: &[Choice], circuit: &[PlaceId]) -> bool
    ensures told { IsTrue result ↔ IsCircuitTold part.now.net.now part.now.parts.now
        part.now.number ratio choices.now circuit.now }
    ensures terms { IsTrue result → IsLowestTerms ratio }
{
    is_circuit(part.net, circuit) && is_own_circuit(part, ratio, choices, circuit)
}

// The reduced time of the place at the ratio.
pub(crate) fn reduced(ratio: Ratio, place: &Place) -> i128
    requires hold { place.now.hold ≤ greatest_hold }
    requires tokens { place.now.tokens ≤ most_place_tokens }
    ensures { result ≡ reduced_time_of_place ratio place.now }
{
    let gain = i128::from(ratio.tokens()) * i128::from(place.hold);
    let loss = i128::from(ratio.time()) * i128::from(place.tokens);
    gain - loss
}

// Whether the potentials are one.
fn is_same(first: i128, second: i128) -> bool
    ensures { IsTrue result ↔ (first ≡ second) }
{
    first == second
}

// Whether the potential is the step plus the one before.
fn is_sum(step: i128, before: i128, value: i128) -> bool
    ensures { IsTrue result ↔ (value ≡ (step +ℤ before)) }
{
    match step.checked_add(before) {
        Some(sum) => is_same(value, sum),
        None => false,
    }
}

// Whether the choice tells its potential: 0 at the root, and elsewhere the reduced time of its
// place plus the potential of the start.
fn tells_sum(net: &Net, ratio: Ratio, choices: &[Choice], root: usize, choice: Choice) -> bool
    requires { choice.place.index < length net.now.places }
    ensures { IsTrue result ↔ (choice.value ≡ sum_told net.now ratio choices.now root choice) }
{
    net.rules();
    if choice.transition.index as usize == root {
        return choice.value == 0;
    }
    let place = &net.places()[choice.place.index as usize];
    let before = value_for(choices, place.from.index as usize);
    is_sum(reduced(ratio, place), before, choice.value)
}

// Whether each choice tells its potential.
fn tell_sums(net: &Net, ratio: Ratio, choices: &[Choice], root: usize) -> bool
    requires { IsInRangeAt net.now choices.now }
    ensures { IsTrue result ↔ AreSumsTold net.now ratio choices.now root }
{
    for choice in choices {
        if !tells_sum(net, ratio, choices, root, *choice) {
            return false;
        }
    }
    true
}

// Whether the choices are one for each member, each of a place that enters it.
fn are_choices(part: &Part, choices: &[Choice]) -> bool
    ensures { IsTrue result ↔ AreChoicesOf part.now.net.now part.now.parts.now part.now.number
        choices.now }
{
    list_members(part.parts, part.number, choices) && are_entered(part, choices)
}

// Whether the places are such a circuit, and each choice tells its potential from where it begins.
fn fits_circuit(part: &Part, ratio: Ratio, choices: &[Choice], circuit: &[PlaceId]) -> bool
    requires { IsInRangeAt part.now.net.now choices.now }
    ensures fits { IsTrue result ↔ FitsCircuit part.now.net.now part.now.parts.now
        part.now.number ratio choices.now circuit.now }
    ensures terms { IsTrue result → IsLowestTerms ratio }
{
    if !is_circuit_told(part, ratio, choices, circuit) {
        return false;
    }
    tell_sums(part.net, ratio, choices, root_of(part.net, circuit))
}

// Whether the round is as its choices and its circuit have it.
fn fits_round(part: &Part, ratio: Ratio, choices: &[Choice], circuit: &[PlaceId]) -> bool
    ensures fits { IsTrue result ↔ FitsRound part.now.net.now part.now.parts.now part.now.number
        ratio choices.now circuit.now }
    ensures terms { IsTrue result → IsLowestTerms ratio }
{
    are_choices(part, choices) && fits_circuit(part, ratio, choices, circuit)
}

/// Whether a round is that of its policy (`IsRound`; Howard's algorithm, of which the book has
/// none): exactly where it has one choice for each member of the part, in order, of a place of the
/// part that enters it; its circuit is one of these places, told from its lowest numbered transition
/// on; its ratio is that of the circuit in lowest terms; and potentials are 0 where the circuit
/// begins, and elsewhere the reduced time of the member's place plus the potential where that place
/// begins.
///
/// The numbers of parts are one for each transition, in any sense. Which round it is, and whether it
/// is the best, is not looked at. It takes no memory, and time of the order of the square of the
/// part's members.
pub fn check_round(net: &Net, parts: &[u32], part: u32, round: &Round) -> bool
    requires { length parts.now ≡ length net.now.transitions }
    ensures { IsTrue result ↔ IsRound net.now parts.now part round.now }
{
    let own = Part {
        net,
        parts,
        number: part,
    };
    fits_round(&own, round.ratio, &round.choices, &round.circuit.places)
}
