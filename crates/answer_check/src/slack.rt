//! The witnesses of `teg slack`: circuits, potentials and numbers, which its text does not name.
ghost use Rattle.std.specs.Prelude.{◌≡◌, ◌<◌, ◌++◌, [], IfOk, IfSome, IsTrue, Some, length, string_bytes};
ghost use Rattle.teg_net.specs.Ratios.{Fraction};
ghost use Rattle.teg_certificates.specs.BestRatios.{best_ratio_of};
ghost use Rattle.teg_text.specs.Lines.{line_then, written};
ghost use Rattle.answer_check.specs.ShownSlacks.{AreToldOfPlaces, IsPassedBest, IsShownSlack, PassesNone, RisesJustBy, TellsOfPlace, line_of_pace, line_of_slack, lines_of_slacks};

use crate::slack_reading::slack_in;
use crate::slack_search::SlackSearch;
use std::alloc::{AllocError, Global};
use teg_certificates::{
    RiseWitness, best_ratio, certificates_tell, check_cycle, rise_potentials_tell,
    rising_numbers_show_no_circuit, shows_critical, shows_no_circuit, shows_rise,
};
use teg_net::{CycleAnswer, Net, OutOfMemory, PlaceId, Ratio};
use witness_check::is_seen_live;

/// What a line of `teg slack` tells of a place.
#[derive(Clone, Copy, Debug, PartialEq, Eq)]
pub enum ShownSlack {
    /// No circuit passes the place.
    NoCircuit,
    /// A circuit of the greatest ratio passes it.
    Critical,
    /// Its hold can rise by so much, in the user's unit, and by no more.
    Rise { by: u64 },
}

// Whether the numbers show that no circuit passes the place.
fn passes_none(net: &Net, numbers: &[u32], place: PlaceId) -> bool
    ensures { IsTrue result → PassesNone net.now place }
{
    net.rules();
    rising_numbers_show_no_circuit();
    shows_no_circuit(net, numbers, place)
}

// Whether the places are a circuit of the greatest ratio that passes the place.
fn is_passed(net: &Net, answer: &CycleAnswer, place: PlaceId, circuit: &[PlaceId]) -> bool
    ensures { IsTrue result → (r : Fraction) → best_ratio_of answer.now ≡ Some r
        → IsPassedBest net.now r place }
{
    shows_critical(net, answer, place, circuit)
}

// Whether the hold of the place is shown to rise just by so much.
fn rises_just_by(net: &Net, answer: &CycleAnswer, place: PlaceId, rise: &RiseWitness) -> bool
    ensures { IsTrue result → (r : Fraction) → best_ratio_of answer.now ≡ Some r
        → RisesJustBy net.now r place rise.now.by }
{
    rise_potentials_tell();
    shows_rise(net, answer, place, rise)
}

// Whether what is told of the place is seen to be so.
fn is_seen(
    alloc: Global,
    net: &Net,
    search: &SlackSearch<'_>,
    answer: &CycleAnswer,
    place: PlaceId,
    slack: ShownSlack,
) -> Result<bool, AllocError>
    ensures { IfOk result (λ yes. IsTrue yes → (r : Fraction) → best_ratio_of answer.now ≡ Some r
        → TellsOfPlace net.now r place slack) }
{
    match slack {
        ShownSlack::NoCircuit => {
            let numbers = search.numbers_behind(alloc, place)?;
            Ok(passes_none(net, &numbers, place))
        }
        ShownSlack::Critical => {
            let circuit = search.best_circuit(alloc, place)?;
            Ok(is_passed(net, answer, place, &circuit.places))
        }
        ShownSlack::Rise { by } => {
            let potentials = search.raised_potentials(alloc, place, by)?;
            let circuit = search.best_circuit(alloc, place)?;
            let rise = RiseWitness {
                by,
                circuit,
                potentials,
            };
            Ok(rises_just_by(net, answer, place, &rise))
        }
    }
}

// Whether what is told of each place is seen to be so.
fn are_seen(
    alloc: Global,
    net: &Net,
    search: &SlackSearch<'_>,
    answer: &CycleAnswer,
    slacks: &[ShownSlack],
) -> Result<bool, AllocError>
    requires { length slacks.now ≡ length net.now.places }
    ensures { IfOk result (λ yes. IsTrue yes → (r : Fraction) → best_ratio_of answer.now ≡ Some r
        → AreToldOfPlaces net.now r (length net.now.places) slacks.now) }
{
    for index in 0..net.places().len() {
        let place = PlaceId {
            index: index as u32,
        };
        if !is_seen(alloc, net, search, answer, place, slacks[index])? {
            return Ok(false);
        }
    }
    Ok(true)
}

// Appends the line of the place of this number, counted from 0.
fn push_slack(
    text: &mut String,
    net: &Net,
    index: usize,
    slack: ShownSlack,
) -> Result<(), AllocError>
    requires { index < length net.now.places }
    ensures { IfOk result (λ _. string_bytes text.new ≡
        string_bytes text.old ++ line_then (line_of_slack net.now index slack) []) }
{
    let name = net.places()[index].name.as_str();
    match slack {
        ShownSlack::NoCircuit => write!(text, "place {name} no circuit\n"),
        ShownSlack::Critical => write!(text, "place {name} critical\n"),
        ShownSlack::Rise { by } => write!(text, "place {name} slack {by}\n"),
    }
}

// Appends the line of the ratio.
fn push_pace(text: &mut String, ratio: Ratio) -> Result<(), AllocError>
    ensures { IfOk result (λ _. string_bytes text.new ≡
        string_bytes text.old ++ line_then (line_of_pace ratio) []) }
{
    let time = ratio.time();
    let tokens = ratio.tokens();
    write!(text, "cycle time {time}/{tokens}\n")
}

// The lines of the ratio and of the places.
fn lines_of(
    alloc: Global,
    net: &Net,
    ratio: Ratio,
    slacks: &[ShownSlack],
) -> Result<String, AllocError>
    requires { length slacks.now ≡ length net.now.places }
    ensures { IfOk result (λ text. string_bytes text ≡
        written (lines_of_slacks net.now ratio slacks.now)) }
{
    let mut text = String::new(alloc);
    push_pace(&mut text, ratio)?;
    for index in 0..net.places().len() {
        push_slack(&mut text, net, index, slacks[index])?;
    }
    Ok(text)
}

/// The ratio that the text of `teg slack` tells in its first line, where the whole text is seen to
/// be so (chapters 2 and 3): the net is live, the ratio is the greatest over all circuits of the
/// net, and of each place, where a circuit of that ratio passes it, that it is critical; where no
/// circuit does, that; and else, by how much its hold can rise and by no more, in the user's unit.
/// Circuits, potentials and numbers that show it are searched for, once from each transition. It takes
/// memory of order `n^2` and for the text, and time of order `n p log p` for n transitions and p
/// places, and of order `n^2 + p` for each place. `OutOfMemory` comes only where no memory is found.
pub fn shown_slack(alloc: Global, net: &Net, text: &str) -> Result<Option<Ratio>, OutOfMemory>
    ensures { IfOk result (λ r. IfSome r (IsShownSlack net.now text.now)) }
{
    net.rules();
    certificates_tell();
    let Some((ratio, told)) = slack_in(alloc, text)? else {
        return Ok(None);
    };
    let slacks = told.as_slice();
    if slacks.len() != net.places().len() {
        return Ok(None);
    }
    if !is_seen_live(alloc, net)? {
        return Ok(None);
    }
    let search = SlackSearch::new(alloc, net, ratio)?;
    let answer = search.cycle_times(alloc, slacks)?;
    if !check_cycle(net, &answer) {
        return Ok(None);
    }
    let Some(ratio) = best_ratio(&answer) else {
        return Ok(None);
    };
    if !are_seen(alloc, net, &search, &answer, slacks)? {
        return Ok(None);
    }
    let lines = lines_of(alloc, net, ratio, slacks)?;
    if lines.as_str() != text {
        return Ok(None);
    }
    Ok(Some(ratio))
}
