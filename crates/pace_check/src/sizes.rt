//! The witnesses of `teg size`: potentials that show a number of tokens to be enough, and a circuit
//! that shows one less to be too few, or each number.
ghost use Rattle.std.specs.Prelude.{◌≡◌, ◌↔◌, ◌-◌, ◌<◌, ◌≤◌, ◌++◌, ◌∷◌, [], IfOk, IsTrue, Some, length, string_bytes};
ghost use Rattle.teg_net.specs.Circuits.{AreInRange};
ghost use Rattle.teg_text.specs.Lines.{line_then, written};
ghost use Rattle.teg_text.specs.WordsOfNames.{circuit_line};
ghost use Rattle.teg_certificates.specs.Sizes.{IsStillAbove};
ghost use Rattle.pace_check.specs.ShownSizes.{IsAskedSize, ShowsSize, TellsEnoughBy, TellsImpossibleBy, enough_words, impossible_words};
ghost use Rattle.pace_check.specs.SizeReading.{ReadsSize, ShowsEnoughBy, ShowsImpossibleBy};

use crate::potentials::{Furthered, is_enough};
use crate::size_reading::{SizeTold, size_in};
use std::alloc::{AllocError, Global};
use teg_certificates::{shows_never_enough, shows_too_few};
use teg_net::{Circuit, Net, OutOfMemory, PlaceId, Ratio};
use teg_text::push_circuit;

// The greatest time of a target that may be asked.
const GREATEST_TARGET_TIME: u64 = 1_000_000_000_000;

// The most tokens of one.
const MOST_TARGET_TOKENS: u64 = 1_000_000;

/// What the text of `teg size` shows of a place and of a target, the time over the tokens.
#[derive(Clone, Copy, Debug, PartialEq, Eq)]
pub enum ShownSize {
    /// So many extra tokens of the place are enough, and no fewer.
    Enough {
        place: PlaceId,
        target: Ratio,
        extra: u64,
    },
    /// No number of extra tokens is enough.
    Impossible {
        place: PlaceId,
        target: Ratio,
    },
}

// So many extra tokens of a place, and a target.
#[derive(Clone, Copy)]
struct Sizing {
    place: PlaceId,
    target: Ratio,
    extra: u64,
}

// Appends the line of a number that is enough.
fn push_enough(text: &mut String, net: &Net, sizing: Sizing) -> Result<(), AllocError>
    requires { sizing.place.index < length net.now.places }
    ensures { IfOk result (λ _. string_bytes text.new ≡ string_bytes text.old
        ++ line_then (enough_words net.now sizing.place sizing.target sizing.extra) []) }
{
    let name = net.places()[sizing.place.index as usize].name.as_str();
    let time = sizing.target.time();
    let tokens = sizing.target.tokens();
    let extra = sizing.extra;
    write!(text, "size {name} {time}/{tokens} extra {extra}\n")
}

// Appends the line that no number is.
fn push_impossible(
    text: &mut String,
    net: &Net,
    place: PlaceId,
    target: &Ratio,
) -> Result<(), AllocError>
    requires { place.index < length net.now.places }
    ensures { IfOk result (λ _. string_bytes text.new ≡
        string_bytes text.old ++ line_then (impossible_words net.now place target.now) []) }
{
    let name = net.places()[place.index as usize].name.as_str();
    let time = target.time();
    let tokens = target.tokens();
    write!(text, "size {name} {time}/{tokens} impossible\n")
}

// Whether the text is just this one.
fn is_just(text: &str, told: &str) -> bool
    ensures { IsTrue result ↔ (text.now ≡ told.now) }
{
    text == told
}

// Whether the whole text is the line that the target needs no further tokens.
fn tells_none(alloc: Global, net: &Net, text: &str, sizing: Sizing) -> Result<bool, AllocError>
    requires { sizing.place.index < length net.now.places }
    ensures { IfOk result (λ yes. IsTrue yes ↔ (text.now ≡ written
        (enough_words net.now sizing.place sizing.target sizing.extra ∷ []))) }
{
    let mut lines = String::new(alloc);
    push_enough(&mut lines, net, sizing)?;
    Ok(is_just(text, lines.as_str()))
}

// Whether the whole text is the line of a number that is enough, with that of the circuit.
fn tells_some(
    alloc: Global,
    net: &Net,
    text: &str,
    sizing: Sizing,
    circuit: &Circuit,
) -> Result<bool, AllocError>
    requires place { sizing.place.index < length net.now.places }
    requires circuit { AreInRange net.now circuit.now.places.items }
    ensures { IfOk result (λ yes. IsTrue yes ↔ (text.now ≡ written
        (enough_words net.now sizing.place sizing.target sizing.extra
        ∷ circuit_line net.now circuit.now.places.items ∷ []))) }
{
    let mut lines = String::new(alloc);
    push_enough(&mut lines, net, sizing)?;
    push_circuit(&mut lines, net, circuit)?;
    Ok(is_just(text, lines.as_str()))
}

// Whether the whole text is the line that no number is enough, with that of the circuit.
fn tells_impossible(
    alloc: Global,
    net: &Net,
    text: &str,
    place: PlaceId,
    target: &Ratio,
    circuit: &Circuit,
) -> Result<bool, AllocError>
    requires place { place.index < length net.now.places }
    requires circuit { AreInRange net.now circuit.now.places.items }
    ensures { IfOk result (λ yes. IsTrue yes ↔ (text.now ≡ written
        (impossible_words net.now place target.now
        ∷ circuit_line net.now circuit.now.places.items ∷ []))) }
{
    let mut lines = String::new(alloc);
    push_impossible(&mut lines, net, place, target)?;
    push_circuit(&mut lines, net, circuit)?;
    Ok(is_just(text, lines.as_str()))
}

// Whether the circuit shows that one less is too few.
fn is_too_few(net: &Net, target: &Ratio, place: PlaceId, extra: u64, circuit: &[PlaceId]) -> bool
    ensures { IsTrue result ↔ ((1 ≤ extra)
        × IsStillAbove net.now target.now place (extra - 1) circuit.now) }
{
    if extra == 0 {
        return false;
    }
    shows_too_few(net, target, place, extra - 1, circuit)
}

// Whether the text tells the number with the circuit, which shows that one less is too few.
fn tells_with_circuit(
    alloc: Global,
    net: &Net,
    text: &str,
    sizing: Sizing,
    circuit: &Circuit,
) -> Result<bool, AllocError>
    requires place { sizing.place.index < length net.now.places }
    requires circuit { AreInRange net.now circuit.now.places.items }
    ensures { IfOk result (λ yes. IsTrue yes ↔ ((1 ≤ sizing.extra)
        × IsStillAbove net.now sizing.target sizing.place (sizing.extra - 1)
        circuit.now.places.items × (text.now ≡ written
        (enough_words net.now sizing.place sizing.target sizing.extra
        ∷ circuit_line net.now circuit.now.places.items ∷ [])))) }
{
    let Sizing {
        place,
        target,
        extra,
    } = sizing;
    if !is_too_few(net, &target, place, extra, &circuit.places) {
        return Ok(false);
    }
    tells_some(alloc, net, text, sizing, circuit)
}

// Whether the text tells the number, with the circuit where it is above 0, which shows that fewer are
// not enough.
fn tells_fewest(
    alloc: Global,
    net: &Net,
    text: &str,
    sizing: Sizing,
    circuit: &Circuit,
) -> Result<bool, AllocError>
    requires place { sizing.place.index < length net.now.places }
    requires circuit { AreInRange net.now circuit.now.places.items }
    ensures { IfOk result (λ yes. IsTrue yes ↔ TellsEnoughBy net.now text.now sizing.place
        sizing.target sizing.extra circuit.now.places.items) }
{
    if sizing.extra == 0 {
        tells_none(alloc, net, text, sizing)
    } else {
        tells_with_circuit(alloc, net, text, sizing, circuit)
    }
}

// Whether the place is one of the net and the target one that may be asked.
fn is_asked(net: &Net, place: PlaceId, target: &Ratio) -> bool
    ensures { IsTrue result ↔ IsAskedSize net.now place target.now }
{
    let (time, tokens) = (target.time(), target.tokens());
    net.contains_place(place) && time <= GREATEST_TARGET_TIME && tokens <= MOST_TARGET_TOKENS
}

// The answer that so many extra tokens are enough and no fewer, where it is told with this circuit.
fn shown_enough(
    alloc: Global,
    net: &Net,
    text: &str,
    sizing: Sizing,
    circuit: &Circuit,
) -> Result<Option<ShownSize>, AllocError>
    requires asked { IsAskedSize net.now sizing.place sizing.target }
    requires circuit { AreInRange net.now circuit.now.places.items }
    ensures { IfOk result (ShowsEnoughBy net.now text.now sizing.place sizing.target sizing.extra
        circuit.now.places.items) }
{
    if !tells_fewest(alloc, net, text, sizing, circuit)? {
        return Ok(None);
    }
    let Sizing {
        place,
        target,
        extra,
    } = sizing;
    let furthered = Furthered {
        net,
        target,
        place,
        extra,
    };
    if !is_enough(alloc, &furthered)? {
        return Ok(None);
    }
    Ok(Some(ShownSize::Enough {
        place,
        target,
        extra,
    }))
}

// The answer that no number is enough, where it is told with this circuit.
fn shown_impossible(
    alloc: Global,
    net: &Net,
    text: &str,
    place: PlaceId,
    target: Ratio,
    circuit: &Circuit,
) -> Result<Option<ShownSize>, AllocError>
    requires asked { IsAskedSize net.now place target }
    requires circuit { AreInRange net.now circuit.now.places.items }
    ensures { IfOk result (ShowsImpossibleBy net.now text.now place target
        circuit.now.places.items) }
{
    if !shows_never_enough(net, &target, place, &circuit.places) {
        return Ok(None);
    }
    if !tells_impossible(alloc, net, text, place, &target, circuit)? {
        return Ok(None);
    }
    Ok(Some(ShownSize::Impossible { place, target }))
}

// What is shown of a text that tells this about a place and a target that may be asked.
fn shown_told(
    alloc: Global,
    net: &Net,
    text: &str,
    told: &SizeTold,
) -> Result<Option<ShownSize>, AllocError>
    requires asked { IsAskedSize net.now told.now.place told.now.target }
    requires circuit { AreInRange net.now told.now.circuit.places.items }
    requires read { ReadsSize net.now text.now (Some (record {
      place = told.now.place;
      target = told.now.target;
      extra = told.now.extra;
      circuit = told.now.circuit.places.items;
    })) }
    ensures { IfOk result (ShowsSize net.now text.now) }
{
    net.rules();
    let (place, target) = (told.place, told.target);
    match told.extra {
        Some(extra) => {
            let sizing = Sizing {
                place,
                target,
                extra,
            };
            let shown = shown_enough(alloc, net, text, sizing, &told.circuit)?;
            Ok(shown)
        }
        None => {
            let shown = shown_impossible(alloc, net, text, place, target, &told.circuit)?;
            Ok(shown)
        }
    }
}

/// What the text of `teg size` tells, where it is shown to be so: the extra tokens of the place are
/// the fewest with which no circuit is above the target, or no number is enough (chapters 2 and 3).
///
/// There is none just where the text tells no such thing: it is no answer about a place of the net
/// and a target that may be asked, of a time of at most 10^12 and at most 10^6 tokens, in lowest
/// terms; or what it tells is not so. That the tokens are enough is shown by potentials, which are
/// searched for and found wherever it is so; that fewer are not, or that none are, by the circuit of
/// the text, which is told from any of its places on. The whole text is looked at. It takes time of
/// the order transitions times places. `OutOfMemory` comes only where no memory is found.
pub fn shown_size(alloc: Global, net: &Net, text: &str) -> Result<Option<ShownSize>, OutOfMemory>
    ensures { IfOk result (ShowsSize net.now text.now) }
{
    net.rules();
    let Some(told) = size_in(alloc, net, text)? else {
        return Ok(None);
    };
    if !is_asked(net, told.place, &told.target) {
        return Ok(None);
    }
    let shown = shown_told(alloc, net, text, &told)?;
    Ok(shown)
}
