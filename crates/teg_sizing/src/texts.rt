//! The text of an answer: how many further tokens are enough, or that none are, and the circuit
//! that shows it; or that no place has a name.
ghost use Rattle.std.specs.Prelude.{◌≡◌, ◌++◌, ◌<◌, [], length, IfOk, string_bytes};
ghost use Rattle.teg_text.specs.Lines.{line_then, written};
ghost use Rattle.teg_text.specs.ValueWords.{AreBytes};
ghost use Rattle.teg_sizing.specs.ValueRounds.{IsTarget};
ghost use Rattle.teg_sizing.specs.Sizings.{IsSizing};
ghost use Rattle.teg_sizing.specs.SizingTexts.{TextsOfSizingsDiffer, enough_line, impossible_line, no_place_lines, sizing_lines, told_sizing, HasSizingCircuitIn, HasNumberIn, IsSizingTold};

use crate::sizing::Sizing;
use std::alloc::{AllocError, Global};
use teg_net::{Net, OutOfMemory, PlaceId, Ratio};
use teg_text::{push_circuit, push_label};

// Appends the line of a number that is enough.
fn push_enough(
    text: &mut String,
    net: &Net,
    place: PlaceId,
    target: &Ratio,
    extra: u64,
) -> Result<(), AllocError>
    requires { place.index < length net.now.places }
    ensures { IfOk result (λ _. string_bytes text.new ≡
        string_bytes text.old ++ line_then (enough_line net.now place target.now extra) []) }
{
    let name = net.places()[place.index as usize].name.as_str();
    let time = target.time();
    let tokens = target.tokens();
    write!(text, "size {name} {time}/{tokens} extra {extra}\n")
}

// Appends the line that no number is.
fn push_impossible(
    text: &mut String,
    net: &Net,
    place: PlaceId,
    target: &Ratio,
) -> Result<(), AllocError>
    requires { place.index < length net.now.places }
    ensures { IfOk result (λ _. string_bytes text.new ≡
        string_bytes text.old ++ line_then (impossible_line net.now place target.now) []) }
{
    let name = net.places()[place.index as usize].name.as_str();
    let time = target.time();
    let tokens = target.tokens();
    write!(text, "size {name} {time}/{tokens} impossible\n")
}

// The lines of an answer: one with the place, the target and the number or `impossible`, and one of
// the circuit where one is told.
fn told_text(
    alloc: Global,
    net: &Net,
    place: PlaceId,
    target: &Ratio,
    sizing: &Sizing,
) -> Result<String, AllocError>
    requires place { place.index < length net.now.places }
    requires circuit { HasSizingCircuitIn net.now (told_sizing sizing.now) }
    ensures text { IfOk result (λ text. string_bytes text
        ≡ written (sizing_lines net.now place target.now (told_sizing sizing.now))) }
    ensures number { IfOk result (λ _. HasNumberIn (told_sizing sizing.now)) }
{
    let mut text = String::new(alloc);
    match sizing {
        Sizing::Enough { extra, circuit } => {
            push_enough(&mut text, net, place, target, *extra)?;
            if let Some(circuit) = circuit {
                push_circuit(&mut text, net, circuit)?;
            }
        }
        Sizing::Impossible { circuit } => {
            push_impossible(&mut text, net, place, target)?;
            push_circuit(&mut text, net, circuit)?;
        }
    }
    Ok(text)
}

/// The text of an answer of `size`: one line with the place, the target in lowest terms and the
/// number or `impossible`, and a line of the circuit where one is told. `OutOfMemory` comes only
/// where no memory is found.
pub fn sizing_text(
    alloc: Global,
    net: &Net,
    place: PlaceId,
    target: &Ratio,
    sizing: &Sizing,
) -> Result<String, OutOfMemory>
    requires place { place.index < length net.now.places }
    requires target { IsTarget target.now }
    requires sizing { IsSizing net.now target.now place sizing.now }
    ensures text { IfOk result (λ text. string_bytes text
        ≡ written (sizing_lines net.now place target.now (told_sizing sizing.now))) }
    ensures told { IfOk result (λ _. IsSizingTold net.now place target.now (told_sizing
        sizing.now)) }
{
    Ok(told_text(alloc, net, place, target, sizing)?)
}

/// The text that no place has a name, which it tells as a label. `OutOfMemory` comes only where no
/// memory is found.
pub fn no_place_text(alloc: Global, name: &str) -> Result<String, OutOfMemory>
    ensures text { IfOk result (λ text. string_bytes text ≡ written (no_place_lines name.now)) }
    ensures told { AreBytes name.now }
{
    let mut text = String::from_str(alloc, "refused: no place ")?;
    push_label(&mut text, name)?;
    text.push('\n')?;
    Ok(text)
}

/// The law that different answers about one net have different texts, the one that no place has a
/// name among them. It does nothing when it runs.
pub fn texts_of_sizings_differ()
    ensures { TextsOfSizingsDiffer }
{}
