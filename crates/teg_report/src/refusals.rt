//! The texts of refused net files.
ghost use Rattle.std.specs.Prelude.{◌≡◌, [], ◌∷◌, IfOk, IsTrue, string_bytes};
ghost use Rattle.teg_net.specs.Names.{is_name};
ghost use Rattle.teg_reader.specs.RefusalSpots.{HasPlainSpot};
ghost use Rattle.teg_report.specs.FileRefusalLines.{IsReadRefusalKept, ends_line, entered_line, fault_line, hold_line, input_line, read_line, ready_line};
ghost use Rattle.teg_report.specs.SpotWords.{spot_text};
ghost use Rattle.teg_lines.specs.Widths.{IsWord32};
ghost use Rattle.teg_text.specs.Lines.{written};
ghost use Rattle.teg_text.specs.ValueWords.{AreBytes, label_word};

use crate::texts::bytes_of;
use std::alloc::Global;
use teg_net::{Label, Name, OutOfMemory};
use teg_reader::{ReadRefusal, Section, Spot};
use teg_text::push_label;

// A table of the file.
fn spot_text(alloc: Global, spot: &Spot) -> Result<String, OutOfMemory>
    ensures text { IfOk result (λ text. string_bytes text ≡ spot_text spot.now) }
    ensures kept { IsWord32 spot.now.position }
{
    let position = spot.position;
    match spot.section {
        Section::Top => Ok(String::from_str(alloc, "top")?),
        Section::Transition => Ok(format!(in alloc; "transition {position}")?),
        Section::Place => Ok(format!(in alloc; "place {position}")?),
        Section::Input => Ok(format!(in alloc; "input {position}")?),
    }
}

// A label, byte by byte.
fn label_word(alloc: Global, label: &Label) -> Result<String, OutOfMemory>
    ensures text { IfOk result (λ text. string_bytes text ≡ label_word label.now) }
    ensures kept { IfOk result (λ _. AreBytes label.now) }
{
    let mut text = String::new(alloc);
    push_label(&mut text, label.as_str())?;
    Ok(text)
}

// What is wrong at a table.
#[tactic(auto, using(crate::proofs::RefusalsWritten::fault_written))]
fn fault_at(alloc: Global, spot: &Spot, fault: &str) -> Result<Vec<u8>, OutOfMemory>
    ensures text { IfOk result (λ text. text.items ≡ written
        (fault_line spot.now fault.now [] ∷ [])) }
    ensures kept { IsWord32 spot.now.position }
{
    let spot = spot_text(alloc, spot)?;
    let text = format!(in alloc; "refused: {spot} {fault}\n")?;
    Ok(text.into_bytes())
}

// What is wrong at a table, and with which key or text.
#[tactic(auto, using(crate::proofs::RefusalsWritten::fault_written))]
fn fault_with(alloc: Global, spot: &Spot, fault: &str, about: &str) -> Result<Vec<u8>, OutOfMemory>
    ensures text { IfOk result (λ text. text.items ≡ written
        (fault_line spot.now fault.now (about.now ∷ []) ∷ [])) }
    ensures kept { IsWord32 spot.now.position }
{
    let spot = spot_text(alloc, spot)?;
    let text = format!(in alloc; "refused: {spot} {fault} {about}\n")?;
    Ok(text.into_bytes())
}

// What is wrong at a table, and with which text.
fn fault_with_label(
    alloc: Global,
    spot: &Spot,
    fault: &str,
    label: &Label,
) -> Result<Vec<u8>, OutOfMemory>
    ensures text { IfOk result (λ text. text.items ≡ written
        (fault_line spot.now fault.now (label_word label.now ∷ []) ∷ [])) }
    ensures kept { IfOk result (λ _. IsWord32 spot.now.position × AreBytes label.now) }
{
    let label = label_word(alloc, label)?;
    fault_with(alloc, spot, fault, label.as_str())
}

// How many producers and consumers a place has.
fn ends(alloc: Global, place: &Name, producers: u32, consumers: u32) -> Result<Vec<u8>, OutOfMemory>
    ensures text { IfOk result (λ text. text.items ≡ written
        (ends_line place.now producers consumers ∷ [])) }
    ensures kept { IsTrue (is_name place.now) × IsWord32 producers × IsWord32 consumers }
{
    let place = place.as_str();
    let text = format!(in alloc;
        "refused: place {place} has {producers} producers and {consumers} consumers\n"
    )?;
    Ok(text.into_bytes())
}

// That a place leads to an input.
fn entered(alloc: Global, place: &Name) -> Result<Vec<u8>, OutOfMemory>
    ensures text { IfOk result (λ text. text.items ≡ written (entered_line place.now ∷ [])) }
    ensures kept { IsTrue (is_name place.now) }
{
    let place = place.as_str();
    let text = format!(in alloc; "refused: place {place} enters an input\n")?;
    Ok(text.into_bytes())
}

// Where the list of an input is faulty.
fn input(alloc: Global, transition: &Name, position: u32) -> Result<Vec<u8>, OutOfMemory>
    ensures text { IfOk result (λ text. text.items ≡ written
        (input_line transition.now position ∷ [])) }
    ensures kept { IsTrue (is_name transition.now) × IsWord32 position }
{
    let transition = transition.as_str();
    let text = format!(in alloc; "refused: input of {transition} bad at {position}\n")?;
    Ok(text.into_bytes())
}

// How many ready dates a place has, and how many tokens.
fn ready(alloc: Global, place: &Name, given: u32, tokens: u32) -> Result<Vec<u8>, OutOfMemory>
    ensures text { IfOk result (λ text. text.items ≡ written
        (ready_line place.now given tokens ∷ [])) }
    ensures kept { IsTrue (is_name place.now) × IsWord32 given × IsWord32 tokens }
{
    let place = place.as_str();
    let text = format!(in alloc;
        "refused: place {place} has {given} ready dates for {tokens} tokens\n"
    )?;
    Ok(text.into_bytes())
}

// That the hold of a place is too great.
fn hold(alloc: Global, place: &Name) -> Result<Vec<u8>, OutOfMemory>
    ensures text { IfOk result (λ text. text.items ≡ written (hold_line place.now ∷ [])) }
    ensures kept { IsTrue (is_name place.now) }
{
    let place = place.as_str();
    let text = format!(in alloc; "refused: place {place} hold exceeds 1000000000\n")?;
    Ok(text.into_bytes())
}

// Why the bytes of a file say no net.
pub(crate) fn read(alloc: Global, refusal: &ReadRefusal) -> Result<Vec<u8>, OutOfMemory>
    ensures text { IfOk result (λ text. text.items ≡ written (read_line refusal.now ∷ [])) }
    ensures kept { IfOk result (λ _. HasPlainSpot refusal.now → IsReadRefusalKept refusal.now) }
{
    match refusal {
        ReadRefusal::NotToml => bytes_of(alloc, "refused: not TOML\n"),
        ReadRefusal::UnknownKey { spot, key } => {
            fault_with_label(alloc, spot, "unknown key", key)
        }
        ReadRefusal::WrongKind { spot, key } => fault_with(alloc, spot, "wrong kind", key.text()),
        ReadRefusal::MissingKey { spot, key } => fault_with(alloc, spot, "missing", key.text()),
        ReadRefusal::BadName { spot } => fault_at(alloc, spot, "bad name"),
        ReadRefusal::Repeated { spot } => fault_at(alloc, spot, "repeated"),
        ReadRefusal::OutOfRange { spot, key } => {
            fault_with(alloc, spot, "out of range", key.text())
        }
        ReadRefusal::NoTransitions => bytes_of(alloc, "refused: no transitions\n"),
        ReadRefusal::UnknownTransition { spot, name } => {
            fault_with_label(alloc, spot, "unknown transition", name)
        }
        ReadRefusal::NotEventGraph {
            place,
            producers,
            consumers,
        } => ends(alloc, place, *producers, *consumers),
        ReadRefusal::InputHasUpstream { place } => entered(alloc, place),
        ReadRefusal::BadInput {
            transition,
            position,
        } => input(alloc, transition, *position),
        ReadRefusal::BadReady {
            place,
            given,
            tokens,
        } => ready(alloc, place, *given, *tokens),
        ReadRefusal::TooSlow { place } => hold(alloc, place),
        ReadRefusal::OutOfMemory => Err(OutOfMemory),
    }
}
