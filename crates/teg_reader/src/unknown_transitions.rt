//! Texts that name no transition.
ghost use Rattle.std.specs.Prelude.{◌≡◌, map, option_map, [], ◌∷◌};
ghost use Rattle.std.specs.Map.Iter.{deref};
ghost use Rattle.toml.specs.View.{view};
ghost use Rattle.teg_reader.specs.DocumentTrees.{text_or_empty, texts_of, texts_at};
ghost use Rattle.teg_reader.specs.UnknownTransitions.{unknown_among, unknown_text};

use crate::keys::Key;
use crate::numbers::has_number;
use crate::refusals::{ReadRefusal, Section, Spot};
use crate::trees::{elements_of, text_at, text_of, value_at};
use crate::walk::Pass;
use indexmap::IndexSet;
use std::alloc::Global;
use teg_net::Label;
use toml::Value;

// The first of the texts that names no transition.
#[tactic(auto, unfolding(crate::specs::UnknownTransitions::unknown_among))]
fn unknown_in<'a>(names: &IndexSet<&str>, values: &'a [Value]) -> Option<&'a str>
    ensures { option_map (λ t. t.now) result ≡ unknown_among (map deref names.now.keys)
        (map text_or_empty (map view values.now)) }
{
    for value in values {
        let text = text_of(value);
        if !has_number(names, text) {
            return Some(text);
        }
    }
    None
}

// The text, if it names no transition.
#[tactic(auto, unfolding(crate::specs::UnknownTransitions::unknown_among))]
fn unknown_one<'a>(names: &IndexSet<&str>, text: &'a str) -> Option<&'a str>
    ensures { option_map (λ t. t.now) result ≡ unknown_among (map deref names.now.keys)
        (text.now ∷ []) }
{
    if has_number(names, text) {
        None
    } else {
        Some(text)
    }
}

// The first text of the value, one or an array, that names no transition.
#[tactic(auto, using(crate::proofs::UnknownLemmas::none_unknown), unfolding(crate::specs::DocumentTrees::texts_of))]
fn unknown_of<'a>(names: &IndexSet<&str>, value: &'a Value) -> Option<&'a str>
    ensures { option_map (λ t. t.now) result ≡ unknown_among (map deref names.now.keys)
        (texts_of (view value.now)) }
{
    match value.as_str() {
        Some(text) => unknown_one(names, text),
        None => match elements_of(value) {
            Some(values) => unknown_in(names, values),
            None => None,
        },
    }
}

// The first text at the key that names no transition.
#[tactic(auto, using(crate::proofs::UnknownLemmas::none_unknown), unfolding(crate::specs::DocumentTrees::texts_at))]
fn unknown_at<'a>(names: &IndexSet<&str>, entry: &'a Value, key: Key) -> Option<&'a str>
    ensures { option_map (λ t. t.now) result ≡ unknown_among (map deref names.now.keys)
        (texts_at key (view entry.now)) }
{
    match value_at(entry, key) {
        Some(value) => unknown_of(names, value),
        None => None,
    }
}

// The first text of the entry that is to name a transition and names none.
#[tactic(auto, unfolding(crate::specs::UnknownTransitions::unknown_text))]
fn unknown_text<'a>(names: &IndexSet<&str>, section: Section, entry: &'a Value) -> Option<&'a str>
    ensures { option_map (λ t. t.now) result ≡ unknown_text (map deref names.now.keys) section
        (view entry.now) }
{
    match section {
        Section::Place => match unknown_at(names, entry, Key::From) {
            Some(text) => Some(text),
            None => unknown_at(names, entry, Key::To),
        },
        Section::Input => unknown_one(names, text_at(entry, Key::Transition)),
        _ => None,
    }
}

// Finds texts that name no transition.
#[derive(Drop)]
pub(crate) struct UnknownTransitions<'a, 'b> {
    pub(crate) names: &'a IndexSet<&'b str>,
}

impl<'a, 'b> Pass for UnknownTransitions<'a, 'b> {
    ghost use Rattle.std.specs.Prelude.{map};
    ghost use Rattle.std.specs.Map.Iter.{deref};
    ghost use Rattle.teg_reader.specs.UnknownTransitions.{unknown_transition};

    ghost looks = { λ s. unknown_transition (map deref s.names.now.keys) };

    #[tactic(auto, unfolding(crate::specs::UnknownTransitions::unknown_transition))]
    fn look(&self, alloc: Global, spot: Spot, entry: &Value) -> Result<(), ReadRefusal> {
        match unknown_text(self.names, spot.section, entry) {
            Some(text) => {
                let name = Label::new(alloc, text)?;
                Err(ReadRefusal::UnknownTransition { spot, name })
            }
            None => Ok(()),
        }
    }
}
