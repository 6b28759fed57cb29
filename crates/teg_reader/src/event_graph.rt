//! The shape of the graph: each place joins one transition to one, and enters no input.
ghost use Rattle.std.specs.Prelude.{◌≡◌, true, map, length, Some, None, IfOk};
ghost use Rattle.std.specs.List.{list_all};
ghost use Rattle.std.specs.Map.Iter.{deref};
ghost use Rattle.toml.specs.View.{view};
ghost use Rattle.teg_net.specs.Names.{is_name};
ghost use Rattle.teg_reader.specs.DocumentTrees.{entry_names, texts_of, texts_at};
ghost use Rattle.teg_reader.specs.PassWalks.{Finds, first_of_entries};
ghost use Rattle.teg_reader.specs.BadNames.{has_good_name};
ghost use Rattle.teg_reader.specs.EventGraphs.{no_transitions, not_event_graph, first_text, end_at, is_input_entry, is_input_named, input_has_upstream};

use crate::keys::Key;
use crate::numbers::entry_named;
use crate::refusals::ReadRefusal;
use crate::trees::{elements_of, text_at, text_of, value_at};
use indexmap::IndexSet;
use std::alloc::{AllocError, Global};
use teg_net::{Name, NameRefused};
use toml::Value;

// A copy of a name.
pub(crate) fn copy_name(alloc: Global, text: &str) -> Result<Name, AllocError>
    requires { is_name text.now ≡ true }
    ensures { IfOk result (λ name. name ≡ text.now) }
{
    match Name::new(alloc, text) {
        Ok(name) => Ok(name),
        Err(NameRefused::Bad) => unreachable!(),
        Err(NameRefused::OutOfMemory) => Err(AllocError),
    }
}

// Looks whether there is a transition.
#[tactic(auto, unfolding(crate::specs::EventGraphs::no_transitions))]
pub(crate) fn look_for_transitions(transitions: &[Value]) -> Result<(), ReadRefusal>
    ensures { Finds (no_transitions (map view transitions.now)) result }
{
    if transitions.is_empty() {
        return Err(ReadRefusal::NoTransitions);
    }
    Ok(())
}

// How many texts the value is: one text, or those of an array.
#[tactic(auto, using(crate::proofs::TreeLemmas::lengths), unfolding(crate::specs::DocumentTrees::texts_of))]
fn texts_len(value: &Value) -> usize
    ensures { result ≡ length (texts_of (view value.now)) }
{
    if value.is_str() {
        return 1;
    }
    match elements_of(value) {
        Some(values) => values.len(),
        None => 0,
    }
}

// How many texts stand at the key.
#[tactic(auto, unfolding(crate::specs::DocumentTrees::texts_at))]
fn texts_len_at(entry: &Value, key: Key) -> usize
    ensures { result ≡ length (texts_at key (view entry.now)) }
{
    match value_at(entry, key) {
        Some(value) => texts_len(value),
        None => 0,
    }
}

// Looks whether the place has one producer and one consumer. No file has so many texts that their
// number is past 32 bits; it would be answered as want of memory.
#[tactic(auto, unfolding(crate::specs::EventGraphs::not_event_graph))]
fn look_at_ends(alloc: Global, place: &Value) -> Result<(), ReadRefusal>
    requires { has_good_name (view place.now) ≡ true }
    ensures { Finds (not_event_graph (view place.now)) result }
{
    let producers = texts_len_at(place, Key::From);
    let consumers = texts_len_at(place, Key::To);
    if producers == 1 && consumers == 1 {
        return Ok(());
    }
    let (Ok(producers), Ok(consumers)) = (u32::try_from(producers), u32::try_from(consumers)) else {
        return Err(ReadRefusal::OutOfMemory);
    };
    let place = copy_name(alloc, text_at(place, Key::Name))?;
    Err(ReadRefusal::NotEventGraph {
        place,
        producers,
        consumers,
    })
}

// Looks for a place that has not one producer and one consumer.
pub(crate) fn look_at_all_ends(alloc: Global, places: &[Value]) -> Result<(), ReadRefusal>
    requires { list_all has_good_name (map view places.now) ≡ true }
    ensures { Finds (first_of_entries not_event_graph (map view places.now)) result }
{
    for place in places {
        look_at_ends(alloc, place)?;
    }
    Ok(())
}

// The first text of the value, or the empty text.
#[tactic(auto, unfolding(crate::specs::DocumentTrees::texts_of))]
fn first_text(value: &Value) -> &str
    ensures { result.now ≡ first_text (texts_of (view value.now)) }
{
    match value.as_str() {
        Some(text) => text,
        None => match elements_of(value) {
            Some(values) => match values.first() {
                Some(value) => text_of(value),
                None => "",
            },
            None => "",
        },
    }
}

// The first text at the key, or the empty text.
#[tactic(auto, unfolding(crate::specs::EventGraphs::end_at, crate::specs::DocumentTrees::texts_at))]
pub(crate) fn end_at(place: &Value, key: Key) -> &str
    ensures { result.now ≡ end_at key (view place.now) }
{
    match value_at(place, key) {
        Some(value) => first_text(value),
        None => "",
    }
}

// Whether the transition has the role of an input.
#[tactic(auto, unfolding(crate::specs::EventGraphs::is_input_entry))]
fn is_input_entry(transition: &Value) -> bool
    ensures { result ≡ is_input_entry (view transition.now) }
{
    text_at(transition, Key::Role) == "input"
}

// Whether the transition of this name is an input.
#[tactic(auto, unfolding(crate::specs::EventGraphs::is_input_named))]
pub(crate) fn is_input_named(names: &IndexSet<&str>, transitions: &[Value], text: &str) -> bool
    requires { map deref names.now.keys ≡ entry_names (map view transitions.now) }
    ensures { result ≡ is_input_named (map view transitions.now) text.now }
{
    match entry_named(names, transitions, text) {
        Some(transition) => is_input_entry(transition),
        None => false,
    }
}

// Looks whether the place enters an input.
#[tactic(auto, unfolding(crate::specs::EventGraphs::input_has_upstream))]
fn look_at_end(
    alloc: Global,
    names: &IndexSet<&str>,
    transitions: &[Value],
    place: &Value,
) -> Result<(), ReadRefusal>
    requires names { map deref names.now.keys ≡ entry_names (map view transitions.now) }
    requires name { has_good_name (view place.now) ≡ true }
    ensures { Finds (input_has_upstream (map view transitions.now) (view place.now)) result }
{
    if !is_input_named(names, transitions, end_at(place, Key::To)) {
        return Ok(());
    }
    let place = copy_name(alloc, text_at(place, Key::Name))?;
    Err(ReadRefusal::InputHasUpstream { place })
}

// Looks for a place that enters an input.
pub(crate) fn look_for_entered_inputs(
    alloc: Global,
    names: &IndexSet<&str>,
    transitions: &[Value],
    places: &[Value],
) -> Result<(), ReadRefusal>
    requires names { map deref names.now.keys ≡ entry_names (map view transitions.now) }
    requires good { list_all has_good_name (map view places.now) ≡ true }
    ensures { Finds (first_of_entries (input_has_upstream (map view transitions.now)) (map view
        places.now))
        result }
{
    for place in places {
        look_at_end(alloc, names, transitions, place)?;
    }
    Ok(())
}
