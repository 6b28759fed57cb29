//! The net of a tree that no pass refuses.
ghost use Rattle.std.specs.Prelude.{◌≡◌, ◌<◌, ◌^◌, true, None, map, length, IfOk};
ghost use Rattle.std.specs.List.{list_all};
ghost use Rattle.std.specs.Map.Iter.{deref};
ghost use Rattle.toml.specs.View.{view};
ghost use Rattle.teg_reader.specs.DocumentTrees.{as_number, array_at, entry_names};
ghost use Rattle.teg_reader.specs.BadNames.{has_good_name};
ghost use Rattle.teg_reader.specs.InputLists.{entry_dates, entry_again};
ghost use Rattle.teg_reader.specs.NetOf.{role_of, entry_transition, entry_place, input_of, net_of};
ghost use Rattle.teg_reader.specs.Sound.{is_sound_place, has_small_every, is_sound_input};
ghost use Rattle.teg_reader.specs.Documents.{refused};
ghost use Rattle.teg_reader.specs.declared.keys.Key.TheVariants as key;

use crate::event_graph::{copy_name, end_at};
use crate::holds::hold_of;
use crate::keys::Key;
use crate::numbers::number_of;
use crate::trees::{as_number, list_at, number_at, text_at, value_at};
use indexmap::IndexSet;
use std::alloc::{AllocError, Global};
use teg_net::{Again, DateList, InputList, Net, Place, Role, Transition};
use toml::Value;

// The role of this text; without one a transition is internal.
#[tactic(auto, unfolding(crate::specs::NetOf::role_of))]
fn role_of(text: &str) -> Role
    ensures { result ≡ role_of text.now }
{
    if text == "input" {
        Role::Input
    } else if text == "output" {
        Role::Output
    } else {
        Role::Internal
    }
}

// The transition of an entry.
#[tactic(auto, unfolding(crate::specs::NetOf::entry_transition))]
fn make_transition(alloc: Global, entry: &Value) -> Result<Transition, AllocError>
    requires { has_good_name (view entry.now) ≡ true }
    ensures { IfOk result (λ t. t ≡ entry_transition (view entry.now)) }
{
    let name = copy_name(alloc, text_at(entry, Key::Name))?;
    let role = role_of(text_at(entry, Key::Role));
    Ok(Transition { name, role })
}

// The transitions of the entries in order.
fn make_transitions(alloc: Global, entries: &[Value]) -> Result<Vec<Transition>, AllocError>
    requires { list_all has_good_name (map view entries.now) ≡ true }
    ensures { IfOk result (λ ts. ts.items ≡ map entry_transition (map view entries.now)) }
{
    let mut transitions = Vec::new(alloc);
    for entry in entries {
        transitions.push(make_transition(alloc, entry)?)?;
    }
    Ok(transitions)
}

// The numbers of the values in order.
fn make_dates(alloc: Global, values: &[Value]) -> Result<Vec<u64>, AllocError>
    ensures { IfOk result (λ ds. ds.items ≡ map as_number (map view values.now)) }
{
    let mut dates = Vec::new(alloc);
    for value in values {
        dates.push(as_number(value))?;
    }
    Ok(dates)
}

// The place of an entry.
#[tactic(auto, unfolding(crate::specs::NetOf::entry_place, crate::specs::ReadyDatePass::ready_of))]
fn make_place(
    alloc: Global,
    names: &IndexSet<&str>,
    transitions: &[Value],
    entry: &Value,
) -> Result<Place, AllocError>
    requires same { map deref names.now.keys ≡ entry_names (map view transitions.now) }
    requires sound { is_sound_place (map deref names.now.keys) (view entry.now) ≡ true }
    requires few { length names.now.keys < 2 ^ 32 }
    ensures { IfOk result (λ p. p ≡ entry_place (map view transitions.now) (view entry.now)) }
{
    let ready = make_dates(alloc, list_at(entry, Key::Ready))?;
    Ok(Place {
        name: copy_name(alloc, text_at(entry, Key::Name))?,
        from: number_of(names, end_at(entry, Key::From)),
        to: number_of(names, end_at(entry, Key::To)),
        hold: hold_of(names, transitions, entry),
        tokens: number_at(entry, Key::Tokens) as u32,
        ready: DateList::new(ready),
    })
}

// The places of the entries in order.
fn make_places(
    alloc: Global,
    names: &IndexSet<&str>,
    transitions: &[Value],
    entries: &[Value],
) -> Result<Vec<Place>, AllocError>
    requires same { map deref names.now.keys ≡ entry_names (map view transitions.now) }
    requires sound { list_all (is_sound_place (map deref names.now.keys)) (map view entries.now)
        ≡ true }
    requires few { length names.now.keys < 2 ^ 32 }
    ensures { IfOk result (λ ps. ps.items ≡ map (entry_place (map view transitions.now))
        (map view entries.now)) }
{
    let mut places = Vec::new(alloc);
    for entry in entries {
        places.push(make_place(alloc, names, transitions, entry)?)?;
    }
    Ok(places)
}

// How the input entry goes on past its list, if it does.
#[tactic(auto, unfolding(crate::specs::InputLists::entry_again))]
fn again_of(entry: &Value) -> Option<Again>
    requires { has_small_every (view entry.now) ≡ true }
    ensures { result ≡ entry_again (view entry.now) }
{
    match value_at(entry, Key::Every) {
        Some(every) => Some(Again {
            every: as_number(every) as u32,
            gap: number_at(entry, Key::Gap),
        }),
        None => None,
    }
}

// The input list of an entry.
#[tactic(auto, unfolding(crate::specs::NetOf::input_of, crate::specs::InputLists::entry_dates))]
fn make_input(alloc: Global, names: &IndexSet<&str>, entry: &Value) -> Result<InputList, AllocError>
    requires sound { is_sound_input (map deref names.now.keys) (view entry.now) ≡ true }
    requires few { length names.now.keys < 2 ^ 32 }
    ensures { IfOk result (λ l. l ≡ input_of (map deref names.now.keys) (view entry.now)) }
{
    let transition = number_of(names, text_at(entry, Key::Transition));
    let dates = make_dates(alloc, list_at(entry, Key::Dates))?;
    Ok(InputList {
        transition,
        dates: DateList::new(dates),
        again: again_of(entry),
    })
}

// The input lists of the entries in order.
fn make_inputs(
    alloc: Global,
    names: &IndexSet<&str>,
    entries: &[Value],
) -> Result<Vec<InputList>, AllocError>
    requires sound { list_all (is_sound_input (map deref names.now.keys)) (map view entries.now)
        ≡ true }
    requires few { length names.now.keys < 2 ^ 32 }
    ensures { IfOk result (λ ls. ls.items ≡ map (input_of (map deref names.now.keys))
        (map view entries.now)) }
{
    let mut inputs = Vec::new(alloc);
    for entry in entries {
        inputs.push(make_input(alloc, names, entry)?)?;
    }
    Ok(inputs)
}

// The net of the entries in order.
#[tactic(auto, unfolding(crate::specs::NetOf::net_of))]
pub(crate) fn make_net(
    alloc: Global,
    names: &IndexSet<&str>,
    top: &Value,
) -> Result<Net, AllocError>
    requires accepted { refused (view top.now) ≡ None }
    requires names { map deref names.now.keys ≡ entry_names (array_at key.Transition (view
        top.now)) }
    ensures { IfOk result (λ n. n ≡ net_of (view top.now)) }
{
    let entries = list_at(top, Key::Transition);
    let transitions = make_transitions(alloc, entries)?;
    let places = make_places(alloc, names, entries, list_at(top, Key::Place))?;
    let inputs = make_inputs(alloc, names, list_at(top, Key::Input))?;
    Ok(Net::new(transitions, places, inputs))
}
