//! Faulty input lists.
ghost use Rattle.std.specs.Prelude.{◌≡◌, ◌<◌, ◌^◌, true, map, slice_index};
ghost use Rattle.std.specs.List.{list_all};
ghost use Rattle.std.specs.Map.Iter.{deref};
ghost use Rattle.toml.specs.View.{view};
ghost use Rattle.teg_reader.specs.DocumentTrees.{as_number, entry_names};
ghost use Rattle.teg_reader.specs.PassWalks.{Finds, first_of_entries};
ghost use Rattle.teg_reader.specs.InputLists.{entry_again, has_good_owner, first_fall, is_bad_end, bad_date, fault_of, bad_input};

use crate::event_graph::{copy_name, is_input_named};
use crate::keys::Key;
use crate::refusals::ReadRefusal;
use crate::trees::{as_number, list_at, number_at, text_at, value_at};
use indexmap::IndexSet;
use std::alloc::Global;
use toml::Value;

// The position, counted from 1, of the first date that is less than the one before it.
#[tactic(auto, using(crate::proofs::TreeLemmas::lengths))]
fn first_fall(dates: &[Value]) -> Option<usize>
    ensures { result ≡ first_fall 2 (map as_number (map view dates.now)) }
{
    for index in 1..dates.len() {
        if as_number(&dates[index]) < as_number(&dates[index - 1]) {
            return Some(index + 1);
        }
    }
    None
}

// The date of this number, counted from 0, or 0.
fn date_at(dates: &[Value], index: usize) -> u64
    ensures value { result ≡ slice_index (map as_number (map view dates.now)) index }
    ensures small { result < 2 ^ 63 }
{
    if index < dates.len() {
        as_number(&dates[index])
    } else {
        0
    }
}

// Whether the list cannot go on.
#[tactic(auto, using(crate::proofs::TreeLemmas::lengths), unfolding(crate::specs::InputLists::entry_again))]
fn is_bad_end(entry: &Value, dates: &[Value]) -> bool
    ensures { result ≡ is_bad_end (map as_number (map view dates.now)) (entry_again (view
        entry.now)) }
{
    let Some(every) = value_at(entry, Key::Every) else {
        return false;
    };
    let every = as_number(every);
    let count = dates.len() as u64;
    if count < every {
        return true;
    }
    let before = date_at(dates, (count - every) as usize);
    before + number_at(entry, Key::Gap) < date_at(dates, dates.len().saturating_sub(1))
}

// The position of the first fault of the dates of an input.
#[tactic(auto, using(crate::proofs::TreeLemmas::lengths), unfolding(crate::specs::InputLists::bad_date))]
fn bad_date(entry: &Value, dates: &[Value]) -> Option<usize>
    ensures { result ≡ bad_date (map as_number (map view dates.now)) (entry_again (view
        entry.now)) }
{
    match first_fall(dates) {
        Some(position) => Some(position),
        None => {
            if is_bad_end(entry, dates) {
                Some(dates.len() + 1)
            } else {
                None
            }
        }
    }
}

// The position of the first fault of the entry: 0 where its transition is no input.
#[tactic(auto, unfolding(crate::specs::InputLists::fault_of, crate::specs::InputLists::entry_dates))]
fn fault_of(names: &IndexSet<&str>, transitions: &[Value], entry: &Value) -> Option<usize>
    requires { map deref names.now.keys ≡ entry_names (map view transitions.now) }
    ensures { result ≡ fault_of (map view transitions.now) (view entry.now) }
{
    if is_input_named(names, transitions, text_at(entry, Key::Transition)) {
        bad_date(entry, list_at(entry, Key::Dates))
    } else {
        Some(0)
    }
}

// Looks whether the entry is faulty. No list is so long that a position is past 32 bits; it would
// be answered as want of memory.
#[tactic(auto, unfolding(crate::specs::InputLists::bad_input))]
fn look_at_input(
    alloc: Global,
    names: &IndexSet<&str>,
    transitions: &[Value],
    entry: &Value,
) -> Result<(), ReadRefusal>
    requires names { map deref names.now.keys ≡ entry_names (map view transitions.now) }
    requires owner { has_good_owner (view entry.now) ≡ true }
    ensures { Finds (bad_input (map view transitions.now) (view entry.now)) result }
{
    let Some(position) = fault_of(names, transitions, entry) else {
        return Ok(());
    };
    let Ok(position) = u32::try_from(position) else {
        return Err(ReadRefusal::OutOfMemory);
    };
    let transition = copy_name(alloc, text_at(entry, Key::Transition))?;
    Err(ReadRefusal::BadInput {
        transition,
        position,
    })
}

// Looks for a faulty entry.
pub(crate) fn look_for_bad_inputs(
    alloc: Global,
    names: &IndexSet<&str>,
    transitions: &[Value],
    inputs: &[Value],
) -> Result<(), ReadRefusal>
    requires names { map deref names.now.keys ≡ entry_names (map view transitions.now) }
    requires owners { list_all has_good_owner (map view inputs.now) ≡ true }
    ensures { Finds (first_of_entries (bad_input (map view transitions.now)) (map view inputs.now))
        result }
{
    for entry in inputs {
        look_at_input(alloc, names, transitions, entry)?;
    }
    Ok(())
}
