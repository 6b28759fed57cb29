//! Reads a net file.
ghost use Rattle.std.specs.Prelude.{◌≡◌, None, map};
ghost use Rattle.std.specs.Map.Iter.{deref};
ghost use Rattle.toml.specs.Data.{table as table_data};
ghost use Rattle.toml.specs.View.{view, table_view};
ghost use Rattle.teg_reader.specs.declared.keys.Key.TheVariants as key;
ghost use Rattle.teg_reader.specs.DocumentTrees.{array_at, entry_names};
ghost use Rattle.teg_reader.specs.PassWalks.{Finds};
ghost use Rattle.teg_reader.specs.Documents.{bad_entries, bad_graph, bad_places, tree_document, document, AnswersAsMeant};
ghost use Rattle.teg_reader.specs.RefusalSpots.{RefusalsArePlain};

use crate::bad_names::BadNames;
use crate::entries::make_net;
use crate::event_graph::{look_at_all_ends, look_for_entered_inputs, look_for_transitions};
use crate::holds::look_for_slow_places;
use crate::input_lists::look_for_bad_inputs;
use crate::keys::Key;
use crate::missing_keys::MissingKeys;
use crate::numbers::number_names;
use crate::ranges::OutOfRanges;
use crate::ready_dates::look_for_bad_ready;
use crate::refusals::ReadRefusal;
use crate::repeats::look_for_repeats;
use crate::trees::list_at;
use crate::unknown_keys::{UnknownKeys, is_second};
use crate::unknown_transitions::UnknownTransitions;
use crate::walk::look_at_all;
use crate::wrong_kinds::WrongKinds;
use indexmap::IndexSet;
use std::alloc::Global;
use teg_net::Net;
use toml::{Table, Value};

// Looks at the keys, kinds, names and ranges of the entries.
#[tactic(auto, unfolding(crate::specs::Documents::bad_entries))]
fn look_at_entries(alloc: Global, top: &Value) -> Result<(), ReadRefusal>
    ensures { Finds (bad_entries (view top.now)) result }
{
    let second = is_second(top);
    look_at_all(&UnknownKeys { second }, alloc, top)?;
    look_at_all(&WrongKinds, alloc, top)?;
    look_at_all(&MissingKeys, alloc, top)?;
    look_at_all(&BadNames, alloc, top)?;
    look_for_repeats(alloc, top)?;
    look_at_all(&OutOfRanges, alloc, top)
}

// Looks at the graph that the entries make.
#[tactic(auto, unfolding(crate::specs::Documents::bad_graph))]
fn look_at_graph(alloc: Global, names: &IndexSet<&str>, top: &Value) -> Result<(), ReadRefusal>
    requires good { bad_entries (view top.now) ≡ None }
    requires names { map deref names.now.keys ≡ entry_names (array_at key.Transition (view
        top.now)) }
    ensures { Finds (bad_graph (view top.now)) result }
{
    let transitions = list_at(top, Key::Transition);
    let places = list_at(top, Key::Place);
    look_for_transitions(transitions)?;
    look_at_all(&UnknownTransitions { names }, alloc, top)?;
    look_at_all_ends(alloc, places)?;
    look_for_entered_inputs(alloc, names, transitions, places)?;
    look_for_bad_inputs(alloc, names, transitions, list_at(top, Key::Input))
}

// Looks at the ready dates and the holds of the places.
#[tactic(auto, unfolding(crate::specs::Documents::bad_places))]
fn look_at_places(alloc: Global, names: &IndexSet<&str>, top: &Value) -> Result<(), ReadRefusal>
    requires good { bad_entries (view top.now) ≡ None }
    requires names { map deref names.now.keys ≡ entry_names (array_at key.Transition (view
        top.now)) }
    ensures { Finds (bad_places (view top.now)) result }
{
    let places = list_at(top, Key::Place);
    look_for_bad_ready(alloc, places)?;
    look_for_slow_places(alloc, names, list_at(top, Key::Transition), places)
}

// The net of good entries with these names, or what is wrong with it.
#[tactic(auto, unfolding(crate::specs::Documents::tree_document, crate::specs::Documents::refused))]
fn read_entries(alloc: Global, names: &IndexSet<&str>, top: &Value) -> Result<Net, ReadRefusal>
    requires good { bad_entries (view top.now) ≡ None }
    requires names { map deref names.now.keys ≡ entry_names (array_at key.Transition (view
        top.now)) }
    ensures { AnswersAsMeant (tree_document (view top.now)) result }
{
    look_at_graph(alloc, names, top)?;
    look_at_places(alloc, names, top)?;
    Ok(make_net(alloc, names, top)?)
}

// The net of a tree.
#[tactic(auto, unfolding(crate::specs::Documents::tree_document, crate::specs::Documents::refused))]
fn read_tree(alloc: Global, top: &Value) -> Result<Net, ReadRefusal>
    ensures { AnswersAsMeant (tree_document (view top.now)) result }
{
    look_at_entries(alloc, top)?;
    let names = number_names(alloc, list_at(top, Key::Transition))?;
    read_entries(alloc, &names, top)
}

// The net of a table.
fn read_table(alloc: Global, table: Table) -> Result<Net, ReadRefusal>
    ensures { AnswersAsMeant (tree_document (table_data (table_view table))) result }
{
    let top = Value::Table(table);
    let answer = read_tree(alloc, &top);
    answer
}

/// The net that the bytes of a file say: its entries in order, with their roles, ready dates and
/// input lists. The hold of a place is that of its entry and the duration of its upstream
/// transition, which files of the second version may have. The grammar is that of `toml`, which
/// passes over one byte order mark at the start and reads no integer of more than 64 bits. A
/// refusal tells the first fault: the passes stand in the order of the variants of [`ReadRefusal`],
/// and each goes over the whole tree, the top first, then the transitions, the places and the input
/// lists, each by position (rules of net files, in the guide). `OutOfMemory` says that no memory
/// was found, and nothing of the bytes. Beside what `toml` takes, it takes time in proportion to
/// the length of the file, and of order m log m for m entries, whose texts are kept in order.
pub fn read_net(alloc: Global, bytes: &[u8]) -> Result<Net, ReadRefusal>
    ensures { AnswersAsMeant (document bytes.now) result }
{
    let Ok(text) = std::str::from_utf8(bytes) else {
        return Err(ReadRefusal::NotToml);
    };
    match toml::table_from_str(alloc, text) {
        Ok(table) => read_table(alloc, table),
        Err(error) => {
            if error.is_memory() {
                Err(ReadRefusal::OutOfMemory)
            } else {
                Err(ReadRefusal::NotToml)
            }
        }
    }
}

/// The law that a refusal which bytes get is plain: a spot at the top of the file has position 0,
/// and want of memory is no word on the bytes. It does nothing when it runs.
pub fn refusals_are_plain()
    ensures { RefusalsArePlain }
{}
