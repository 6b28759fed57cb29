//! The numbers of names.
ghost use Rattle.std.specs.Prelude.{◌≡◌, ◌<◌, ◌^◌, true, map, length, option_map, IfOk};
ghost use Rattle.std.specs.Map.Iter.{deref};
ghost use Rattle.toml.specs.View.{view};
ghost use Rattle.teg_reader.specs.TextLists.{is_among, is_distinct};
ghost use Rattle.teg_reader.specs.DocumentTrees.{entry_names, entry_named};
ghost use Rattle.teg_reader.specs.NetOf.{id_of};

use crate::keys::Key;
use crate::trees::text_at;
use indexmap::IndexSet;
use std::alloc::{AllocError, Global};
use teg_net::TransitionId;
use toml::Value;

// The names of the entries in order, of which none stands twice.
pub(crate) fn number_names(alloc: Global, entries: &[Value]) -> Result<IndexSet<&str>, AllocError>
    requires { is_distinct (entry_names (map view entries.now)) ≡ true }
    ensures { IfOk result (λ names. map deref names.keys ≡ entry_names (map view entries.now)) }
{
    let mut names = IndexSet::new(alloc);
    for entry in entries {
        let name = text_at(entry, Key::Name);
        let (_, is_new) = names.insert_full(name)?;
        if !is_new {
            unreachable!();
        }
    }
    Ok(names)
}

// Whether a name has a number.
pub(crate) fn has_number(names: &IndexSet<&str>, text: &str) -> bool
    ensures { result ≡ is_among (map deref names.now.keys) text.now }
{
    names.get_index_of(&text).is_some()
}

// The number of a name.
pub(crate) fn number_of(names: &IndexSet<&str>, text: &str) -> TransitionId
    requires known { is_among (map deref names.now.keys) text.now ≡ true }
    requires few { length names.now.keys < 2 ^ 32 }
    ensures { result ≡ id_of (map deref names.now.keys) text.now }
{
    match names.get_index_of(&text) {
        Some(index) => TransitionId {
            index: index as u32,
        },
        None => unreachable!(),
    }
}

// The entry of this name, where these are the entries that the names are of.
pub(crate) fn entry_named<'a>(
    names: &IndexSet<&str>,
    entries: &'a [Value],
    text: &str,
) -> Option<&'a Value>
    requires { map deref names.now.keys ≡ entry_names (map view entries.now) }
    ensures { option_map (λ v. view v.now) result ≡ entry_named text.now (map view entries.now) }
{
    match names.get_index_of(&text) {
        Some(index) => Some(&entries[index]),
        None => None,
    }
}
