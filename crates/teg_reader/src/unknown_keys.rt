//! Keys that a table does not list.
ghost use Rattle.std.specs.Prelude.{◌≡◌, not, option_map, option_copied, string_bytes, string_cmp, find};
ghost use Rattle.std.specs.List.{filter};
ghost use Rattle.std.specs.List.Sorted.{IsStrictlySortedBy};
ghost use Rattle.std.specs.BTreeMap.{keys as keys_in};
ghost use Rattle.toml.specs.View.{view, table_view};
ghost use Rattle.teg_reader.specs.DocumentTrees.{keys_of};
ghost use Rattle.teg_reader.specs.UnknownKeys.{is_field, least_text, unlisted_keys, is_second};

use crate::fields::{Field, listed_fields};
use crate::keys::Key;
use crate::refusals::{ReadRefusal, Spot};
use crate::trees::{is_between, value_at};
use crate::walk::Pass;
use std::alloc::Global;
use teg_net::Label;
use toml::{Table, Value};

// Whether the text is the key of one of the fields.
#[tactic(auto, unfolding(crate::specs::UnknownKeys::is_field))]
fn is_field(text: &str, fields: &[Field]) -> bool
    ensures { result ≡ is_field fields.now text.now }
{
    fields.iter().any(|field| text == field.0.text())
}

// The first key of the table that is none of the fields.
fn unlisted_in<'a>(table: &'a Table, fields: &[Field]) -> Option<&'a String>
    ensures first { option_copied result ≡ find (λ k. not (is_field fields.now (string_bytes k)))
        (keys_in table.now) }
    ensures ordered { IsStrictlySortedBy string_cmp (keys_in table.now) }
{
    table.keys().find(|key| !is_field(key.as_str(), fields))
}

// The first key, in the table's order, that is none of the fields. A table keeps its keys in
// order, so it is the least one.
fn unlisted_text<'a>(table: &'a Table, fields: &[Field]) -> Option<&'a str>
    ensures { option_map (λ k. k.now) result ≡ least_text
        (filter (λ k. not (is_field fields.now k)) (keys_of (table_view table.now))) }
{
    match unlisted_in(table, fields) {
        Some(key) => Some(key.as_str()),
        None => None,
    }
}

// The least key of the entry that is none of the fields.
#[tactic(auto, using(crate::proofs::KeyLemmas::least_of_none), unfolding(crate::specs::UnknownKeys::unlisted_keys))]
fn unlisted_key<'a>(entry: &'a Value, fields: &[Field]) -> Option<&'a str>
    ensures { option_map (λ k. k.now) result ≡ least_text
        (unlisted_keys fields.now (view entry.now)) }
{
    match entry.as_table() {
        Some(table) => unlisted_text(table, fields),
        None => None,
    }
}

// Whether the file says that it is of the second version.
#[tactic(auto, unfolding(crate::specs::UnknownKeys::is_second))]
pub(crate) fn is_second(top: &Value) -> bool
    ensures { result ≡ is_second (view top.now) }
{
    match value_at(top, Key::Version) {
        Some(version) => is_between(version, 2, 2),
        None => false,
    }
}

// Finds keys that a table does not list.
#[derive(Drop)]
pub(crate) struct UnknownKeys {
    pub(crate) second: bool,
}

impl Pass for UnknownKeys {
    ghost use Rattle.teg_reader.specs.UnknownKeys.{unknown_key};

    ghost looks = { λ s. unknown_key s.second };

    #[tactic(auto, unfolding(crate::specs::UnknownKeys::unknown_key))]
    fn look(&self, alloc: Global, spot: Spot, entry: &Value) -> Result<(), ReadRefusal> {
        match unlisted_key(entry, listed_fields(self.second, spot.section)) {
            Some(text) => {
                let key = Label::new(alloc, text)?;
                Err(ReadRefusal::UnknownKey { spot, key })
            }
            None => Ok(()),
        }
    }
}
