//! Keys at which another kind stands.
ghost use Rattle.std.specs.Prelude.{◌≡◌, map};
ghost use Rattle.std.specs.List.{list_all};
ghost use Rattle.toml.specs.View.{view};
ghost use Rattle.teg_reader.specs.DocumentTrees.{is_text, is_integer, is_table};
ghost use Rattle.teg_reader.specs.WrongKinds.{is_kind, has_kind, first_failing};

use crate::fields::{Field, Kind, fields_of};
use crate::keys::Key;
use crate::refusals::{ReadRefusal, Spot};
use crate::trees::{elements_of, value_at};
use crate::walk::Pass;
use std::alloc::Global;
use toml::Value;

// Whether each value is a text.
fn are_texts(values: &[Value]) -> bool
    ensures { result ≡ list_all is_text (map view values.now) }
{
    for value in values {
        if !value.is_str() {
            return false;
        }
    }
    true
}

// Whether each value is an integer.
fn are_integers(values: &[Value]) -> bool
    ensures { result ≡ list_all is_integer (map view values.now) }
{
    for value in values {
        if !value.is_integer() {
            return false;
        }
    }
    true
}

// Whether each value is a table.
fn are_tables(values: &[Value]) -> bool
    ensures { result ≡ list_all is_table (map view values.now) }
{
    for value in values {
        if !value.is_table() {
            return false;
        }
    }
    true
}

// Whether the value is of this kind.
#[tactic(auto, unfolding(crate::specs::WrongKinds::is_kind))]
fn is_kind(kind: Kind, value: &Value) -> bool
    ensures { result ≡ is_kind kind (view value.now) }
{
    match kind {
        Kind::Text => value.is_str(),
        Kind::Integer => value.is_integer(),
        Kind::Texts => {
            value.is_str()
                || match elements_of(value) {
                    Some(values) => are_texts(values),
                    None => false,
                }
        }
        Kind::Integers => match elements_of(value) {
            Some(values) => are_integers(values),
            None => false,
        },
        Kind::Tables => match elements_of(value) {
            Some(values) => are_tables(values),
            None => false,
        },
    }
}

// Whether what stands at the field's key, if anything, is of the field's kind.
#[tactic(auto, unfolding(crate::specs::WrongKinds::has_kind))]
fn has_kind(entry: &Value, field: Field) -> bool
    ensures { result ≡ has_kind (view entry.now) field }
{
    match value_at(entry, field.0) {
        Some(value) => is_kind(field.1, value),
        None => true,
    }
}

// The first key at which another kind stands.
fn wrong_key(entry: &Value, fields: &[Field]) -> Option<Key>
    ensures { result ≡ first_failing (has_kind (view entry.now)) fields.now }
{
    for field in fields {
        if !has_kind(entry, *field) {
            return Some(field.0);
        }
    }
    None
}

// Finds keys at which another kind stands.
#[derive(Drop)]
pub(crate) struct WrongKinds;

impl Pass for WrongKinds {
    ghost use Rattle.teg_reader.specs.WrongKinds.{wrong_kind};

    ghost looks = { λ _. wrong_kind };

    #[tactic(auto, unfolding(crate::specs::WrongKinds::wrong_kind))]
    fn look(&self, _alloc: Global, spot: Spot, entry: &Value) -> Result<(), ReadRefusal> {
        match wrong_key(entry, fields_of(spot.section)) {
            Some(key) => Err(ReadRefusal::WrongKind { spot, key }),
            None => Ok(()),
        }
    }
}
