//! Keys that are needed and absent.
ghost use Rattle.std.specs.Prelude.{◌≡◌};
ghost use Rattle.toml.specs.View.{view};
ghost use Rattle.teg_reader.specs.WrongKinds.{first_failing};
ghost use Rattle.teg_reader.specs.MissingKeys.{has_needed, lone_key, half_of_again};

use crate::fields::{Field, fields_of};
use crate::keys::Key;
use crate::refusals::{ReadRefusal, Section, Spot};
use crate::trees::is_there;
use crate::walk::Pass;
use std::alloc::Global;
use toml::Value;

// Whether the field is not needed, or something stands at its key.
#[tactic(auto, unfolding(crate::specs::MissingKeys::has_needed))]
fn has_needed(entry: &Value, field: Field) -> bool
    ensures { result ≡ has_needed (view entry.now) field }
{
    !field.2 || is_there(entry, field.0)
}

// The key of the first field that is needed and absent.
fn absent_key(entry: &Value, fields: &[Field]) -> Option<Key>
    ensures { result ≡ first_failing (has_needed (view entry.now)) fields.now }
{
    for field in fields {
        if !has_needed(entry, *field) {
            return Some(field.0);
        }
    }
    None
}

// The one of `every` and `gap` that is absent where the other stands.
#[tactic(auto, unfolding(crate::specs::MissingKeys::lone_key))]
fn lone_key(entry: &Value) -> Option<Key>
    ensures { result ≡ lone_key (view entry.now) }
{
    let every = is_there(entry, Key::Every);
    let gap = is_there(entry, Key::Gap);
    if every && !gap {
        Some(Key::Gap)
    } else if gap && !every {
        Some(Key::Every)
    } else {
        None
    }
}

// The same of input entries, which alone have these keys.
fn half_of_again(section: Section, entry: &Value) -> Option<Key>
    ensures { result ≡ half_of_again section (view entry.now) }
{
    match section {
        Section::Input => lone_key(entry),
        _ => None,
    }
}

// Finds keys that are needed and absent.
#[derive(Drop)]
pub(crate) struct MissingKeys;

impl Pass for MissingKeys {
    ghost use Rattle.teg_reader.specs.MissingKeys.{missing_key};

    ghost looks = { λ _. missing_key };

    #[tactic(auto, unfolding(crate::specs::MissingKeys::missing_key))]
    fn look(&self, _alloc: Global, spot: Spot, entry: &Value) -> Result<(), ReadRefusal> {
        match absent_key(entry, fields_of(spot.section)) {
            Some(key) => Err(ReadRefusal::MissingKey { spot, key }),
            None => match half_of_again(spot.section, entry) {
                Some(key) => Err(ReadRefusal::MissingKey { spot, key }),
                None => Ok(()),
            },
        }
    }
}
