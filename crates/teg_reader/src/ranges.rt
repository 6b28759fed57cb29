//! Values and counts out of their ranges.
ghost use Rattle.std.specs.Prelude.{◌≡◌, map, nat_le, length};
ghost use Rattle.std.specs.List.{list_all};
ghost use Rattle.toml.specs.View.{view};
ghost use Rattle.teg_net.specs.Limits.{greatest_input_date};
ghost use Rattle.teg_reader.specs.DocumentTrees.{is_between};
ghost use Rattle.teg_reader.specs.WrongKinds.{first_failing};
ghost use Rattle.teg_reader.specs.Ranges.{is_role, is_between_at, has_role_text, has_dates_in_range, in_range};

use crate::fields::{Field, fields_of};
use crate::keys::Key;
use crate::refusals::{ReadRefusal, Section, Spot};
use crate::trees::{is_between, list_at, value_at};
use crate::walk::Pass;
use std::alloc::Global;
use teg_net::{GREATEST_HOLD, GREATEST_INPUT_DATE};
use toml::Value;

// Whether what stands at the key, if anything, is an integer from low to high.
fn is_between_at(entry: &Value, key: Key, low: u64, high: u64) -> bool
    ensures { result ≡ is_between_at key low high (view entry.now) }
{
    match value_at(entry, key) {
        Some(value) => is_between(value, low, high),
        None => true,
    }
}

// Whether the text is a role.
fn is_role(text: &str) -> bool
    ensures { result ≡ is_role text.now }
{
    text == "internal" || text == "input" || text == "output"
}

// Whether the text at the key of the role, if there is one, is a role.
fn has_role(entry: &Value) -> bool
    ensures { result ≡ has_role_text (view entry.now) }
{
    match value_at(entry, Key::Role) {
        Some(value) => match value.as_str() {
            Some(text) => is_role(text),
            None => true,
        },
        None => true,
    }
}

// Whether there are at most so many.
#[tactic(auto, using(crate::proofs::TreeLemmas::lengths))]
fn is_count_within(values: &[Value], most: usize) -> bool
    ensures { result ≡ nat_le (length (map view values.now)) most }
{
    values.len() <= most
}

// Whether each value is an integer within the limits of a date.
fn are_dates(values: &[Value]) -> bool
    ensures { result ≡ list_all (is_between 0 greatest_input_date) (map view values.now) }
{
    for value in values {
        if !is_between(value, 0, GREATEST_INPUT_DATE) {
            return false;
        }
    }
    true
}

// Whether the dates are few and each keeps its limits.
fn has_dates_in_range(entry: &Value) -> bool
    ensures { result ≡ has_dates_in_range (view entry.now) }
{
    let dates = list_at(entry, Key::Dates);
    is_count_within(dates, 100_000) && are_dates(dates)
}

// Whether what stands at the key of a table of this section keeps its range.
#[tactic(auto, unfolding(crate::specs::Ranges::in_range))]
fn in_range(section: Section, entry: &Value, key: Key) -> bool
    ensures { result ≡ in_range section (view entry.now) key }
{
    match section {
        Section::Top => match key {
            Key::Version => is_between_at(entry, key, 1, 2),
            Key::Transition => is_count_within(list_at(entry, key), 400),
            Key::Place => is_count_within(list_at(entry, key), 4000),
            _ => true,
        },
        Section::Transition => match key {
            Key::Role => has_role(entry),
            Key::Duration => is_between_at(entry, key, 0, GREATEST_HOLD),
            _ => true,
        },
        Section::Place => match key {
            Key::Hold => is_between_at(entry, key, 0, GREATEST_HOLD),
            Key::Tokens => is_between_at(entry, key, 0, 1000),
            Key::Ready => are_dates(list_at(entry, key)),
            _ => true,
        },
        Section::Input => match key {
            Key::Dates => has_dates_in_range(entry),
            Key::Every => is_between_at(entry, key, 1, 1000),
            Key::Gap => is_between_at(entry, key, 0, GREATEST_INPUT_DATE),
            _ => true,
        },
    }
}

// The first key whose value is out of its range.
fn excess_key(section: Section, entry: &Value, fields: &[Field]) -> Option<Key>
    ensures { result ≡ first_failing (λ f. in_range section (view entry.now) f.0) fields.now }
{
    for field in fields {
        if !in_range(section, entry, field.0) {
            return Some(field.0);
        }
    }
    None
}

// Finds values and counts that are out of their ranges.
#[derive(Drop)]
pub(crate) struct OutOfRanges;

impl Pass for OutOfRanges {
    ghost use Rattle.teg_reader.specs.Ranges.{out_of_range};

    ghost looks = { λ _. out_of_range };

    #[tactic(auto, unfolding(crate::specs::Ranges::out_of_range))]
    fn look(&self, _alloc: Global, spot: Spot, entry: &Value) -> Result<(), ReadRefusal> {
        match excess_key(spot.section, entry, fields_of(spot.section)) {
            Some(key) => Err(ReadRefusal::OutOfRange { spot, key }),
            None => Ok(()),
        }
    }
}
