//! What stands in a tree at a key.
ghost use Rattle.std.specs.Prelude.{◌≡◌, ◌<◌, ◌^◌, map, option_map};
ghost use Rattle.toml.specs.View.{view};
ghost use Rattle.teg_reader.specs.DocumentTrees.{data_at, is_there, text_or_empty, text_at, elements_of, array_at, is_between, as_number, number_at};

use crate::keys::Key;
use toml::Value;

// What stands at the key.
#[tactic(auto, unfolding(crate::specs::DocumentTrees::data_at))]
pub(crate) fn value_at(entry: &Value, key: Key) -> Option<&Value>
    ensures { option_map (λ v. view v.now) result ≡ data_at key (view entry.now) }
{
    entry.get(key.text())
}

// Whether something stands at the key.
#[tactic(auto, unfolding(crate::specs::DocumentTrees::is_there))]
pub(crate) fn is_there(entry: &Value, key: Key) -> bool
    ensures { result ≡ is_there key (view entry.now) }
{
    value_at(entry, key).is_some()
}

// The text, or the empty text.
pub(crate) fn text_of(value: &Value) -> &str
    ensures { result.now ≡ text_or_empty (view value.now) }
{
    match value.as_str() {
        Some(text) => text,
        None => "",
    }
}

// The text at the key, or the empty text.
#[tactic(auto, unfolding(crate::specs::DocumentTrees::text_at))]
pub(crate) fn text_at(entry: &Value, key: Key) -> &str
    ensures { result.now ≡ text_at key (view entry.now) }
{
    match value_at(entry, key) {
        Some(value) => text_of(value),
        None => "",
    }
}

// The elements of an array, or nothing where the value is no array.
#[tactic(auto, using(crate::proofs::TreeLemmas::list_of_view))]
pub(crate) fn elements_of(value: &Value) -> Option<&[Value]>
    ensures { option_map (λ vs. map view vs.now) result ≡ elements_of (view value.now) }
{
    match value.as_array() {
        Some(items) => Some(items.as_slice()),
        None => None,
    }
}

// The elements of the array at the key, or none.
#[tactic(auto, using(crate::proofs::TreeLemmas::list_of_view), unfolding(crate::specs::DocumentTrees::array_at))]
pub(crate) fn list_at(entry: &Value, key: Key) -> &[Value]
    ensures { map view result.now ≡ array_at key (view entry.now) }
{
    match value_at(entry, key) {
        Some(value) => match value.as_array() {
            Some(items) => items.as_slice(),
            None => &[],
        },
        None => &[],
    }
}

// Whether the value is an integer from low to high.
pub(crate) fn is_between(value: &Value, low: u64, high: u64) -> bool
    ensures { result ≡ is_between low high (view value.now) }
{
    match value.as_integer() {
        Some(number) => match u64::try_from(number) {
            Ok(number) => low <= number && number <= high,
            Err(_) => false,
        },
        None => false,
    }
}

// The number of an integer that is not negative, or 0.
pub(crate) fn as_number(value: &Value) -> u64
    ensures value { result ≡ as_number (view value.now) }
    ensures small { result < 2 ^ 63 }
{
    match value.as_integer() {
        Some(number) => { if number < 0 { 0 } else { number as u64 } }
        None => 0,
    }
}

// The number at the key, or 0.
#[tactic(auto, unfolding(crate::specs::DocumentTrees::number_at))]
pub(crate) fn number_at(entry: &Value, key: Key) -> u64
    ensures value { result ≡ number_at key (view entry.now) }
    ensures small { result < 2 ^ 63 }
{
    match value_at(entry, key) {
        Some(value) => as_number(value),
        None => 0,
    }
}
