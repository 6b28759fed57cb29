//! Holds that durations make too great.
ghost use Rattle.std.specs.Prelude.{◌≡◌, ◌<◌, ◌^◌, true, map};
ghost use Rattle.std.specs.List.{list_all};
ghost use Rattle.std.specs.Map.Iter.{deref};
ghost use Rattle.toml.specs.View.{view};
ghost use Rattle.teg_reader.specs.DocumentTrees.{entry_names};
ghost use Rattle.teg_reader.specs.PassWalks.{Finds, first_of_entries};
ghost use Rattle.teg_reader.specs.BadNames.{has_good_name};
ghost use Rattle.teg_reader.specs.Holds.{duration_named, hold_with_duration, too_slow};

use crate::event_graph::{copy_name, end_at};
use crate::keys::Key;
use crate::numbers::entry_named;
use crate::refusals::ReadRefusal;
use crate::trees::{number_at, text_at};
use indexmap::IndexSet;
use std::alloc::Global;
use teg_net::GREATEST_HOLD;
use toml::Value;

// The duration of the transition of this name, or 0.
#[tactic(auto, unfolding(crate::specs::Holds::duration_named))]
fn duration_named(names: &IndexSet<&str>, transitions: &[Value], text: &str) -> u64
    requires { map deref names.now.keys ≡ entry_names (map view transitions.now) }
    ensures value { result ≡ duration_named (map view transitions.now) text.now }
    ensures small { result < 2 ^ 63 }
{
    match entry_named(names, transitions, text) {
        Some(transition) => number_at(transition, Key::Duration),
        None => 0,
    }
}

// The hold of the place: that of its entry and the duration of its upstream transition.
#[tactic(auto, unfolding(crate::specs::Holds::hold_with_duration))]
pub(crate) fn hold_of(names: &IndexSet<&str>, transitions: &[Value], place: &Value) -> u64
    requires { map deref names.now.keys ≡ entry_names (map view transitions.now) }
    ensures { result ≡ hold_with_duration (map view transitions.now) (view place.now) }
{
    number_at(place, Key::Hold) + duration_named(names, transitions, end_at(place, Key::From))
}

// Looks whether the hold of the place is too great.
#[tactic(auto, unfolding(crate::specs::Holds::too_slow))]
fn look_at_hold(
    alloc: Global,
    names: &IndexSet<&str>,
    transitions: &[Value],
    place: &Value,
) -> Result<(), ReadRefusal>
    requires names { map deref names.now.keys ≡ entry_names (map view transitions.now) }
    requires name { has_good_name (view place.now) ≡ true }
    ensures { Finds (too_slow (map view transitions.now) (view place.now)) result }
{
    if hold_of(names, transitions, place) <= GREATEST_HOLD {
        return Ok(());
    }
    let place = copy_name(alloc, text_at(place, Key::Name))?;
    Err(ReadRefusal::TooSlow { place })
}

// Looks for a place whose hold is too great.
pub(crate) fn look_for_slow_places(
    alloc: Global,
    names: &IndexSet<&str>,
    transitions: &[Value],
    places: &[Value],
) -> Result<(), ReadRefusal>
    requires names { map deref names.now.keys ≡ entry_names (map view transitions.now) }
    requires good { list_all has_good_name (map view places.now) ≡ true }
    ensures { Finds (first_of_entries (too_slow (map view transitions.now)) (map view places.now))
        result }
{
    for place in places {
        look_at_hold(alloc, names, transitions, place)?;
    }
    Ok(())
}
