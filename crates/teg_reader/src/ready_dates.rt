//! Ready dates of another number than the tokens.
ghost use Rattle.std.specs.Prelude.{◌≡◌, true, map};
ghost use Rattle.std.specs.List.{list_all};
ghost use Rattle.toml.specs.View.{view};
ghost use Rattle.teg_reader.specs.PassWalks.{Finds, first_of_entries};
ghost use Rattle.teg_reader.specs.BadNames.{has_good_name};
ghost use Rattle.teg_reader.specs.ReadyDatePass.{has_ready_for_each, bad_ready};

use crate::event_graph::copy_name;
use crate::keys::Key;
use crate::refusals::ReadRefusal;
use crate::trees::{is_there, list_at, number_at, text_at};
use std::alloc::Global;
use toml::Value;

// Whether the place has no list of ready dates, or a date for each of its tokens.
#[tactic(auto, using(crate::proofs::TreeLemmas::lengths))]
fn has_ready_for_each(place: &Value) -> bool
    ensures { result ≡ has_ready_for_each (view place.now) }
{
    let given = list_at(place, Key::Ready).len() as u64;
    !is_there(place, Key::Ready) || given == number_at(place, Key::Tokens)
}

// Looks whether the place has a ready date for each token. No file has so many dates that their
// number is past 32 bits, and the tokens are few; such numbers would be answered as want of memory.
#[tactic(auto, using(crate::proofs::TreeLemmas::lengths), unfolding(crate::specs::ReadyDatePass::bad_ready))]
fn look_at_ready(alloc: Global, place: &Value) -> Result<(), ReadRefusal>
    requires { has_good_name (view place.now) ≡ true }
    ensures { Finds (bad_ready (view place.now)) result }
{
    if has_ready_for_each(place) {
        return Ok(());
    }
    let given = u32::try_from(list_at(place, Key::Ready).len());
    let tokens = u32::try_from(number_at(place, Key::Tokens));
    let (Ok(given), Ok(tokens)) = (given, tokens) else {
        return Err(ReadRefusal::OutOfMemory);
    };
    let place = copy_name(alloc, text_at(place, Key::Name))?;
    Err(ReadRefusal::BadReady {
        place,
        given,
        tokens,
    })
}

// Looks for a place that has another number of ready dates than of tokens.
pub(crate) fn look_for_bad_ready(alloc: Global, places: &[Value]) -> Result<(), ReadRefusal>
    requires { list_all has_good_name (map view places.now) ≡ true }
    ensures { Finds (first_of_entries bad_ready (map view places.now)) result }
{
    for place in places {
        look_at_ready(alloc, place)?;
    }
    Ok(())
}
