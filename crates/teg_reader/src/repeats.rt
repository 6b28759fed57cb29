//! Texts that stand twice.
ghost use Rattle.std.specs.Prelude.{map};
ghost use Rattle.toml.specs.View.{view};
ghost use Rattle.teg_reader.specs.PassWalks.{Finds};
ghost use Rattle.teg_reader.specs.Repeats.{repeated_at, repeated};

use crate::keys::Key;
use crate::refusals::{ReadRefusal, Section, Spot};
use crate::trees::{list_at, text_at};
use std::alloc::Global;
use std::collections::BTreeSet;
use toml::Value;

// Looks for a text at the key that an earlier entry has there. The texts are kept in order, since
// their number has no limit yet, and a stranger's texts could all fall on one place of a hash.
#[tactic(auto, unfolding(crate::specs::Repeats::repeated_at))]
fn look_for_repeats_at(
    alloc: Global,
    section: Section,
    key: Key,
    entries: &[Value],
) -> Result<(), ReadRefusal>
    ensures { Finds (repeated_at section key (map view entries.now)) result }
{
    let mut texts = BTreeSet::new(alloc);
    for (index, entry) in entries.iter().enumerate() {
        let Ok(position) = u32::try_from(index.saturating_add(1)) else {
            return Err(ReadRefusal::OutOfMemory);
        };
        if !texts.insert(text_at(entry, key))? {
            let spot = Spot { section, position };
            return Err(ReadRefusal::Repeated { spot });
        }
    }
    Ok(())
}

// Looks for names that are an earlier entry's, and for second lists of one transition.
#[tactic(auto, unfolding(crate::specs::Repeats::repeated))]
pub(crate) fn look_for_repeats(alloc: Global, top: &Value) -> Result<(), ReadRefusal>
    ensures { Finds (repeated (view top.now)) result }
{
    look_for_repeats_at(
        alloc,
        Section::Transition,
        Key::Name,
        list_at(top, Key::Transition),
    )?;
    look_for_repeats_at(alloc, Section::Place, Key::Name, list_at(top, Key::Place))?;
    look_for_repeats_at(
        alloc,
        Section::Input,
        Key::Transition,
        list_at(top, Key::Input),
    )
}
