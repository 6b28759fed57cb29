//! One pass over the tree.
ghost use Rattle.std.specs.Prelude.{map};
ghost use Rattle.toml.specs.View.{view};
ghost use Rattle.teg_reader.specs.PassWalks.{Look, Finds, finding, first_finding};

use crate::keys::Key;
use crate::refusals::{ReadRefusal, Section, Spot};
use crate::trees::list_at;
use std::alloc::Global;
use toml::Value;

// A look at one table, which tells what it finds there.
pub(crate) trait Pass {
    ghost looks: { Self → Look };

    // What the look at this table, which stands at this spot, finds.
    fn look(&self, alloc: Global, spot: Spot, entry: &Value) -> Result<(), ReadRefusal>
        ensures { Finds (looks self.now spot (view entry.now)) result };
}

// Looks at each entry of a section in order. No file has so many entries that a position is past
// 32 bits; such a one would be answered as want of memory.
pub(crate) fn look_at_each<P: Pass>(
    pass: &P,
    alloc: Global,
    section: Section,
    entries: &[Value],
) -> Result<(), ReadRefusal>
    ensures { Finds (first_finding (P.looks pass.now) section 1 (map view entries.now)) result }
{
    for (index, entry) in entries.iter().enumerate() {
        let Ok(position) = u32::try_from(index.saturating_add(1)) else {
            return Err(ReadRefusal::OutOfMemory);
        };
        let spot = Spot { section, position };
        pass.look(alloc, spot, entry)?;
    }
    Ok(())
}

// Looks at the whole tree.
#[tactic(auto, unfolding(crate::specs::PassWalks::finding))]
pub(crate) fn look_at_all<P: Pass>(pass: &P, alloc: Global, top: &Value) -> Result<(), ReadRefusal>
    ensures { Finds (finding (P.looks pass.now) (view top.now)) result }
{
    let spot = Spot {
        section: Section::Top,
        position: 0,
    };
    pass.look(alloc, spot, top)?;
    look_at_each(
        pass,
        alloc,
        Section::Transition,
        list_at(top, Key::Transition),
    )?;
    look_at_each(pass, alloc, Section::Place, list_at(top, Key::Place))?;
    look_at_each(pass, alloc, Section::Input, list_at(top, Key::Input))
}
