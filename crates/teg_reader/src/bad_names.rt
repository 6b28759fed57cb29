//! Names that are none.
ghost use Rattle.std.specs.Prelude.{◌≡◌};
ghost use Rattle.teg_reader.specs.BadNames.{is_named};

use crate::keys::Key;
use crate::refusals::{ReadRefusal, Section, Spot};
use crate::trees::text_at;
use crate::walk::Pass;
use std::alloc::Global;
use teg_net::{Name, NameRefused};
use toml::Value;

// Whether the entries of this section have names.
fn is_named(section: Section) -> bool
    ensures { result ≡ is_named section }
{
    match section {
        Section::Transition | Section::Place => true,
        _ => false,
    }
}

// Finds names that are none.
#[derive(Drop)]
pub(crate) struct BadNames;

impl Pass for BadNames {
    ghost use Rattle.teg_reader.specs.BadNames.{bad_name};

    ghost looks = { λ _. bad_name };

    #[tactic(auto, unfolding(crate::specs::BadNames::bad_name))]
    fn look(&self, alloc: Global, spot: Spot, entry: &Value) -> Result<(), ReadRefusal> {
        if !is_named(spot.section) {
            return Ok(());
        }
        match Name::new(alloc, text_at(entry, Key::Name)) {
            Ok(_) => Ok(()),
            Err(NameRefused::Bad) => Err(ReadRefusal::BadName { spot }),
            Err(NameRefused::OutOfMemory) => Err(ReadRefusal::OutOfMemory),
        }
    }
}
