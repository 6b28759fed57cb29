//! The keys that each table of a net file may have.
ghost use Rattle.std.specs.Prelude.{◌≡◌};
ghost use Rattle.teg_reader.specs.Fields.{fields_of, listed_fields};

use crate::keys::Key;
use crate::refusals::Section;

// What may stand at a key.
#[derive(Clone, Copy)]
pub(crate) enum Kind {
    Text,
    Integer,
    // A text, or an array of texts.
    Texts,
    Integers,
    Tables,
}

// A key, what may stand there, and whether it must.
#[derive(Clone, Copy)]
pub(crate) struct Field(pub(crate) Key, pub(crate) Kind, pub(crate) bool);

// The keys of a section's tables in the second version, in the order in which they are looked at.
#[tactic(auto, unfolding(crate::specs::Fields::fields_of))]
pub(crate) fn fields_of(section: Section) -> &'static [Field]
    ensures { result.now ≡ fields_of section }
{
    match section {
        Section::Top => &[
            Field(Key::Version, Kind::Integer, false),
            Field(Key::Transition, Kind::Tables, false),
            Field(Key::Place, Kind::Tables, false),
            Field(Key::Input, Kind::Tables, false),
        ],
        Section::Transition => &[
            Field(Key::Name, Kind::Text, true),
            Field(Key::Role, Kind::Text, false),
            Field(Key::Duration, Kind::Integer, false),
        ],
        Section::Place => &[
            Field(Key::Name, Kind::Text, true),
            Field(Key::From, Kind::Texts, true),
            Field(Key::To, Kind::Texts, true),
            Field(Key::Hold, Kind::Integer, false),
            Field(Key::Tokens, Kind::Integer, false),
            Field(Key::Ready, Kind::Integers, false),
        ],
        Section::Input => &[
            Field(Key::Transition, Kind::Text, true),
            Field(Key::Dates, Kind::Integers, true),
            Field(Key::Every, Kind::Integer, false),
            Field(Key::Gap, Kind::Integer, false),
        ],
    }
}

// The keys that a section's tables list: a transition has a duration in files of the second
// version only.
#[tactic(auto, unfolding(crate::specs::Fields::listed_fields))]
pub(crate) fn listed_fields(second: bool, section: Section) -> &'static [Field]
    ensures { result.now ≡ listed_fields second section }
{
    if second {
        return fields_of(section);
    }
    match section {
        Section::Transition => &[
            Field(Key::Name, Kind::Text, true),
            Field(Key::Role, Kind::Text, false),
        ],
        _ => fields_of(section),
    }
}
