//! What the reader refuses, and where.
ghost use Rattle.std.specs.Prelude.{◌≡◌};
ghost use Rattle.teg_reader.specs.declared.refusals.ReadRefusal.TheVariants.{OutOfMemory};

use crate::keys::Key;
use std::alloc::{AllocError, AllocFailed};
use std::error::Error;
use std::fmt;
use teg_net::{Label, Name, OutOfMemory};

/// A part of a net file.
#[derive(Clone, Copy, Debug, PartialEq, Eq)]
pub enum Section {
    /// The top table.
    Top,
    /// The `[[transition]]` entries.
    Transition,
    /// The `[[place]]` entries.
    Place,
    /// The `[[input]]` entries.
    Input,
}

/// A table of a net file.
#[derive(Clone, Copy, Debug, PartialEq, Eq)]
pub struct Spot {
    pub section: Section,
    /// From 1 among the entries of the section, and 0 for the top.
    pub position: u32,
}

/// Why the bytes of a net file give no net. The variants stand in the order in which the reader
/// looks for them: the first one that is found is the answer.
#[derive(Drop)]
pub enum ReadRefusal {
    /// The bytes are no text, or the grammar of TOML does not read them.
    NotToml,
    /// The table has a key that does not belong there: the least of them, byte by byte.
    UnknownKey {
        spot: Spot,
        key: Label,
    },
    /// Another kind stands at the key.
    WrongKind {
        spot: Spot,
        key: Key,
    },
    /// The key is needed and absent.
    MissingKey {
        spot: Spot,
        key: Key,
    },
    /// The entry's name is none.
    BadName {
        spot: Spot,
    },
    /// The entry's name is that of an earlier one, or its transition has a list already.
    Repeated {
        spot: Spot,
    },
    /// The value, or the number of entries, is out of its range.
    OutOfRange {
        spot: Spot,
        key: Key,
    },
    /// There is no transition.
    NoTransitions,
    /// The text is the name of no transition.
    UnknownTransition {
        spot: Spot,
        name: Label,
    },
    /// The place has not one producer and one consumer.
    NotEventGraph {
        place: Name,
        producers: u32,
        consumers: u32,
    },
    /// The place leads to an input transition.
    InputHasUpstream {
        place: Name,
    },
    /// The list does not belong to an input (position 0), falls at the date of this position,
    /// counted from 1, or cannot go on (the position after its last date).
    BadInput {
        transition: Name,
        position: u32,
    },
    /// The place has another number of ready dates than of tokens.
    BadReady {
        place: Name,
        given: u32,
        tokens: u32,
    },
    /// The place's hold and the duration of its upstream transition are together past
    /// 1,000,000,000.
    TooSlow {
        place: Name,
    },
    /// No memory was found.
    OutOfMemory,
}

impl fmt::Display for Spot {
    fn fmt<W: fmt::Write>(&self, f: &mut fmt::Formatter<W>) -> fmt::Result {
        let entry = match self.section {
            Section::Top => return f.write_str("top"),
            Section::Transition => "transition",
            Section::Place => "place",
            Section::Input => "input",
        };
        write!(f, "{entry} {}", self.position)
    }
}

// Tells what is wrong at a part of the file, and with which of its keys.
fn at_spot<W: fmt::Write>(
    f: &mut fmt::Formatter<W>,
    spot: Spot,
    fault: &str,
    key: &str,
) -> fmt::Result {
    write!(f, "{spot} {fault}{key}")
}

// Tells what a part of the file has that is unknown, as it stands there.
fn unknown_at<W: fmt::Write>(
    f: &mut fmt::Formatter<W>,
    spot: Spot,
    fault: &str,
    label: &Label,
) -> fmt::Result {
    write!(f, "{spot} unknown {fault} {:?}", label.as_str())
}

// Tells what is wrong with a place.
fn of_place<W: fmt::Write>(f: &mut fmt::Formatter<W>, place: &Name, fault: &str) -> fmt::Result {
    write!(f, "place {} {fault}", place.as_str())
}

// Tells two numbers that do not fit a place, each with what it counts.
fn counts_of_place<W: fmt::Write>(
    f: &mut fmt::Formatter<W>,
    place: &Name,
    first: u32,
    firsts: &str,
    second: u32,
    seconds: &str,
) -> fmt::Result {
    write!(
        f,
        "place {} has {first} {firsts} {second} {seconds}",
        place.as_str()
    )
}

impl fmt::Display for ReadRefusal {
    fn fmt<W: fmt::Write>(&self, f: &mut fmt::Formatter<W>) -> fmt::Result {
        match self {
            ReadRefusal::NotToml => f.write_str("not TOML"),
            ReadRefusal::UnknownKey { spot, key } => unknown_at(f, *spot, "key", key),
            ReadRefusal::WrongKind { spot, key } => at_spot(f, *spot, "wrong kind ", key.text()),
            ReadRefusal::MissingKey { spot, key } => at_spot(f, *spot, "missing ", key.text()),
            ReadRefusal::BadName { spot } => at_spot(f, *spot, "bad name", ""),
            ReadRefusal::Repeated { spot } => at_spot(f, *spot, "repeated", ""),
            ReadRefusal::OutOfRange { spot, key } => at_spot(f, *spot, "out of range ", key.text()),
            ReadRefusal::NoTransitions => f.write_str("no transitions"),
            ReadRefusal::UnknownTransition { spot, name } => unknown_at(
                f,
                *spot,
                "transition",
                name,
            ),
            ReadRefusal::NotEventGraph {
                place,
                producers,
                consumers,
            } => counts_of_place(
                f,
                place,
                *producers,
                "producers and",
                *consumers,
                "consumers",
            ),
            ReadRefusal::InputHasUpstream { place } => of_place(f, place, "enters an input"),
            ReadRefusal::BadInput {
                transition,
                position,
            } => write!(f, "input of {} bad at {position}", transition.as_str()),
            ReadRefusal::BadReady {
                place,
                given,
                tokens,
            } => counts_of_place(f, place, *given, "ready dates for", *tokens, "tokens"),
            ReadRefusal::TooSlow { place } => of_place(f, place, "hold exceeds 1000000000"),
            ReadRefusal::OutOfMemory => f.write_str("out of memory"),
        }
    }
}

// `{:?}` tells the same line.
impl fmt::Debug for ReadRefusal {
    fn fmt<W: fmt::Write>(&self, f: &mut fmt::Formatter<W>) -> fmt::Result {
        fmt::Display::fmt(self, f)
    }
}

impl Error for ReadRefusal {}

impl From<AllocError> for ReadRefusal {
    ghost from_gives = { λ _ e. e ≡ OutOfMemory };

    fn from(_error: AllocError) -> ReadRefusal {
        ReadRefusal::OutOfMemory
    }
}

impl<T: Drop> From<AllocFailed<T>> for ReadRefusal {
    ghost from_gives = { λ _ e. e ≡ OutOfMemory };

    fn from(_error: AllocFailed<T>) -> ReadRefusal {
        ReadRefusal::OutOfMemory
    }
}

impl From<OutOfMemory> for ReadRefusal {
    ghost from_gives = { λ _ e. e ≡ OutOfMemory };

    fn from(_error: OutOfMemory) -> ReadRefusal {
        ReadRefusal::OutOfMemory
    }
}
