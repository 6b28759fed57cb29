//! Why delays are not spread.
ghost use Rattle.std.specs.Prelude.{◌≡◌};
ghost use Rattle.teg_timetable.specs.declared.refusals.DelayRefusal.TheVariants.{OutOfMemory as NoDelayMemory};

use std::error::Error;
use std::fmt;
use teg_net::{OutOfMemory, PlaceId};

/// Why the delays of a timetable are not spread: the first cause in this order. Its line tells a
/// place by its number, counted from 0.
#[derive(Clone, Copy, Debug, PartialEq, Eq)]
pub enum DelayRefusal {
    /// The net has more than 200 transitions, or more than 4,000 transitions and places together.
    TooLarge { transitions: u32, places: u32 },
    /// The plan does not leave this place the time that it takes, or departs before its initial
    /// tokens are ready; it is the lowest numbered such place.
    Unworkable { place: PlaceId },
    /// The delayed dates settle only past this limit.
    TooLong { limit: u32 },
    /// No memory was found.
    OutOfMemory,
}

// The line that the workbench prints, without the word `refused`, and with numbers, from 0, in
// place of the names of places.
impl fmt::Display for DelayRefusal {
    fn fmt<W: fmt::Write>(&self, f: &mut fmt::Formatter<W>) -> fmt::Result {
        let (words, number, tail) = match self {
            DelayRefusal::TooLarge {
                transitions,
                places,
            } => {
                write!(f, "timetable of {transitions} transitions ")?;
                ("and", *places, " places")
            }
            DelayRefusal::Unworkable { place } => {
                ("place", place.index, " does not fit the timetable")
            }
            DelayRefusal::TooLong { limit } => ("too long: no settled form within", *limit, ""),
            DelayRefusal::OutOfMemory => return f.write_str("out of memory"),
        };
        write!(f, "{words} {number}{tail}")
    }
}

impl Error for DelayRefusal {}

impl From<OutOfMemory> for DelayRefusal {
    ghost from_gives = { λ _ e. e ≡ NoDelayMemory };

    fn from(_error: OutOfMemory) -> DelayRefusal {
        DelayRefusal::OutOfMemory
    }
}
