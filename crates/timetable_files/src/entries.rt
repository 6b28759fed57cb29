//! The rows of a timetable's file.
ghost use Rattle.std.specs.Prelude.{◌≡◌};
ghost use Rattle.timetable_files.specs.Entries.{departure_number, transition_in_entry};

use delay_laws::Delay;
use teg_net::TransitionId;

// A row: the first departure of a transition, in the user's unit, or a delay.
#[derive(Clone, Copy)]
pub(crate) enum TableEntry {
    Departure {
        transition: TransitionId,
        first: u64,
    },
    Late {
        delay: Delay,
    },
}

impl TableEntry {
    // Its transition.
    pub(crate) fn transition(&self) -> TransitionId
        ensures { result.index ≡ transition_in_entry self.now }
    {
        match self {
            TableEntry::Departure { transition, .. } => *transition,
            TableEntry::Late { delay } => delay.transition,
        }
    }

    // The number of the departure that it delays, or 0 where it gives a first departure.
    pub(crate) fn number(&self) -> u32
        ensures { result ≡ departure_number self.now }
    {
        match self {
            TableEntry::Departure { .. } => 0,
            TableEntry::Late { delay } => delay.number,
        }
    }
}
