//! Latest dates, and the refusal of due dates that no inputs can meet.
ghost use Rattle.std.specs.Prelude.{◌≡◌};
ghost use Rattle.teg_jit.specs.declared.answers.JitRefusal.TheVariants.{OutOfMemory};

use std::alloc::AllocError;
use std::error::Error;
use std::fmt;
use teg_net::{OutOfMemory, PlaceId, TransitionId, Walk};

/// The first step of a walk by which a latest date is attained.
#[derive(Clone, Copy, Debug, PartialEq, Eq)]
pub enum Onward {
    /// The firing is due at its latest date.
    Due,
    /// By the place: the latest date at its end, less its hold, is this one.
    By(PlaceId),
    /// The latest date of the transition's next firing is this one.
    Next,
}

/// The latest date of a firing (chapter 5).
#[derive(Clone, Copy, Debug, PartialEq, Eq)]
pub enum LatestDate {
    /// No walk leads from the firing to one that is due.
    Free,
    /// The least due date less time over all such walks, in the user's unit.
    At { date: u64, onward: Onward },
}

/// Why there is no plan. Its line tells a transition by its number, counted from 0. Dates are in
/// the user's unit.
#[derive(Debug, Drop)]
pub enum JitRefusal {
    /// With all inputs at 0 the firing comes later than it is due.
    Late {
        transition: TransitionId,
        /// The number of the firing, from 1.
        number: u32,
        /// The due date, in the user's unit.
        due: u64,
        /// The date of the firing with all inputs at 0.
        least: u128,
        /// From when the tokens are ready that the first firing of the walk takes.
        start: u64,
        /// A walk that ends at the firing: its start plus its time is `least`.
        walk: Walk,
    },
    /// No memory was found.
    OutOfMemory,
}

impl fmt::Display for JitRefusal {
    fn fmt<W: fmt::Write>(&self, f: &mut fmt::Formatter<W>) -> fmt::Result {
        let (transition, number, due, least) = match self {
            JitRefusal::Late {
                transition,
                number,
                due,
                least,
                ..
            } => (transition.index, *number, *due, *least),
            JitRefusal::OutOfMemory => return f.write_str("out of memory"),
        };
        write!(
            f,
            "late transition {transition} firing {number} due {due} least {least}"
        )
    }
}

impl Error for JitRefusal {}

impl From<AllocError> for JitRefusal {
    ghost from_gives = { λ _ e. e ≡ OutOfMemory };

    fn from(_error: AllocError) -> JitRefusal {
        JitRefusal::OutOfMemory
    }
}

impl From<OutOfMemory> for JitRefusal {
    ghost from_gives = { λ _ e. e ≡ OutOfMemory };

    fn from(_error: OutOfMemory) -> JitRefusal {
        JitRefusal::OutOfMemory
    }
}
