//! Why a firing is refused.
ghost use Rattle.std.specs.Prelude.{◌≡◌};
ghost use Rattle.teg_replay.specs.declared.refusal.FireRefusal.TheVariants.{OutOfMemory};

use std::alloc::AllocError;
use std::error::Error;
use std::fmt;
use teg_net::PlaceId;

/// Why a firing is refused: the first of three ways to fail, or want of memory. Dates are in the
/// user's unit of time. Its line tells a place by its number, counted from 0.
#[derive(Clone, Copy, Debug, PartialEq, Eq)]
pub enum FireRefusal {
    /// This place, the lowest numbered of those into the transition, has not its token by the date:
    /// the token is there only from the date `ready` on, or, where that is none, the firing that
    /// brings it is missing.
    Illegal { place: PlaceId, ready: Option<u128> },
    /// The date is before that of the last accepted firing.
    BackInTime { last: u64 },
    /// The transition is an input that has a later date for this firing, or none.
    BeforeRelease { release: Option<u128> },
    /// No memory was found.
    OutOfMemory,
}

impl fmt::Display for FireRefusal {
    fn fmt<W: fmt::Write>(&self, f: &mut fmt::Formatter<W>) -> fmt::Result {
        let (cause, date) = match self {
            FireRefusal::Illegal { place, ready } => {
                write!(f, "illegal place {} ", place.index)?;
                match ready {
                    Some(ready) => ("ready at", *ready),
                    None => return f.write_str("never ready"),
                }
            }
            FireRefusal::BackInTime { last } => ("back in time behind", u128::from(*last)),
            FireRefusal::BeforeRelease { release } => match release {
                Some(release) => ("before release at", *release),
                None => return f.write_str("never released"),
            },
            FireRefusal::OutOfMemory => return f.write_str("out of memory"),
        };
        write!(f, "{cause} {date}")
    }
}

impl Error for FireRefusal {}

impl From<AllocError> for FireRefusal {
    ghost from_gives = { λ _ e. e ≡ OutOfMemory };

    fn from(_error: AllocError) -> FireRefusal {
        FireRefusal::OutOfMemory
    }
}
