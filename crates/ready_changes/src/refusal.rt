//! Why a place may not have ready dates.
ghost use Rattle.std.specs.Prelude.{◌≡◌};
ghost use Rattle.ready_changes.specs.declared.refusal.NotReady.TheVariants.{OutOfMemory};

use std::alloc::AllocError;
use std::error::Error;
use std::fmt;

/// Why a place may not have these ready dates.
#[derive(Clone, Copy, Debug, PartialEq, Eq)]
pub enum NotReady {
    /// There are dates, and not one for each token.
    Count,
    /// A date is past 10^12.
    Late,
    /// No memory was found.
    OutOfMemory,
}

impl fmt::Display for NotReady {
    fn fmt<W: fmt::Write>(&self, f: &mut fmt::Formatter<W>) -> fmt::Result {
        f.write_str(match self {
            NotReady::Count => "not one ready date for each token",
            NotReady::Late => "a ready date is past 1000000000000",
            NotReady::OutOfMemory => "out of memory",
        })
    }
}

impl Error for NotReady {}

impl From<AllocError> for NotReady {
    ghost from_gives = { λ _ e. e ≡ OutOfMemory };

    fn from(_error: AllocError) -> NotReady {
        NotReady::OutOfMemory
    }
}
