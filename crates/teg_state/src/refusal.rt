//! Why a run leaves no net.
ghost use Rattle.std.specs.Prelude.{◌≡◌};
ghost use Rattle.teg_state.specs.declared.refusal.NotLeft.TheVariants.{OutOfMemory};

use std::alloc::{AllocError, AllocFailed};
use std::error::Error;
use std::fmt;
use teg_net::{NetFault, PlaceId, TransitionId};

/// Why a run leaves no net: the first place that is so, else the first input, else the rule.
#[derive(Clone, Copy, Debug, PartialEq, Eq)]
pub enum NotLeft {
    /// In the run this place gave more tokens than it had and got.
    Unpaid { place: PlaceId },
    /// More than 1,000 tokens are left in this place.
    ManyTokens { place: PlaceId },
    /// The dates of this input from now on are no list of at most 100,000 dates up to 10^12 that goes
    /// on as they did.
    FarInput { transition: TransitionId },
    /// What is left breaks this rule of nets: a token is ready past 10^12.
    NoNet { fault: NetFault },
    /// No memory was found.
    OutOfMemory,
}

impl fmt::Display for NotLeft {
    fn fmt<W: fmt::Write>(&self, f: &mut fmt::Formatter<W>) -> fmt::Result {
        let (entry, number, fault) = match self {
            NotLeft::Unpaid { place } => ("place", place.index, "gave tokens that it had not"),
            NotLeft::ManyTokens { place } => {
                ("place", place.index, "is left more than 1000 tokens")
            }
            NotLeft::FarInput { transition } => (
                "input",
                transition.index,
                "has no short list of dates from now on",
            ),
            NotLeft::NoNet { fault } => return fault.fmt(f),
            NotLeft::OutOfMemory => return f.write_str("out of memory"),
        };
        write!(f, "{entry} {number} {fault}")
    }
}

impl Error for NotLeft {}

impl From<AllocError> for NotLeft {
    ghost from_gives = { λ _ e. e ≡ OutOfMemory };

    fn from(_error: AllocError) -> NotLeft {
        NotLeft::OutOfMemory
    }
}

impl<T: Drop> From<AllocFailed<T>> for NotLeft {
    ghost from_gives = { λ _ e. e ≡ OutOfMemory };

    fn from(_error: AllocFailed<T>) -> NotLeft {
        NotLeft::OutOfMemory
    }
}
