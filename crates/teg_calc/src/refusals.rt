//! Why a text has no tree.
ghost use Rattle.std.specs.Prelude.{◌≡◌};
ghost use Rattle.teg_calc.specs.declared.refusals.Stop.TheVariants.{OutOfMemory};

use std::alloc::{AllocError, AllocFailed};
use thiserror::Error;

/// Why there is no tree to answer. Offsets count the bytes of the text from 0.
#[derive(Clone, Copy, Debug, PartialEq, Eq, Drop, Error)]
pub enum ParseRefused {
    /// The text is no expression; its longest beginning of one has `at` bytes.
    #[error("syntax at {at}")]
    Syntax { at: u32 },
    /// At this offset a bracket is opened while 64 are open.
    #[error("too deep at {at}")]
    TooDeep { at: u32 },
    /// Memory was wanted and not found.
    #[error("out of memory")]
    OutOfMemory,
}

// Why a reader does not go on by a byte.
#[derive(Clone, Copy, Drop)]
pub(crate) enum Stop {
    // No expression goes on by this byte.
    Unexpected,
    // The byte opens a bracket while 64 are open.
    TooDeep,
    OutOfMemory,
}

impl<T: Drop> From<AllocFailed<T>> for Stop {
    ghost from_gives = { λ _ e. e ≡ OutOfMemory };

    fn from(_error: AllocFailed<T>) -> Stop {
        Stop::OutOfMemory
    }
}

impl From<AllocError> for Stop {
    ghost from_gives = { λ _ e. e ≡ OutOfMemory };

    fn from(_error: AllocError) -> Stop {
        Stop::OutOfMemory
    }
}
