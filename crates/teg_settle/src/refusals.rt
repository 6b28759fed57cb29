//! Why there is no settled form to answer.
use std::alloc::AllocError;
use teg_net::OutOfMemory;
use thiserror::Error;

/// Why a call answers no settled form.
#[derive(Clone, Copy, Debug, Drop, PartialEq, Eq, Error)]
pub enum SettleRefusal {
    /// The settling length exceeds the limit that was given.
    #[error("no settled form within {limit}")]
    TooLong {
        /// The limit.
        limit: u32,
    },
    /// No memory was found.
    #[error("out of memory")]
    OutOfMemory,
}

impl From<AllocError> for SettleRefusal {
    ghost use Rattle.std.specs.Prelude.{◌≡◌};
    ghost use Rattle.teg_settle.specs.declared.refusals.SettleRefusal.TheVariants.{OutOfMemory};

    ghost from_gives = { λ _ e. e ≡ OutOfMemory };

    fn from(_error: AllocError) -> SettleRefusal {
        SettleRefusal::OutOfMemory
    }
}

impl From<OutOfMemory> for SettleRefusal {
    ghost use Rattle.std.specs.Prelude.{◌≡◌};
    ghost use Rattle.teg_settle.specs.declared.refusals.SettleRefusal.TheVariants.{OutOfMemory};

    ghost from_gives = { λ _ e. e ≡ OutOfMemory };

    fn from(_error: OutOfMemory) -> SettleRefusal {
        SettleRefusal::OutOfMemory
    }
}
