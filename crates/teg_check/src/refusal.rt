//! Why a net gets no ranks.
ghost use Rattle.std.specs.Prelude.{◌≡◌};
ghost use Rattle.teg_check.specs.declared.refusal.CheckRefusal.TheVariants.{OutOfMemory};

use std::alloc::AllocError;
use std::error::Error;
use std::fmt;
use teg_net::Circuit;

/// Why [`crate::check`] gives no ranks. Its line tells places by their numbers, counted from 0.
#[derive(Debug, Drop)]
pub enum CheckRefusal {
    /// The net is not live: this circuit has no tokens. It begins with the place that leaves its
    /// lowest numbered transition.
    TokenFree { circuit: Circuit },
    /// No memory was found.
    OutOfMemory,
}

impl From<AllocError> for CheckRefusal {
    ghost from_gives = { λ _ e. e ≡ OutOfMemory };

    fn from(_error: AllocError) -> CheckRefusal {
        CheckRefusal::OutOfMemory
    }
}

impl From<teg_net::OutOfMemory> for CheckRefusal {
    ghost from_gives = { λ _ e. e ≡ OutOfMemory };

    fn from(_error: teg_net::OutOfMemory) -> CheckRefusal {
        CheckRefusal::OutOfMemory
    }
}

impl fmt::Display for CheckRefusal {
    fn fmt<W: fmt::Write>(&self, f: &mut fmt::Formatter<W>) -> fmt::Result {
        match self {
            CheckRefusal::TokenFree { circuit } => {
                f.write_str("token-free circuit of places")?;
                for place in circuit.places.iter() {
                    write!(f, " {}", place.index)?;
                }
                Ok(())
            }
            CheckRefusal::OutOfMemory => f.write_str("out of memory"),
        }
    }
}

impl Error for CheckRefusal {}
