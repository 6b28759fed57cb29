//! Why a period has no timetable that a net can keep.
ghost use Rattle.std.specs.Prelude.{◌≡◌};
ghost use Rattle.timetable_calls.specs.declared.refusal.PeriodRefused.TheVariants.{OutOfMemory};

use std::alloc::AllocError;
use std::error::Error;
use std::fmt;
use teg_net::Circuit;

/// Why a period has no timetable that a net can keep. Its line tells places by their numbers,
/// counted from 0.
#[derive(Debug, Drop)]
pub enum PeriodRefused {
    /// This circuit takes longer than the period gives it for its tokens. It has the greatest ratio
    /// of time to tokens of the net, and begins with the place that leaves its lowest numbered
    /// transition.
    TooShort { circuit: Circuit },
    /// No memory was found.
    OutOfMemory,
}

impl From<AllocError> for PeriodRefused {
    ghost from_gives = { λ _ e. e ≡ OutOfMemory };

    fn from(_error: AllocError) -> PeriodRefused {
        PeriodRefused::OutOfMemory
    }
}

impl From<teg_net::OutOfMemory> for PeriodRefused {
    ghost from_gives = { λ _ e. e ≡ OutOfMemory };

    fn from(_error: teg_net::OutOfMemory) -> PeriodRefused {
        PeriodRefused::OutOfMemory
    }
}

impl fmt::Display for PeriodRefused {
    fn fmt<W: fmt::Write>(&self, f: &mut fmt::Formatter<W>) -> fmt::Result {
        match self {
            PeriodRefused::TooShort { circuit } => {
                f.write_str("too short for the circuit of places")?;
                for place in circuit.places.iter() {
                    write!(f, " {}", place.index)?;
                }
                Ok(())
            }
            PeriodRefused::OutOfMemory => f.write_str("out of memory"),
        }
    }
}

impl Error for PeriodRefused {}
