//! Why there is no answer.
ghost use Rattle.std.specs.Prelude.{◌≡◌};
ghost use Rattle.scheduler_loop.specs.declared.refusals.NoAnswer.TheVariants.{OutOfMemory};
ghost use Rattle.scheduler_loop.specs.Answers.{no_answer_of_check, no_answer_of_due, no_answer_of_jit, no_answer_of_read};

use std::error::Error;
use std::fmt;
use teg_check::CheckRefusal;
use teg_due::DueRefusal;
use teg_jit::JitRefusal;
use teg_net::OutOfMemory;
use teg_reader::ReadRefusal;

/// Why a [`crate::Scheduler`] is not made, not changed or gives no answer. A refusal here is never
/// want of memory, which is `OutOfMemory` whichever call found none. The line of a refusal is that
/// of the call that refused.
#[derive(Debug, Drop)]
pub enum NoAnswer {
    /// The net file says no net.
    NoNet { refusal: ReadRefusal },
    /// The net has a circuit without tokens.
    NotLive { refusal: CheckRefusal },
    /// No place has the name.
    NoPlace,
    /// The holding time is past its limit of 1,000,000,000.
    HoldTooLong,
    /// The due file says no due dates.
    NoDue { refusal: DueRefusal },
    /// A firing comes later than it is due, whatever the inputs do.
    Late { refusal: JitRefusal },
    /// No memory was found.
    OutOfMemory,
}

impl fmt::Display for NoAnswer {
    fn fmt<W: fmt::Write>(&self, f: &mut fmt::Formatter<W>) -> fmt::Result {
        match self {
            NoAnswer::NoNet { refusal } => refusal.fmt(f),
            NoAnswer::NotLive { refusal } => refusal.fmt(f),
            NoAnswer::NoPlace => write!(f, "no place has the name"),
            NoAnswer::HoldTooLong => write!(f, "the holding time is past its limit"),
            NoAnswer::NoDue { refusal } => refusal.fmt(f),
            NoAnswer::Late { refusal } => refusal.fmt(f),
            NoAnswer::OutOfMemory => write!(f, "no memory was found"),
        }
    }
}

impl Error for NoAnswer {}

impl From<OutOfMemory> for NoAnswer {
    ghost from_gives = { λ _ e. e ≡ OutOfMemory };

    fn from(_error: OutOfMemory) -> NoAnswer {
        NoAnswer::OutOfMemory
    }
}

impl From<ReadRefusal> for NoAnswer {
    ghost from_gives = { λ refusal e. e ≡ no_answer_of_read refusal };

    fn from(refusal: ReadRefusal) -> NoAnswer {
        match refusal {
            ReadRefusal::OutOfMemory => NoAnswer::OutOfMemory,
            _ => NoAnswer::NoNet { refusal },
        }
    }
}

impl From<CheckRefusal> for NoAnswer {
    ghost from_gives = { λ refusal e. e ≡ no_answer_of_check refusal };

    fn from(refusal: CheckRefusal) -> NoAnswer {
        match refusal {
            CheckRefusal::OutOfMemory => NoAnswer::OutOfMemory,
            CheckRefusal::TokenFree { .. } => NoAnswer::NotLive { refusal },
        }
    }
}

impl From<DueRefusal> for NoAnswer {
    ghost from_gives = { λ refusal e. e ≡ no_answer_of_due refusal };

    fn from(refusal: DueRefusal) -> NoAnswer {
        match refusal {
            DueRefusal::OutOfMemory => NoAnswer::OutOfMemory,
            DueRefusal::BadRow { .. }
            | DueRefusal::UnknownTransition { .. }
            | DueRefusal::NotDue { .. }
            | DueRefusal::RepeatedDue { .. }
            | DueRefusal::OutOfRange { .. } => NoAnswer::NoDue { refusal },
        }
    }
}

impl From<JitRefusal> for NoAnswer {
    ghost from_gives = { λ refusal e. e ≡ no_answer_of_jit refusal };

    fn from(refusal: JitRefusal) -> NoAnswer {
        match refusal {
            JitRefusal::OutOfMemory => NoAnswer::OutOfMemory,
            JitRefusal::Late { .. } => NoAnswer::Late { refusal },
        }
    }
}
