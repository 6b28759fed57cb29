//! The refusals of the library as one type.
ghost use Rattle.std.specs.Prelude.{◌≡◌};
ghost use Rattle.teg_refusals.specs.declared.refusal.Refusal.TheVariants.{NoNet, OutOfMemory};
ghost use Rattle.teg_refusals.specs.Refusals.{refusal_of_build, refusal_of_check, refusal_of_delay, refusal_of_due, refusal_of_endless, refusal_of_fire, refusal_of_forever, refusal_of_jit, refusal_of_left, refusal_of_log, refusal_of_name, refusal_of_period, refusal_of_read, refusal_of_settle, refusal_of_table};

use endless_due::EndlessRefusal;
use net_builder::BuildRefusal;
use std::alloc::{AllocError, AllocFailed};
use teg_check::{CheckRefusal, NotHeld};
use teg_due::{DueRefusal, LogRefusal};
use teg_forever::ForeverRefusal;
use teg_jit::JitRefusal;
use teg_net::{NameRefused, NetFault};
use teg_reader::ReadRefusal;
use teg_replay::FireRefusal;
use teg_settle::SettleRefusal;
use teg_state::NotLeft;
use teg_timetable::DelayRefusal;
use thiserror::Error;
use timetable_calls::PeriodRefused;
use timetable_files::TableRefusal;

/// Why a program that stands on several calls has no answer: the refusal of the call that gave one.
/// A refusal here is never want of memory, which is `OutOfMemory` whichever call found none. The
/// line of a refusal is that of the call that refused; numbers in it are those of its docstring.
#[derive(Debug, Drop, Error)]
pub enum Refusal {
    /// A text is no name.
    #[error("the text is no name")]
    BadName,
    /// Lists or entries of a program are no net: the first rule that they break.
    #[error("{fault}")]
    NoNet { fault: NetFault },
    /// A net file says no net.
    #[error("{refusal}")]
    Read { refusal: ReadRefusal },
    /// A circuit of the net has no tokens, so the net cannot run.
    #[error("{refusal}")]
    NotLive { refusal: CheckRefusal },
    /// A due file says no due dates.
    #[error("{refusal}")]
    Due { refusal: DueRefusal },
    /// A due file says no due dates without end.
    #[error("{refusal}")]
    EndlessDue { refusal: EndlessRefusal },
    /// A log says no firings.
    #[error("{refusal}")]
    Log { refusal: LogRefusal },
    /// A timetable file says no timetable.
    #[error("{refusal}")]
    Table { refusal: TableRefusal },
    /// A firing comes later than it is due, whatever the inputs do.
    #[error("{refusal}")]
    Late { refusal: JitRefusal },
    /// Due dates without end are not met, or their releases are not told.
    #[error("{refusal}")]
    Forever { refusal: ForeverRefusal },
    /// There is no settled form within a limit.
    #[error("{refusal}")]
    Settle { refusal: SettleRefusal },
    /// A firing may not follow those before it.
    #[error("{refusal}")]
    Fire { refusal: FireRefusal },
    /// What happened leaves no net.
    #[error("{refusal}")]
    State { refusal: NotLeft },
    /// The delays of a timetable are not spread.
    #[error("{refusal}")]
    Delays { refusal: DelayRefusal },
    /// A period has no timetable.
    #[error("{refusal}")]
    Period { refusal: PeriodRefused },
    /// No memory was found.
    #[error("out of memory")]
    OutOfMemory,
}

impl From<AllocError> for Refusal {
    ghost from_gives = { λ _ e. e ≡ OutOfMemory };

    fn from(_error: AllocError) -> Refusal {
        Refusal::OutOfMemory
    }
}

impl<T: Drop> From<AllocFailed<T>> for Refusal {
    ghost from_gives = { λ _ e. e ≡ OutOfMemory };

    fn from(_error: AllocFailed<T>) -> Refusal {
        Refusal::OutOfMemory
    }
}

impl From<teg_net::OutOfMemory> for Refusal {
    ghost from_gives = { λ _ e. e ≡ OutOfMemory };

    fn from(_error: teg_net::OutOfMemory) -> Refusal {
        Refusal::OutOfMemory
    }
}

impl From<NameRefused> for Refusal {
    ghost from_gives = { λ refusal e. e ≡ refusal_of_name refusal };

    fn from(refusal: NameRefused) -> Refusal {
        match refusal {
            NameRefused::Bad => Refusal::BadName,
            NameRefused::OutOfMemory => Refusal::OutOfMemory,
        }
    }
}

impl From<NetFault> for Refusal {
    ghost from_gives = { λ fault e. e ≡ NoNet fault };

    fn from(fault: NetFault) -> Refusal {
        Refusal::NoNet { fault }
    }
}

impl From<BuildRefusal> for Refusal {
    ghost from_gives = { λ refusal e. e ≡ refusal_of_build refusal };

    fn from(refusal: BuildRefusal) -> Refusal {
        match refusal {
            BuildRefusal::BadName => Refusal::BadName,
            BuildRefusal::Breaks { fault } => Refusal::NoNet { fault },
            BuildRefusal::OutOfMemory => Refusal::OutOfMemory,
        }
    }
}

impl From<ReadRefusal> for Refusal {
    ghost from_gives = { λ refusal e. e ≡ refusal_of_read refusal };

    fn from(refusal: ReadRefusal) -> Refusal {
        match refusal {
            ReadRefusal::OutOfMemory => Refusal::OutOfMemory,
            _ => Refusal::Read { refusal },
        }
    }
}

impl From<CheckRefusal> for Refusal {
    ghost from_gives = { λ refusal e. e ≡ refusal_of_check refusal };

    fn from(refusal: CheckRefusal) -> Refusal {
        match refusal {
            CheckRefusal::OutOfMemory => Refusal::OutOfMemory,
            CheckRefusal::TokenFree { .. } => Refusal::NotLive { refusal },
        }
    }
}

impl From<NotHeld> for Refusal {
    ghost from_gives = { λ held e. e ≡ refusal_of_check held.refusal };

    fn from(held: NotHeld) -> Refusal {
        Refusal::from(held.refusal)
    }
}

impl From<DueRefusal> for Refusal {
    ghost from_gives = { λ refusal e. e ≡ refusal_of_due refusal };

    fn from(refusal: DueRefusal) -> Refusal {
        match refusal {
            DueRefusal::OutOfMemory => Refusal::OutOfMemory,
            DueRefusal::BadRow { .. }
            | DueRefusal::UnknownTransition { .. }
            | DueRefusal::NotDue { .. }
            | DueRefusal::RepeatedDue { .. }
            | DueRefusal::OutOfRange { .. } => Refusal::Due { refusal },
        }
    }
}

impl From<EndlessRefusal> for Refusal {
    ghost from_gives = { λ refusal e. e ≡ refusal_of_endless refusal };

    fn from(refusal: EndlessRefusal) -> Refusal {
        match refusal {
            EndlessRefusal::OutOfMemory => Refusal::OutOfMemory,
            EndlessRefusal::BadRow { .. }
            | EndlessRefusal::UnknownTransition { .. }
            | EndlessRefusal::NotDue { .. }
            | EndlessRefusal::RepeatedDue { .. }
            | EndlessRefusal::OutOfRange { .. }
            | EndlessRefusal::Falls { .. } => Refusal::EndlessDue { refusal },
        }
    }
}

impl From<LogRefusal> for Refusal {
    ghost from_gives = { λ refusal e. e ≡ refusal_of_log refusal };

    fn from(refusal: LogRefusal) -> Refusal {
        match refusal {
            LogRefusal::OutOfMemory => Refusal::OutOfMemory,
            LogRefusal::BadRow { .. }
            | LogRefusal::UnknownTransition { .. }
            | LogRefusal::OutOfRange { .. } => Refusal::Log { refusal },
        }
    }
}

impl From<TableRefusal> for Refusal {
    ghost from_gives = { λ refusal e. e ≡ refusal_of_table refusal };

    fn from(refusal: TableRefusal) -> Refusal {
        match refusal {
            TableRefusal::OutOfMemory => Refusal::OutOfMemory,
            TableRefusal::BadRow { .. }
            | TableRefusal::UnknownTransition { .. }
            | TableRefusal::Repeated { .. }
            | TableRefusal::OutOfRange { .. }
            | TableRefusal::Missing { .. } => Refusal::Table { refusal },
        }
    }
}

impl From<JitRefusal> for Refusal {
    ghost from_gives = { λ refusal e. e ≡ refusal_of_jit refusal };

    fn from(refusal: JitRefusal) -> Refusal {
        match refusal {
            JitRefusal::OutOfMemory => Refusal::OutOfMemory,
            JitRefusal::Late { .. } => Refusal::Late { refusal },
        }
    }
}

impl From<ForeverRefusal> for Refusal {
    ghost from_gives = { λ refusal e. e ≡ refusal_of_forever refusal };

    fn from(refusal: ForeverRefusal) -> Refusal {
        match refusal {
            ForeverRefusal::OutOfMemory => Refusal::OutOfMemory,
            ForeverRefusal::Late { .. }
            | ForeverRefusal::TooLong { .. }
            | ForeverRefusal::TooWide { .. } => Refusal::Forever { refusal },
        }
    }
}

impl From<SettleRefusal> for Refusal {
    ghost from_gives = { λ refusal e. e ≡ refusal_of_settle refusal };

    fn from(refusal: SettleRefusal) -> Refusal {
        match refusal {
            SettleRefusal::OutOfMemory => Refusal::OutOfMemory,
            SettleRefusal::TooLong { .. } => Refusal::Settle { refusal },
        }
    }
}

impl From<FireRefusal> for Refusal {
    ghost from_gives = { λ refusal e. e ≡ refusal_of_fire refusal };

    fn from(refusal: FireRefusal) -> Refusal {
        match refusal {
            FireRefusal::OutOfMemory => Refusal::OutOfMemory,
            FireRefusal::Illegal { .. }
            | FireRefusal::BackInTime { .. }
            | FireRefusal::BeforeRelease { .. } => Refusal::Fire { refusal },
        }
    }
}

impl From<NotLeft> for Refusal {
    ghost from_gives = { λ refusal e. e ≡ refusal_of_left refusal };

    fn from(refusal: NotLeft) -> Refusal {
        match refusal {
            NotLeft::OutOfMemory => Refusal::OutOfMemory,
            NotLeft::Unpaid { .. }
            | NotLeft::ManyTokens { .. }
            | NotLeft::FarInput { .. }
            | NotLeft::NoNet { .. } => Refusal::State { refusal },
        }
    }
}

impl From<DelayRefusal> for Refusal {
    ghost from_gives = { λ refusal e. e ≡ refusal_of_delay refusal };

    fn from(refusal: DelayRefusal) -> Refusal {
        match refusal {
            DelayRefusal::OutOfMemory => Refusal::OutOfMemory,
            DelayRefusal::TooLarge { .. }
            | DelayRefusal::Unworkable { .. }
            | DelayRefusal::TooLong { .. } => Refusal::Delays { refusal },
        }
    }
}

impl From<PeriodRefused> for Refusal {
    ghost from_gives = { λ refusal e. e ≡ refusal_of_period refusal };

    fn from(refusal: PeriodRefused) -> Refusal {
        match refusal {
            PeriodRefused::OutOfMemory => Refusal::OutOfMemory,
            PeriodRefused::TooShort { .. } => Refusal::Period { refusal },
        }
    }
}
