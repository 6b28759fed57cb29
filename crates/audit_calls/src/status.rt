//! How a call ends.
ghost use Rattle.std.specs.Prelude.{◌≡◌};
ghost use Rattle.audit_calls.specs.AuditStatuses.{audit_code, graver_of, gravity, status_of_finding};

use crate::finding::Finding;

/// How a call ends: by the gravest of what was found of its answers.
#[derive(Clone, Copy, Debug, PartialEq, Eq)]
pub enum AuditStatus {
    /// Each answer is shown.
    Shown,
    /// One is refuted.
    Refuted,
    /// The words ask nothing, or some between two `--` do not.
    Words,
    /// The checker of one does not say yes.
    NotShown,
    /// No checker reads one.
    NoChecker,
    /// A file is not read, or does not say what it should: a net, a text, rows of the net.
    NotRead,
    /// The findings could not be written.
    WriteFault,
    /// No memory was found. Nothing is written.
    NoMemory,
}

impl AuditStatus {
    /// The exit status of a program that ends so. It takes no memory.
    pub fn code(&self) -> u8
        ensures { result ≡ audit_code self.now }
    {
        match self {
            AuditStatus::Shown => 0,
            AuditStatus::Refuted => 1,
            AuditStatus::Words => 2,
            AuditStatus::NotShown => 3,
            AuditStatus::NoChecker => 4,
            AuditStatus::NotRead => 5,
            AuditStatus::WriteFault => 65,
            AuditStatus::NoMemory => 70,
        }
    }
}

// How a call ends of whose one answer this is found.
pub(crate) fn status_of(finding: Finding) -> AuditStatus
    ensures { result ≡ status_of_finding finding }
{
    match finding {
        Finding::Shown => AuditStatus::Shown,
        Finding::Refuted | Finding::WrongLine(_) => AuditStatus::Refuted,
        Finding::NotShown => AuditStatus::NotShown,
        Finding::NoChecker => AuditStatus::NoChecker,
    }
}

// How grave an ending is.
fn gravity(status: AuditStatus) -> u8
    ensures { result ≡ gravity status }
{
    match status {
        AuditStatus::Shown => 0,
        AuditStatus::NoChecker => 1,
        AuditStatus::NotShown => 2,
        AuditStatus::Refuted => 3,
        AuditStatus::NotRead => 4,
        AuditStatus::Words => 5,
        AuditStatus::WriteFault => 6,
        AuditStatus::NoMemory => 7,
    }
}

// The graver of two endings.
pub(crate) fn graver(one: AuditStatus, other: AuditStatus) -> AuditStatus
    ensures { result ≡ graver_of one other }
{
    if gravity(one) < gravity(other) {
        other
    } else {
        one
    }
}
