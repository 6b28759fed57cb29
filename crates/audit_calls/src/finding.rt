//! What is found of an answer.
ghost use Rattle.std.specs.Prelude.{◌≡◌};
ghost use Rattle.audit_calls.specs.AuditStatuses.{finding_word};

/// What is found of an answer.
#[derive(Clone, Copy)]
pub enum Finding {
    /// It is so.
    Shown,
    /// It is not so: the answer tells that a net is live which is not, other counts, a circuit without
    /// tokens that is none, or no circuit where there is one; or the net is live, and it tells another
    /// size, another date, another cause why there is no bound, or the latest dates of due dates that no
    /// inputs meet.
    Refuted,
    /// It is not so: the net is live, and of a list or of a table of latest dates the line of this
    /// number, counted from 0, is the first that tells other dates; of a table it is 0 where the
    /// table does not go up to the greatest number that is due; of rounds the first round that is
    /// another begins with it.
    WrongLine(u64),
    /// Its checker does not say yes.
    NotShown,
    /// No checker reads it.
    NoChecker,
}

// How it is told.
pub(crate) fn word_of(finding: Finding) -> &'static str
    ensures { result.now ≡ finding_word finding }
{
    match finding {
        Finding::Shown => "shown",
        Finding::Refuted | Finding::WrongLine(_) => "refuted",
        Finding::NotShown => "not shown",
        Finding::NoChecker => "no checker",
    }
}
