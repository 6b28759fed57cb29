//! The laws of legal runs. Each is a function that does nothing when it runs: its contract is the
//! law.
ghost use Rattle.run_laws.specs.EarliestRuns.{EarliestRunsAreLegal, PartsOfEarliestRunsAreLegal};
ghost use Rattle.run_laws.specs.LegalRuns.{EarliestIsLeast, FailuresAreNotLegal, FailuresAreOne, LegalRunsAreNotEarly};

/// In a live net no firing of a legal run comes before its least date (chapter 2).
pub fn legal_runs_are_not_early()
    ensures { LegalRunsAreNotEarly }
{}

/// In a live net, where all firings of a run came at their least dates, the earliest date of the
/// next firing of a transition is its least date (chapter 2).
pub fn earliest_is_least()
    ensures { EarliestIsLeast }
{}

/// The earliest runs of the least dating are legal, and so are their first parts (chapter 2).
pub fn earliest_runs_are_legal()
    ensures whole { EarliestRunsAreLegal }
    ensures parts { PartsOfEarliestRunsAreLegal }
{}

/// A firing that fails in one of the three ways may not follow the run, and it fails in one way
/// alone (chapter 2).
pub fn failures_are_not_legal()
    ensures not_legal { FailuresAreNotLegal }
    ensures one { FailuresAreOne }
{}
