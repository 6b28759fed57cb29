//! The law of the whole call: what follows of it. It is a function that does nothing when it runs:
//! its contract is the law.
ghost use Rattle.teg_run.specs.Headline.{RunsKeepPromises};

/// The law that a call which runs as [`workbench`] does keeps the promises of the record
/// `KeepsPromises`, in `specs/Headline.antt`: which text was written, and the exact cause of each
/// status. It does nothing when it runs.
///
/// [`workbench`]: crate::workbench
pub fn runs_keep_promises()
    ensures { RunsKeepPromises }
{}
