//! The laws of other ready dates. Each is a function that does nothing when it runs: its contract is
//! the law.
ghost use Rattle.ready_changes.specs.ReadyChanges.{ReadyDatesGoBack, ReadyDatesKeepCircuits, ReadyDatesKeepRankings};

/// The law that ranks of a net stand for it with other ready dates of a place too: they look at
/// places and tokens alone (chapter 2). So a live net stays live.
pub fn ready_dates_keep_rankings()
    ensures { ReadyDatesKeepRankings }
{}

/// A change of ready dates leaves the circuits, and the time and the tokens of each, so the pace of
/// the net too (chapter 2).
pub fn ready_dates_keep_circuits()
    ensures { ReadyDatesKeepCircuits }
{}

/// A place that gets other ready dates and then its own again leaves the net as it was, and it may
/// have its own again where the net keeps the rules (chapter 2).
pub fn ready_dates_go_back()
    ensures { ReadyDatesGoBack }
{}
