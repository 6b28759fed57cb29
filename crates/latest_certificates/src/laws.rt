//! What conditions on single dates tell of the latest dates.
ghost use Rattle.latest_certificates.specs.LatestRows.{DuesAreListed, DuesAreOne, LocallyLatestRowsAreLatest};

/// In a live net, whole rows of dates of which each is the least of what is ahead of it, for due
/// dates up to their last number, are those of the latest dates, and no other rows are (chapter 5).
/// It does nothing when it runs.
///
/// Liveness is needed: around a circuit without tokens and without hold all dates at 5 are the
/// least of what is ahead, though nothing is due.
pub fn locally_latest_rows_are_latest()
    ensures { LocallyLatestRowsAreLatest }
{}

/// The rows of a due list say what is due (`listed`): there are due dates, at most one for each
/// firing, that are just those of the rows; and there is one such answer alone (`one`). So what
/// [`check_latest`](crate::check_latest) tells of all due dates that the rows list is said of some,
/// and of no others. It does nothing when it runs.
pub fn due_rows_are_listed()
    ensures listed { DuesAreListed }
    ensures one { DuesAreOne }
{}
