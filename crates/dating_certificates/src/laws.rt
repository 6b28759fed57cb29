//! What conditions on single dates tell of the least dating.
ghost use Rattle.dating_certificates.specs.TightRows.{FirstRowsAreLeast};
ghost use Rattle.dating_certificates.specs.CheckedRows.{TightRowsAreFirstRows};

/// In a live net, dates that up to a number are each the latest of what the firing waits for are
/// there the least dates, under any releases (chapter 2). It does nothing when it runs.
///
/// Liveness is needed: a transition with a place to itself without hold and tokens waits for its
/// own firing, and then each date from the least on is the latest of what it waits for.
pub fn first_rows_are_least()
    ensures { FirstRowsAreLeast }
{}

/// In a live net, whole rows of dates of which each is the latest of what its firing waits for are
/// the first rows of the least dating, by the input lists of the net, and no other rows are
/// (chapter 2). The net keeps the limits of a net file, from which the rows have their bound. It
/// does nothing when it runs.
pub fn tight_rows_are_first_rows()
    ensures { TightRowsAreFirstRows }
{}
