//! What the standard form says of dates. The law is the contract of a function that does nothing
//! when it runs.
ghost use Rattle.teg_form.specs.FormDates.{LeastDatesAreByForm, DatesByFormAreLeast};

/// A dating of a live net is the least just where the date of each firing is the latest of its
/// start, of the firing before it, and of what the form's stars and entries lead to: a star's time
/// after the firing of the same number, an entry's time after the firing as many numbers before as
/// it has tokens (chapter 2, the explicit form). The start is the latest of 0, the ready dates of
/// the initial tokens that the firing takes and, for an input, its release. So beside these starts
/// the form says all of the places that dates rest on.
pub fn least_dates_are_by_form()
    ensures by_form { LeastDatesAreByForm }
    ensures least { DatesByFormAreLeast }
{}
