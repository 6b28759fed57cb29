//! The laws of printed answers that are shown.
ghost use Rattle.answer_laws.specs.SaidBounds.{ShownBoundsAreSaid};
ghost use Rattle.answer_laws.specs.SaidRounds.{ShownRoundsAreSaid};
ghost use Rattle.answer_laws.specs.SaidAnswers.{ShownDatesAreSaid, ShownListsAreSaid, ShownNoCircuitIsSaid, ShownSlacksAreSaid};

/// A text is shown to be a list of the dates of so many firings just where the net is live and
/// `teg list` says it (chapter 2).
pub fn shown_lists_are_said()
    ensures { ShownListsAreSaid }
{}

/// Where a text is shown to tell the date of a firing, it is the line of `teg date` with the date
/// that the least dating gives to it (chapter 2).
pub fn shown_dates_are_said()
    ensures { ShownDatesAreSaid }
{}

/// Where a text is shown to tell that a net has no circuit, the net is live and `teg slack` says it
/// (chapter 2).
pub fn shown_no_circuit_is_said()
    ensures { ShownNoCircuitIsSaid }
{}

/// Where a text is shown to tell the slack of the places of a net, it is that of its greatest ratio
/// in lowest terms, and of the slack of each place, as `teg slack` says it (chapters 2 and 3).
pub fn shown_slacks_are_said()
    ensures { ShownSlacksAreSaid }
{}

/// A text is shown to be that of a bound, or of why a net has none, just where the net is live and
/// `teg bound` says it (chapter 3).
pub fn shown_bounds_are_said()
    ensures { ShownBoundsAreSaid }
{}

/// A text is shown to be that of cycle times with their rounds just where the net is live and has a
/// circuit, and `teg cycle --rounds` says it (chapter 3; Howard's algorithm, of which the book has
/// none).
pub fn shown_rounds_are_said()
    ensures { ShownRoundsAreSaid }
{}
