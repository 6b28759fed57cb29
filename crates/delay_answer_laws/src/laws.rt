//! The laws of printed timetables that are shown.
ghost use Rattle.delay_answer_laws.specs.SaidTimetables.{SaidTimetablesAreShown, ShownKeptIsSaid, ShownRecoveredIsSaid};

/// Where a text is shown to tell the delays of a timetable and that they die out, `teg timetable`
/// says it of each file of the timetable, with no limit or with one that the settled form of the
/// delays keeps (chapters 2 and 3).
pub fn shown_recovered_is_said()
    ensures { ShownRecoveredIsSaid }
{}

/// Where a text is shown to tell the delays of a timetable and a circuit that keeps them,
/// `teg timetable` says it of each file of the timetable, with no limit or with one that the settled
/// form of the delays keeps (chapters 2 and 3).
pub fn shown_kept_is_said()
    ensures { ShownKeptIsSaid }
{}

/// Where the delays of a timetable can be followed in a net, each text that `teg timetable` says of
/// how they spread is one that is shown, of delays that a circuit keeps or of such that die out
/// (chapters 2 and 3). So the clauses of the checkers ask of a text no more than the command tells.
pub fn said_timetables_are_shown()
    ensures { SaidTimetablesAreShown }
{}
