//! The laws of earliest timetables: functions that do nothing when they run, whose contracts are the
//! laws.
ghost use Rattle.timetable_calls.specs.FractionPeriods.{WholeDatesKeepPlaces, WholeDatesRepeat};
ghost use Rattle.timetable_calls.specs.LeastFirsts.{LeastFirstsAreOne, LeastFirstsAreOneAt, LeastFirstsExist, LeastFirstsExistAt};

/// Earliest timetables exist: where a period leaves each circuit of a net its time, there are dates
/// of first firings that leave each place its time and before which no other such dates come, and
/// there is but one such list (`exist`, `one`), and the same at a period that is a fraction, with
/// dates in parts of the unit (`exist_at`, `one_at`) (chapters 2 and 3). Each place has to begin and
/// end at a transition of the net, and no place may have more ready dates than tokens.
///
/// So the timetables of a period that a net can keep have a least one. They have no greatest: each
/// may begin later as a whole.
pub fn earliest_timetables_exist()
    ensures exist { LeastFirstsExist }
    ensures one { LeastFirstsAreOne }
    ensures exist_at { LeastFirstsExistAt }
    ensures one_at { LeastFirstsAreOneAt }
{}

/// Whole dates of a timetable whose period is a fraction: rounded down, its dates leave each place
/// its time and wait for its ready dates, and they repeat, at a period `a / b` each `b` firings, `a`
/// later (chapters 2 and 3). At 7/2 a machine begins at 0, 3, 7, 10, 14, and so on.
pub fn whole_dates_keep_places()
    ensures keep { WholeDatesKeepPlaces }
    ensures repeat { WholeDatesRepeat }
{}
