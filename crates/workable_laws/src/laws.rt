//! The laws of workable periods. Each is a function that does nothing when it runs: its contract is
//! the law.
ghost use Rattle.workable_laws.specs.WorkablePeriods.{PeriodsAreWorkable, PeriodsFromTheRatioAreWorkable, TimetablesFromFirstsAreWorkable, WorkableIsByFirsts, WorkablePeriodsAreAboveRatios, WorkablePeriodsLeaveTime};

/// Where a net can keep to a timetable, no circuit takes longer than the period gives it for its
/// tokens, and so the period of a live net is at least its greatest ratio (chapters 2 and 3).
///
/// For the ratio the net has to be live: a circuit without time and without tokens has every ratio,
/// and any period leaves it its time.
pub fn workable_periods_leave_time()
    ensures circuits { WorkablePeriodsLeaveTime }
    ensures ratios { WorkablePeriodsAreAboveRatios }
{}

/// A net has dates of first firings, which go on by a period and leave time for each place and for
/// its initial tokens, just where the period leaves each circuit its time; so, of a live net with a
/// circuit, just where the period is at least the greatest ratio. A net can keep a timetable just
/// where its first departures are such dates, and so each one that begins with such dates (chapters
/// 2 and 3).
pub fn periods_from_the_ratio_are_workable()
    ensures firsts { WorkableIsByFirsts }
    ensures begun { TimetablesFromFirstsAreWorkable }
    ensures periods { PeriodsAreWorkable }
    ensures ratios { PeriodsFromTheRatioAreWorkable }
{}
