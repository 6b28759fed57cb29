//! The laws of the dates that a delayed timetable leads to. Each is a function that does nothing
//! when it runs: its contract is the law.
ghost use Rattle.delay_laws.specs.DelayLaws.{DelayedDatingsAreOne, DelayedDatingsExist, DelaysAreWithin, EachDelayPasses, ReleasesFollowThePlan};
ghost use Rattle.delay_laws.specs.SettlingLaws.{DelaysLeftAreWithin};

/// A timetable has one delayed dating in a live net (chapters 2 and 3).
pub fn delayed_datings_exist()
    ensures exists { DelayedDatingsExist }
    ensures one { DelayedDatingsAreOne }
{}

/// Where the plan leaves time for each place, no departure comes before its plan, nor after it by
/// more than the greatest delay (chapters 2 and 3).
pub fn delays_are_within()
    ensures dating { DelaysAreWithin }
    ensures left { DelaysLeftAreWithin }
{}

/// Past the delays that are given, which end, the releases are the plan (chapters 2 and 3).
pub fn releases_follow_the_plan()
    ensures plan { ReleasesFollowThePlan }
    ensures passes { EachDelayPasses }
{}
