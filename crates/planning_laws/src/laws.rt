//! The laws of planning. Each is a function that does nothing when it runs: its contract is the law.
ghost use Rattle.planning_laws.specs.Clocks.{ClocksTellPeriods, ClocksTellSlack};
ghost use Rattle.planning_laws.specs.GivenInputs.{GivenInputsMeetInTime, LatestGoOnFromGiven};
ghost use Rattle.planning_laws.specs.GreatestTimes.{GreatestTimesArePlacesBack, GreatestTimesFromTheRatio, NoTokenWaits, PeriodsBetweenKeepAll, PeriodsWithGreatestTimes, PlacesBackExist, TimesAreKeptByPlacesBack, WorkableFirstsAreFeasible};
ghost use Rattle.planning_laws.specs.LongerJobs.{JobsMayTakeLonger};
ghost use Rattle.planning_laws.specs.MovedReleases.{ReleasesMoveDates, ReleasesMoveNumbers};
ghost use Rattle.planning_laws.specs.Stability.{StockIsWhatWaits, WaitsAreBoundedByEqualSlopes};
ghost use Rattle.planning_laws.specs.VaryingHolds.{DatesLieBetween, DatingsWithHoldsAreOne, DatingsWithHoldsExist, LeastDatingsHaveHolds, TightDatingsAreEarly, VaryingHoldsLieBetween};

use growth_laws::dates_grow_by_slopes;
use workable_laws::periods_from_the_ratio_are_workable;

/// A greatest time is a place back: a timetable of a period A, in which firing k of each transition
/// comes at its first date plus A (k - 1), keeps "firing k + m of `to` comes at most G after firing
/// k of `from`" just where it leaves a place from `to` to `from` its time that holds for A (m + j) -
/// G and has j tokens, ready at 0; any j with A (m + j) from G on will do. So there is a timetable
/// of period A that leaves each place of a net its time and keeps all greatest times of a list just
/// where each circuit of the net with these places takes at most A for each of its tokens; and where
/// that net is live, just where its greatest ratio is at most A (chapters 2 and 3).
///
/// A timetable leaves each place its time just where its dates are feasible. Where the greatest
/// time is the holding time itself, no token waits. All times are in the unit of the net.
///
/// A part lies in a bath for at least 60 and at most 70; the hoist is back after at least 20, and
/// the bath is to be loaded again within 95. That is a net with a place from load to unload, 60 and
/// no token, and one from unload to load, 20 and a token; and, at the period A, back from unload to
/// load A - 70 and a token, and from load to unload 2 A - 95 and a token. Its circuits have 80 and A
/// - 10 with one token, 2 A - 75 and 3 A - 165 with two: the periods from 80 to 165 can be kept. The
/// holding times of the places back are those of one period: at another they are others. Dates of a
/// timetable are meant: the least dates of a net may break a greatest time that a timetable of the
/// same pace keeps.
pub fn greatest_times_are_places_back()
    ensures dates { WorkableFirstsAreFeasible }
    ensures one { GreatestTimesArePlacesBack }
    ensures exist { PlacesBackExist }
    ensures exact { NoTokenWaits }
    ensures all { TimesAreKeptByPlacesBack }
    ensures periods { PeriodsWithGreatestTimes }
    ensures ratios { GreatestTimesFromTheRatio }
{
    periods_from_the_ratio_are_workable();
}

/// The periods at which a net can keep greatest times have no gap: of two of them, each period
/// between is one (chapters 2 and 3).
///
/// Without greatest times each longer period is one too; with them there may be a longest, as 165
/// for the bath of [`greatest_times_are_places_back`]. The number of firings over which a greatest
/// time goes belongs to it: another order of the jobs is another net, with periods of its own.
pub fn periods_between_keep_greatest_times()
    ensures { PeriodsBetweenKeepAll }
{}

/// A job may take longer: where places that begin at one transition hold longer, the greatest ratio
/// stays as it is just where each of them is longer by at most its own slack, since a circuit leaves
/// a transition once. So a job whose time stands in several places may take longer by the least of
/// their slacks, and by no more (chapters 2 and 3).
///
/// A ring of 12 with a token sets the pace; a job holds its machine for 3, of which the ring has 7
/// more, and its part for 3, of which the ring has 5 more, each ring with a token: slacks 2 and 4,
/// so the job may take 2 longer. Places that begin at two transitions have no such sum: two jobs of
/// 4 and 5 on one machine have the slack 3 each in that net, and both longer by 3 are a ring of 15.
pub fn jobs_may_take_longer()
    ensures { JobsMayTakeLonger }
{}

/// A clock tells a period: beside a net put a transition with a place to itself that holds its one
/// token for A. The greatest ratio of both together is A just where A leaves each circuit of the net
/// its time; and a holding time of the net may rise by d beside the clock, so that this ratio stays,
/// just where A leaves each circuit its time after the rise. So the slack that is told beside the
/// clock is the slack at a pace of one's own, a takt or the period of a timetable (chapters 2 and 3).
///
/// A ring of 6 with one token has no slack at its own pace; beside a clock of 8 each of its places
/// may take 2 longer. No place joins the clock and the net; one that did could make a longer ring.
pub fn clocks_tell_periods()
    ensures periods { ClocksTellPeriods }
    ensures slack { ClocksTellSlack }
{}

/// Stability: in a live net the slope of a place's end is at least that of its start. Where they
/// are equal, no token waits there for more than some number past its hold, for ever; where not,
/// the waits pass each number. Where the slope of the start is above 0, the tokens that wait at once
/// are bounded just where the waits are: each is taken before, or when, the one so many firings
/// later is there, which says just that no two that wait at one date are so far apart in number
/// (chapters 2 and 6). No input with an ended list is to lead to the end of the place, as past that
/// list its dates are `Never`.
///
/// A saw gives a part every 5 and a drill takes 4 or 5 for each: none waits. If it takes 7, the
/// slopes are 5 and 7, and each part waits 2 longer than the one before. At slope 0 the waits tell
/// nothing of the stock: behind a transition that waits for nothing all parts are there at 0, and if
/// the next one begins at 5 each waits for 5 at most, but all wait at once.
pub fn waits_are_bounded_by_equal_slopes()
    ensures slopes { WaitsAreBoundedByEqualSlopes }
    ensures stock { StockIsWhatWaits }
{
    dates_grow_by_slopes();
}

/// Holding times that vary: where each firing comes at the last of what it waits for, its tokens
/// held for times that change from firing to firing between those of two nets, and its release
/// between two as well, each date is between the least dates of the two nets, under the earlier
/// releases and the later ones (chapter 2). So two tables tell what happens however the times turn
/// out, and a job that is done sooner delays none. A live net has just one such dating, whatever the
/// times and the releases.
///
/// Of the dates it is enough that they are feasible in the net of the least times, and that no
/// firing comes later than the last of what it waits for in the live net of the greatest. In a net
/// that is not live, dates that wait for each other can be as late as one likes.
///
/// From a to b a part takes 3 to 5, and back, where the one token is, 2 to 4. At the least times a
/// fires at 0, 5, 10, 15, at the greatest at 0, 9, 18, 27; if b is reached after 4, 5 and 3, and a
/// after 3, 2 and 4, at 0, 7, 14, 21.
pub fn varying_holds_lie_between()
    ensures exist { DatingsWithHoldsExist }
    ensures one { DatingsWithHoldsAreOne }
    ensures early { TightDatingsAreEarly }
    ensures between { DatesLieBetween }
    ensures holds { VaryingHoldsLieBetween }
    ensures own { LeastDatingsHaveHolds }
{}

/// Where each release of a live net comes later by c, no date is earlier and none later by more
/// than c; and each date that is not there without releases, so that a release keeps it back, is
/// later by just c (chapters 2 and 5). Where each release is that of n numbers before, and the first
/// n numbers wait for none, date k + n is what date k was, or the date that is there without
/// releases, the later of both.
///
/// A firing comes 3 after the release, and waits for a token that is ready at 5: releases at 0 and
/// 20 lead to 5 and 23, and 4 later to 7 and 27. So the first is later by 2 alone, since the token
/// kept it back.
pub fn releases_move_dates()
    ensures dates { ReleasesMoveDates }
    ensures numbers { ReleasesMoveNumbers }
{}

/// Planning again where the first inputs are given: in a live net where inputs at 0 meet the due
/// dates, some inputs that begin with given dates, up to a number for each input, meet them just
/// where no given date comes after the latest date of its firing (`meet`); and then the latest that
/// do go on by the latest dates of the whole, as if nothing were given (`latest`) (chapter 5). So
/// what came in early does not move what may still come late, and a table of latest dates that was
/// made once tells all day whether there is time yet. A part due at 10 that takes 5 has the latest
/// input 5: given at 7, no later ones help.
pub fn given_inputs_meet_in_time()
    ensures meet { GivenInputsMeetInTime }
    ensures latest { LatestGoOnFromGiven }
{}
