//! The laws of latest dates and of the inputs that meet due dates. Each is a function that does
//! nothing when it runs: its contract is the law.
ghost use Rattle.latest_laws.specs.BackwardEquations.{LatestDatesAreGreatestInTime, LatestDatesAreLastInTime, LatestDatesAreLeastAhead};
ghost use Rattle.latest_laws.specs.BackwardSolutions.{LatestDatesAreOne, LatestDatesExist, SolutionsAreLatestDates};
ghost use Rattle.latest_laws.specs.Floats.{InputsMeetByFloats, LatestDatesAreFeasible, LatestDatesAreGreatest};
ghost use Rattle.latest_laws.specs.MetByStarts.{ZeroInputsMeetByAllStarts, ZeroInputsMeetByStarts};
ghost use Rattle.latest_laws.specs.ShownByWalks.{LateWalksBound, LateWalksRefuse, TightWalksBound};

/// A tight walk bounds: no feasible dating that keeps the due dates comes to the first firing of a
/// tight walk after the date of the walk, whatever the inputs are (chapter 5). So one walk shows
/// that a latest date is not too early, with no liveness asked.
pub fn tight_walks_bound()
    ensures { TightWalksBound }
{}

/// A late walk refuses: in any feasible dating, whatever the inputs are, the firing at which it ends
/// comes no earlier than its date; so where the firing is due before that, no inputs meet the due
/// dates (chapter 5). No liveness is asked.
pub fn late_walks_refuse()
    ensures bound { LateWalksBound }
    ensures refuse { LateWalksRefuse }
{}

/// Where inputs meet the due dates, the latest dates are a feasible dating under them that keeps
/// the due dates, and no feasible dating that keeps them has a date after the latest (chapter 5).
/// Where no inputs meet them, the latest dates may be below 0 and so feasible under none: one
/// transition due at 0 at the end of a place of hold 1 from an input has the input's latest date at
/// 1 below 0.
pub fn latest_dates_are_feasible()
    ensures feasible { LatestDatesAreFeasible }
    ensures greatest { LatestDatesAreGreatest }
{}

/// Floats: inputs meet the due dates just where no float is negative, that is where at each firing
/// the earliest date under them is at most the latest date (chapter 5).
pub fn inputs_meet_by_floats()
    ensures { InputsMeetByFloats }
{}

/// The backward equations: the latest date of a firing is the least of its due date, of the latest
/// date at the next number, and over the places out of its transition of the latest date at their
/// end, so many tokens on, less the hold. No date in time for those comes after it; and the latest
/// dates are the greatest of which each is in time for those ahead (chapter 5).
pub fn latest_dates_solve_backwards()
    ensures equations { LatestDatesAreLeastAhead }
    ensures last { LatestDatesAreLastInTime }
    ensures greatest { LatestDatesAreGreatestInTime }
{}

/// A live net whose firings are due up to some number has latest dates, and no others: they are all
/// that solves the backward equations and is never past that number (chapter 5). Due dates without
/// an end may have none: a transition on a circuit of hold 1 and one token, due at 0 at each
/// number, would have to come ever earlier. And the equations alone do not tell them: where nothing
/// is due, all dates at 0 solve them in a net without hold, and so do those at 5 around a circuit
/// without tokens and without hold.
pub fn latest_dates_are_solutions()
    ensures exist { LatestDatesExist }
    ensures one { LatestDatesAreOne }
    ensures solutions { SolutionsAreLatestDates }
{}

/// Starts tell whether due dates can be met: in a live net, inputs at 0 meet due dates up to a
/// number just where no latest date up to there is before the start of its firing, which is 0 or
/// the ready date of an initial token that it takes (chapter 5). So a table of latest dates shows
/// by itself whether any inputs meet what is due (`numbered`); of due dates without an end all
/// latest dates do (`endless`). A firing due at 3 that takes a token which is ready at 5 has the
/// latest date 3, before its start: no inputs meet that. Liveness is asked for there to be a least
/// dating.
pub fn zero_inputs_meet_by_starts()
    ensures numbered { ZeroInputsMeetByStarts }
    ensures endless { ZeroInputsMeetByAllStarts }
{}
