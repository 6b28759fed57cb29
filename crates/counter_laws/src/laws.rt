//! The laws of counters. Each is a function that does nothing when it runs: its contract is the
//! law.
ghost use Rattle.counter_laws.specs.CountedRuns.{CountersCountFirings};
ghost use Rattle.counter_laws.specs.CounterEquations.{CountersAreGreatest, CountersAreLeastOfTokens, CountersAreOne, CountersExist};

/// The min-plus equations: of a net that is live or not, under any releases, the count of firings up
/// to a date is the least of the tokens that each place into the transition has had up to then, its
/// initial ones and the firings before it up to a hold earlier, of those before the first initial
/// token that is not ready by then, and of the releases of an input; and no counts within that least
/// are greater (chapter 5). The equations alone do not tell the counters of a net that is not live:
/// around a circuit without tokens and without hold each count solves them, and those of the least
/// dating are the greatest, without end from 0 on.
pub fn counters_solve_min_plus_equations()
    ensures equations { CountersAreLeastOfTokens }
    ensures greatest { CountersAreGreatest }
{}

/// Counters of a feasible dating exist where each transition has a firing after each date, and a
/// dating has but one counter of each transition (chapter 5). Where a transition has no firing
/// after some date, its count has no end from there on, as that of a transition without a place
/// before it from 0 on.
pub fn counters_exist()
    ensures exist { CountersExist }
    ensures one { CountersAreOne }
{}

/// Counters count the token game: a count of firings up to a date is that of the firings of an
/// earliest run up to the date, where the run goes on so far (chapters 2 and 5). A run up to fewer
/// firings of each transition has no more.
pub fn counters_count_firings()
    ensures { CountersCountFirings }
{}
