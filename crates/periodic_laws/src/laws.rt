//! The laws. Each is a function that does nothing when it runs: its contract is the law. Of a net
//! they ask that its places begin and end at its transitions, and those of its own input lists that
//! their dates never fall and that each ends or goes on by the rule of a list.
ghost use Rattle.dioid_matrix.specs.MatrixStars.{StarsAreLeast};
ghost use Rattle.periodic_laws.specs.Equations.{gains, gain_stars};
ghost use Rattle.periodic_laws.specs.LinearSystem.{LeastDatingsRepeat, LeastDatingsSolve, LeastInArePeriodic, LiveNetsSettle, PeriodicDatingsSettle, SystemsSettle};

use dioid_matrix::star_is_least;
use series_ops::Gain;

// The law of stars, of gains.
fn gain_stars_are_least()
    ensures { StarsAreLeast gains gain_stars }
{
    star_is_least::<Gain>();
}

/// The least dating of a live net is the least solution of a linear system over gains: an entry is
/// the sum of the monomials of the places between two transitions, zero where there is none, and
/// the right side holds the initial tokens with their ready dates and the input lists, which end or
/// go on (chapter 5).
pub fn least_datings_solve()
    ensures { LeastDatingsSolve }
{
    gain_stars_are_least();
}

/// The least dating of every live net has a settled form, and so a shortest one (chapter 3,
/// cyclicity).
pub fn live_nets_settle()
    ensures { LiveNetsSettle }
{
    gain_stars_are_least();
}

/// The lists of a live net tell numbers by which its least dating repeats: so a search for its
/// settled form can say beforehand where it ends at the latest (chapter 3).
pub fn least_datings_repeat()
    ensures { LeastDatingsRepeat }
{
    gain_stars_are_least();
}

/// Dates that never fall and repeat, each transition in a period of its own, have a shortest
/// settled form (chapter 3).
pub fn periodic_datings_settle()
    ensures { PeriodicDatingsSettle }
{}

/// In a live net, with any dates of initial tokens, the least dates never fall and repeat where the
/// releases do: of walks from the first firing of an input, with no initial tokens and releases at
/// 0 there, as of a timetable with a release at every transition. So they have a shortest settled
/// form (chapter 3).
pub fn systems_settle()
    ensures periodic { LeastInArePeriodic }
    ensures settles { SystemsSettle }
{
    gain_stars_are_least();
}
