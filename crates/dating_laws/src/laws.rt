//! The laws of datings beside each other. Each is a function that does nothing when it runs: its
//! contract is the law.
ghost use Rattle.dating_laws.specs.OrderOfDatings.{FeasibleDatingsJoin, FeasibleDatingsMeet, LaterReleasesLaterDates, LeastDatingsJoin, NoShiftGrows};
ghost use Rattle.dating_laws.specs.SlowerNets.{SlowerNetsAreLater};

/// Later releases lead to later dates: where each input is released no later under u than under v,
/// no least date under u comes after that under v (chapter 2). Releases of inputs alone are
/// compared, and from firing 1 on, since nothing else is released.
pub fn later_releases_lead_to_later_dates()
    ensures { LaterReleasesLaterDates }
{}

/// Releases superpose: the least dating under the later of two releases is the later of the least
/// datings under each (chapter 2). The later is taken date by date; the law needs no liveness, as
/// it says where both are there what the third is. Releases that all come so much later do not move
/// each date by as much, since what waits for no input stays: [`no_shift_grows`] says what holds.
pub fn releases_are_superposed()
    ensures { LeastDatingsJoin }
{}

/// Feasible datings meet and join: the earlier of two datings that are feasible under the same
/// releases is feasible under them, which is why one of them can be the least, and the later of two
/// is feasible under the later of their releases (chapter 2).
pub fn feasible_datings_meet()
    ensures meet { FeasibleDatingsMeet }
    ensures join { FeasibleDatingsJoin }
{}

/// No shift grows: releases that come at most so much later lead to dates that come at most so much
/// later (chapter 2). A net so never widens a delay; it may swallow one, where a firing waits for
/// another token anyway.
pub fn no_shift_grows()
    ensures { NoShiftGrows }
{}

/// Dates rise with the net: where a net has for each place of another a slower one, between the
/// same transitions, with no shorter holding time, no more tokens and none that is ready earlier,
/// none of its least dates is earlier, also under later releases (chapter 2); it may have further
/// places. A token that the quicker net has beyond those of the slower one has to be ready at 0:
/// one more token, ready at 5, before a transition that had one token, ready at 0, on a place of
/// hold 1 that comes from an input released at 0, puts off its second firing from 1 to 5. So no
/// place of the slower net may have more ready dates than tokens, as none of a net file has. Changes
/// of one place that make a net slower are told by `change_laws`.
pub fn dates_rise_with_the_net()
    ensures { SlowerNetsAreLater }
{}
