//! The laws of what is left after a run. Each is a function that does nothing when it runs: its
//! contract is the law.
ghost use Rattle.state_laws.specs.StateLaws.{HappenedMayBeReleased, LeastDatingsAreLeastAfter, LeastDatingsGoOn, LegalRunsAreInTime, LegalRunsGoOn, NetsAreContinued, NetsAreContinuedUnder, NetsGoOn, NetsGoOnUnder, NetsStayLive, RestsAreContinued};

/// The least dating of a system goes on: what happened has its dates, and of the firings to come the
/// least dates are those of the least dating of the rest of the system, numbered from 1 on; put
/// behind what happened, that dating is the least after it (chapter 2).
///
/// It asks that no place gave more tokens than it had and got: of a ring of two transitions with one
/// token the second may have fired as often as the first or once less, and not once more. It asks
/// for no ranks, and not that what happened came in time: a firing that came before its tokens were
/// available by the holds leaves a token that is available a hold after it. The least dating itself
/// is the least after any of its firings; and where all happened in time, the least dating in which
/// nothing that happened is released before it did is the least after it.
pub fn least_datings_go_on()
    ensures goes_on { LeastDatingsGoOn }
    ensures continued { RestsAreContinued }
    ensures own { LeastDatingsAreLeastAfter }
    ensures released { HappenedMayBeReleased }
{}

/// A run of a live net leaves a live net, and the least dating of the net from now on is, from there
/// on, the least dating of the net that is left: firing j of it is firing n + j of a transition that
/// fired n times; and the least dating of the net that is left is so continued (chapter 2). Both are
/// also said under any releases of inputs of which those to come are not before now, as inputs that
/// are planned.
///
/// From now on means that the firings of the run have their dates, and no other firing comes before
/// now, nor an input's before its list says. No date of the run is after now, no place gave more
/// tokens than it had and got, and each transition is an input or has a place before it: one that
/// waits for nothing fires at 0 in the net that is left, and at now in the old one. Of a machine
/// that takes 3 and began at 2, asked at 4, the place that lets it begin again is left one token,
/// ready at 5; asked at 8, ready at 8.
pub fn nets_go_on()
    ensures goes_on { NetsGoOn }
    ensures under { NetsGoOnUnder }
    ensures continued_under { NetsAreContinuedUnder }
    ensures continued { NetsAreContinued }
    ensures live { NetsStayLive }
{}

/// In a legal run no place gave more tokens than it had and got, and each firing came in time; so the
/// least dating in which no firing that happened is released before it did, and no other before
/// now, is from there on the least dating of the net that the run leaves (chapter 2). A run that was
/// quicker than the holds is not legal: of it [`nets_go_on`] speaks.
pub fn legal_runs_go_on()
    ensures in_time { LegalRunsAreInTime }
    ensures goes_on { LegalRunsGoOn }
{}
