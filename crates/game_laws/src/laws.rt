//! The laws of the token game. Each is a function that does nothing when it runs: its contract is
//! the law.
ghost use Rattle.game_laws.specs.DatesByTheGame.{LeastDatesAreEarliest, NeverIsInNoRun};
ghost use Rattle.game_laws.specs.EarliestRunsExist.{EachRankHasAnEarliestRun, EarliestRunsAreAlike, EarliestRunsAreFirst, EarliestRunsAreOne, EarliestRunsAreWhole, EarliestRunsExist};
ghost use Rattle.game_laws.specs.FiringOutcomes.{EarliestDatesExist, FiringsAreLegalOrFail};
ghost use Rattle.game_laws.specs.LiveByTheGame.{FiringEachShowsLife, LiveNetsFireOn, TokenFreeCircuitsNeverFire};
ghost use Rattle.game_laws.specs.TokensOnCircuits.{PlacesFillUp, PlacesHoldWithinCircuits, TokensOnCircuitsStay};

/// Each firing of a transition of the net may follow a run, or fails in one of the three ways, so
/// that nothing else keeps one back: a token that is not there, a date that goes back, a release
/// that is later (chapter 2). No firing does two of these, by the laws of failures.
pub fn firings_are_legal_or_fail()
    ensures { FiringsAreLegalOrFail }
{}

/// Where a firing may follow a legal run, there is an earliest date for it, at most its own
/// (chapter 2). Where none may, there need be none: a token that is missing has no date.
pub fn earliest_dates_exist()
    ensures { EarliestDatesExist }
{}

/// The tokens of a circuit stay: their number never changes along a legal run (chapter 2). On a
/// path that is not closed it does: a firing of its last transition takes one away.
pub fn tokens_on_circuits_stay()
    ensures { TokensOnCircuitsStay }
{}

/// A place never holds more tokens along a legal run than a circuit through it has (chapter 2): a
/// buffer in a loop of three cards never holds more than three parts. A place on no circuit may
/// hold any number.
pub fn places_hold_within_circuits()
    ensures { PlacesHoldWithinCircuits }
{}

/// Places fill up: in a live net of which no input list ends some legal run fills a place with the
/// fewest tokens of a circuit through it, and one on no circuit with any number (chapter 2). So with
/// `places_hold_within_circuits` that number is just the room that its buffer needs: where what
/// takes from the place stands still, what fills it goes on until the loop is full. An input whose
/// list ends may leave it empty.
pub fn places_fill_up()
    ensures { PlacesFillUp }
{}

/// No legal run has a firing of a transition on a circuit without tokens; so a net is live if some
/// legal run has a firing of each of its transitions (chapter 2).
pub fn token_free_circuits_never_fire()
    ensures never { TokenFreeCircuitsNeverFire }
    ensures life { FiringEachShowsLife }
{}

/// Liveness by the game: a net in which no input list ends is live just where, for each number,
/// some legal run has so many firings of each transition (chapter 2). Where the list of an input
/// ends after one date, a live net of that input alone has no run of two firings.
pub fn live_nets_fire_on()
    ensures { LiveNetsFireOn }
{}

/// Earliest runs exist: a live net has, up to each number, a run of the firings of its least dating
/// in the order of their dates, and just one in the order of each rank (chapter 2, earliest
/// functioning). Liveness gives the rank that rises along the places without tokens; where it does
/// not rise, a run in its order need not be legal: of two transitions joined by a place without
/// tokens and without hold, both of which fire at 0, the second would fire first.
pub fn earliest_runs_exist()
    ensures exist { EarliestRunsExist }
    ensures each_rank { EachRankHasAnEarliestRun }
    ensures one { EarliestRunsAreOne }
{}

/// An earliest run is whole: it has each firing up to its number that has a date, at that date, and
/// no other; a transition whose date of this number is not `Never` fires just so often in it. So
/// earliest runs of two ranks differ in the order of firings alone (chapter 2).
pub fn earliest_runs_are_whole()
    ensures whole { EarliestRunsAreWhole }
    ensures alike { EarliestRunsAreAlike }
{}

/// In a live net no legal run has a firing before the earliest runs up to its number have it
/// (chapter 2).
pub fn earliest_runs_are_first()
    ensures { EarliestRunsAreFirst }
{}

/// Least dates by the game: in a live net a least date that is a number is the earliest date of its
/// firing in legal runs, and one is `Never` just where no legal run fires the transition so often
/// (chapter 2). Around a circuit without tokens and without hold the least dates are 0, and no run
/// fires.
pub fn legal_runs_reach_least_dates()
    ensures dates { LeastDatesAreEarliest }
    ensures never { NeverIsInNoRun }
{}
