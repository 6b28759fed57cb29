//! The laws of the settling bound. Each is a function that does nothing when it runs: its contract
//! is the law.
ghost use Rattle.bound_laws.specs.PastTheBound.{DatesGoOnPastTheBound, FactorialsAreCommon, StepsAreWhole, StillNetsStayAtZero};
ghost use Rattle.bound_laws.specs.Periods.{FormsKeepTheBound};

/// Past the bound the least dates of a strongly connected live net without inputs, with all tokens
/// ready at 0 and a greatest ratio above 0, go on by every common multiple of the tokens of
/// critical circuits, one through each critical transition (chapter 3).
pub fn dates_go_on_past_the_bound()
    ensures { DatesGoOnPastTheBound }
{}

/// In such a net as has the bound, strongly connected and live, without inputs, with all tokens
/// ready at 0 and a greatest ratio above 0, a common multiple of the tokens of critical circuits,
/// one through each critical transition, is there, and each such multiple has a whole step (chapter
/// 3).
pub fn common_multiples_exist()
    ensures common { FactorialsAreCommon }
    ensures whole { StepsAreWhole }
{}

/// The dates of a strongly connected live net without inputs, whose circuits take no time and whose
/// tokens are all ready at 0, are all 0 (chapter 3).
pub fn still_nets_stay_at_zero()
    ensures { StillNetsStayAtZero }
{}

/// The shortest settled form of a strongly connected live net without inputs, with all tokens ready
/// at 0 and a greatest ratio above 0, begins within the bound, and its period divides every common
/// multiple of the tokens of critical circuits, one through each critical transition (chapter 3).
pub fn forms_keep_the_bound()
    ensures { FormsKeepTheBound }
{}
