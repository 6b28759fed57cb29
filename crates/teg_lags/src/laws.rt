//! The law of lags, a function that does nothing when it runs: its contract is the law.
ghost use Rattle.teg_lags.specs.Lags.{LaggedTimesAreMoved};

/// Where from one input of a net all places are held so much longer than from another one, and
/// lead on alike but for that, the shortest settled forms of the greatest times of walks from the
/// two have one number and one period; and to each transition that is no input each date of the one
/// is that of the other, so much later, and the step is the same (chapter 5).
pub fn lagged_times_are_moved()
    ensures { LaggedTimesAreMoved }
{}
