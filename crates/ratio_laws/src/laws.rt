//! The laws of one greatest ratio. Each is a function that does nothing when it runs: its contract
//! is the law.
ghost use Rattle.ratio_laws.specs.OneRatio.{GreatestRatiosAreOne, LowestRatiosAreOne};

/// Two greatest ratios over the circuits of the same places are one fraction: 14/2 and 7/1, say
/// (chapters 2 and 3). Of the circuits of a net, or of a part.
pub fn greatest_ratios_are_one()
    ensures { GreatestRatiosAreOne }
{}

/// Two greatest ratios in lowest terms, as answers tell them, have one time and one number of
/// tokens (chapters 2 and 3).
pub fn lowest_ratios_are_one()
    ensures { LowestRatiosAreOne }
{}
