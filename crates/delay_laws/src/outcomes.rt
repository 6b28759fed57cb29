//! The laws of what becomes of delays. Each is a function that does nothing when it runs: its
//! contract is the law.
ghost use Rattle.delay_laws.specs.OutcomeLaws.{CircuitsKeepDelays, DelaysDieOut, DelaysDieOutOrAreKept, GreatestDelaysArePassedOn, NoDelaysDieOutAndAreKept};

/// In a live net whose plan leaves time for each place, and past a number from which the delays
/// come again in each period: where the greatest delay of the period past it is above 0, it comes
/// to each transition that has it over a place without spare time, from a transition that has it
/// too (chapters 2 and 3).
pub fn greatest_delays_are_passed_on()
    ensures { GreatestDelaysArePassedOn }
{}

/// Past a number from which the delays come again in each period: where no delay is left in the
/// period past it, none is left later, and the last number with a delay, 0 where there is none, is
/// the least past which none is left (chapters 2 and 3).
pub fn delays_die_out()
    ensures { DelaysDieOut }
{}

/// Past a number from which the delays come again in each period: a circuit of places without spare
/// time, each of which leaves a transition with the same delay above 0 in the period past it, takes
/// just the time of the plan, and its transitions are late at numbers past every bound (chapters 2
/// and 3).
pub fn circuits_keep_delays()
    ensures { CircuitsKeepDelays }
{}

/// In a live net whose plan leaves time for each place, the delays die out, or a circuit without
/// spare time keeps them, and never both (chapters 2 and 3).
pub fn delays_die_out_or_are_kept()
    ensures either { DelaysDieOutOrAreKept }
    ensures not_both { NoDelaysDieOutAndAreKept }
{}
