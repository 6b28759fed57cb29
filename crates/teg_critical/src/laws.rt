//! The laws of slack. Each is a function that does nothing when it runs: its contract is the law.
ghost use Rattle.teg_critical.specs.SlackAndPaths.{GapsTellSlacks, SlacksAreOne, SlacksAreOfTheNet};
ghost use Rattle.teg_critical.specs.ShownSlacks.{WitnessesTellSlacks};

/// A place is critical exactly where the best path back from its end to its start lacks nothing,
/// with the place, to the greatest ratio; otherwise what it lacks, over the ratio's tokens and
/// rounded down, is its slack (chapters 2 and 3).
pub fn gaps_tell_slacks()
    ensures { GapsTellSlacks }
{}

/// A place has no two slacks by one ratio (chapters 2 and 3).
pub fn slacks_are_one()
    ensures { SlacksAreOne }
{}

/// The slack of a place does not depend on how the greatest ratio is written (chapters 2 and 3).
pub fn slacks_are_of_the_net()
    ensures { SlacksAreOfTheNet }
{}

/// What the checkers of `teg_certificates` show of a place, by an answer on cycle times that
/// `check_cycle` accepts, is its slack: that no circuit passes it, that it is critical, or the
/// greatest rise of its hold (chapters 2 and 3).
pub fn witnesses_tell_slacks()
    ensures { WitnessesTellSlacks }
{}
