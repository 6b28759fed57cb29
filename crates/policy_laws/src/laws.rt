//! The law of the number of rounds. It is a function that does nothing when it runs: its contract
//! is the law.
ghost use Rattle.policy_laws.specs.RoundCounts.{RoundsAreFew, RoundsOfOneRatioAreFew};

/// Rounds of one ratio are few: a policy run of a part of a live net has at most as many of them as
/// the part has members `n`; and as its ratio never falls, it has at most `n (n h n m + 1)` rounds in
/// all, where no place holds for more than `h` or has more than `m` tokens (chapter 3).
///
/// A circuit has at most `n h` time and `n m` tokens, so there are no more ratios of circuits than
/// pairs of such numbers, and that of no time. As long as the circuit stays, the potentials of each
/// round are at least what the places offered in the round before, so after as many rounds as there
/// are members no path without a loop has more.
pub fn rounds_are_few()
    ensures of_one_ratio { RoundsOfOneRatioAreFew }
    ensures all { RoundsAreFew }
{}
