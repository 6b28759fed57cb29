//! The law of one place. It is a function that does nothing when it runs: its contract is the law.
ghost use Rattle.token_shares.specs.OnePlace.{SharesOfOneAreEnoughAlone, SharesOfOneAreItsSize};

/// Over one place `fewest_tokens` and `size` of `teg_sizing` tell the same (chapters 2 and 3): a
/// number is enough of the place by the one definition exactly where it is by the other; both
/// tell the same number, or both that no number is enough; and where the first tells that it takes
/// more than the budget, the number that the second tells is above it, or finds no room in the place.
pub fn shares_of_one_are_its_size()
    ensures enough { SharesOfOneAreEnoughAlone }
    ensures told { SharesOfOneAreItsSize }
{}
