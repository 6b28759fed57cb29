//! The laws of the least datings of nets. Each is a function that does nothing when it runs: its
//! contract is the law.
ghost use Rattle.teg_model.specs.LeastDatings.{LeastDatesAreFromZero, LeastDatesAreWalks, LeastDatesAreWithin, LeastDatingsAreOne, LeastDatingsAreTight, LeastDatingsExist, LeastOfSystemsAreLeast, LiveNetsAreRanked, TightDatingsAreLeast};

/// A live net has ranks: numbers of its transitions that rise along each place without tokens
/// (chapter 2).
pub fn live_nets_are_ranked()
    ensures { LiveNetsAreRanked }
{}

/// A live net has a least dating under any releases of its inputs, and that is the least dating of
/// its system too (chapter 2).
pub fn least_datings_exist()
    ensures { LeastDatingsExist }
{}

/// A net has no two least datings under the same releases, and the least dating of its system is
/// one of the net (chapter 2).
pub fn least_datings_are_one()
    ensures one { LeastDatingsAreOne }
    ensures of_system { LeastOfSystemsAreLeast }
{}

/// In a live net a feasible dating is the least just where no firing comes later than the last of
/// the tokens and the release that it waits for (chapter 2).
pub fn least_datings_are_tight()
    ensures tight { LeastDatingsAreTight }
    ensures least { TightDatingsAreLeast }
{}

/// In a live net each least date is the greatest start plus time of the walks that end at its
/// firing, under any releases (chapter 2).
pub fn least_dates_are_walks()
    ensures { LeastDatesAreWalks }
{}

/// Each least date is a number from 0 on, or `Never`; and in a live net that keeps all rules of a
/// net those that are numbers are at most 2 times 10^30, up to the greatest firing number (chapter
/// 2).
pub fn least_dates_are_within()
    ensures first { LeastDatesAreFromZero }
    ensures last { LeastDatesAreWithin }
{}
