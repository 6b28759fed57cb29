//! The laws of still nets. Each is a function that does nothing when it runs: its contract is the
//! law.
ghost use Rattle.still_laws.specs.StillNets.{OthersAreStrong, StillByRatio, StillNetsSettleAtOnce};

/// The greatest ratio of a live net is 0 just where no circuit takes time; and then the settled
/// form of a strongly connected net without inputs, live or not, whose tokens are all ready at 0,
/// begins after 0 and has period 1 (chapter 3). Each premise counts: over two transitions, each on
/// a circuit of one token and no hold, a place of hold 3 and one token leads to dates 0 and then 3
/// on; and one circuit of two tokens, of which the second is ready at 5, has the dates 0 and then 5
/// on. In a net that is not live a circuit without time and tokens has each ratio.
pub fn still_nets_settle_at_once()
    ensures ratio { StillByRatio }
    ensures settled { StillNetsSettleAtOnce }
{}

/// A strongly connected live net without inputs, whose tokens are all ready at 0, keeps the
/// settling bound where its greatest ratio is above 0: it is strong at this ratio, with the
/// greatest hold and number of tokens that a net file may have (chapter 3).
pub fn other_nets_are_strong()
    ensures { OthersAreStrong }
{}
