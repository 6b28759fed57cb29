//! What a change of one number of a net leaves as it was, as laws.
ghost use Rattle.teg_net.specs.Changes.{HoldsKeepCircuits, HoldsKeepLiveNets, HoldsKeepPlaces};

/// A change of a holding time leaves each place where it is, with its tokens (chapter 2). It does
/// nothing when it runs.
pub fn holds_keep_places()
    ensures { HoldsKeepPlaces }
{}

/// A change of a holding time leaves the circuits, and the tokens of each (chapter 2). It does
/// nothing when it runs.
pub fn holds_keep_circuits()
    ensures { HoldsKeepCircuits }
{}

/// A change of a holding time keeps a live net live (chapter 2). It does nothing when it runs.
pub fn holds_keep_live_nets()
    ensures { HoldsKeepLiveNets }
{}
