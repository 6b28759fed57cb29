//! The laws of the least datings of systems, with any dates of initial tokens and any releases;
//! those of nets are instances. Each is a function that does nothing when it runs: its contract is
//! the law.
ghost use Rattle.teg_model.specs.SystemLaws.{LeastInAreOne, LeastInAreTight, LeastInAreWalks, LeastInAreWithin, SystemsHaveLeast, SystemsHaveStarts, TightInAreLeast};

/// A system has a least dating where ranks rise along its places without tokens, and never two
/// (chapter 2).
pub fn systems_have_least()
    ensures exists { SystemsHaveLeast }
    ensures one { LeastInAreOne }
{}

/// In such a system a feasible dating is the least just where no firing comes later than the last
/// of its release and of the tokens that it takes (chapter 2).
pub fn least_in_are_tight()
    ensures tight { LeastInAreTight }
    ensures least { TightInAreLeast }
{}

/// Where ranks rise along the places of a net without tokens, each least date of a system of the
/// net is the greatest start plus time of the walks that end at its firing; the start of a firing
/// is the greatest of its release and of the dates of the initial tokens that it takes (chapter 2).
pub fn least_in_are_walks()
    ensures starts { SystemsHaveStarts }
    ensures walks { LeastInAreWalks }
{}

/// Where ranks rise along the places of a system without tokens, its least dates stay within what
/// holds, ranks, initial dates and releases are bounded by (chapter 2).
pub fn least_in_are_within()
    ensures { LeastInAreWithin }
{}
