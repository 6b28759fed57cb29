//! The laws of parts that stay. Each is a function that does nothing when it runs: its contract is
//! the law.
ghost use Rattle.part_changes.specs.KeptParts.{HoldsKeepParts, SameEndsKeepParts, TokensKeepParts};

/// The strong parts of a net are those of the net with another place at a number, between the same
/// transitions (chapter 2): another name, holding time, number of tokens or list of ready dates
/// changes no part, nor the order of parts.
pub fn same_ends_keep_parts()
    ensures { SameEndsKeepParts }
{}

/// The strong parts of a net are those of the net with another holding time of a place (chapter 2).
pub fn holds_keep_parts()
    ensures { HoldsKeepParts }
{}

/// The strong parts of a net are those of the net with another number of tokens in a place (chapter
/// 2).
pub fn tokens_keep_parts()
    ensures { TokensKeepParts }
{}
