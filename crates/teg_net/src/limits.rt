//! The limits that code of several crates compares with.

/// The greatest holding time of a place, in the user's unit.
pub const GREATEST_HOLD: u64 = 1_000_000_000;

/// The greatest input date, gap by which a list goes on, and ready date of a token, in the user's
/// unit.
pub const GREATEST_INPUT_DATE: u64 = 1_000_000_000_000;

/// The greatest firing number that is asked or walked to.
pub const GREATEST_FIRING_NUMBER: u64 = 1_000_000_000_000_000_000;

// The most transitions of a net.
pub(crate) const MOST_TRANSITIONS: usize = 400;

// The most places of a net.
pub(crate) const MOST_PLACES: usize = 4_000;

// The most initial tokens of a place.
pub(crate) const MOST_PLACE_TOKENS: u32 = 1_000;

// The most dates of an input list.
pub(crate) const MOST_INPUT_DATES: usize = 100_000;

// The most firings after which an input list repeats.
pub(crate) const GREATEST_EVERY: usize = 1_000;
