//! Which ratios may be asked as targets.
ghost use Rattle.std.specs.Prelude.{◌↔◌, IsTrue};
ghost use Rattle.teg_sizing.specs.ValueRounds.{IsTarget};

use teg_net::Ratio;

// The greatest time of a target.
const GREATEST_TARGET_TIME: u64 = 1_000_000_000_000;

// The most tokens of a target.
const MOST_TARGET_TOKENS: u64 = 1_000_000;

/// Whether a ratio may be asked as a target (`IsTarget`): whether, in lowest terms, its time is at
/// most 10^12, in the user's unit, and its tokens are at most 10^6. It takes no memory.
pub fn is_target(ratio: &Ratio) -> bool
    ensures { IsTrue result ↔ IsTarget ratio.now }
{
    ratio.time() <= GREATEST_TARGET_TIME && ratio.tokens() <= MOST_TARGET_TOKENS
}
