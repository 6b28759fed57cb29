//! The numbers that commands take, each a type with its bounds.
ghost use Rattle.std.specs.Prelude.{◌≡◌, ◌≤◌};
ghost use Rattle.teg_net.specs.Limits.{greatest_target_time, most_target_tokens};

use std::marker::Model;
use teg_net::UpTo;

// The most firing numbers that a list has.
const MOST_NUMBERS: u64 = 10_000;

// The greatest limit of a settled form.
const GREATEST_LIMIT: u64 = 200_000;

// The greatest period of a timetable.
const GREATEST_PERIOD: u64 = 1_000_000;

// The most machines that a line has.
const MOST_MACHINES: u64 = 400;

/// How many firing numbers a list has, from 1 to 10,000.
pub type Count = UpTo<MOST_NUMBERS>;

/// The greatest length that a settled form may have, from 1 to 200,000.
pub type Limit = UpTo<GREATEST_LIMIT>;

/// The period of a timetable, in the user's unit, from 1 to 10^6.
pub type Period = UpTo<GREATEST_PERIOD>;

/// How many machines a line has, from 1 to 400.
pub type Machines = UpTo<MOST_MACHINES>;

/// The greatest time of a target ratio, in the user's unit.
pub const GREATEST_TARGET_TIME: u64 = 1_000_000_000_000;

/// The most tokens of a target ratio.
pub const MOST_TARGET_TOKENS: u64 = 1_000_000;

/// A ratio that is aimed at: a time in the user's unit, at most 10^12, to tokens, from 1 to 10^6.
/// No call takes memory. Contracts see both.
#[derive(Debug, Drop)]
pub struct Target {
    time: u64,
    tokens: u64,
}

impl Model for Target {
    ghost use Rattle.std.specs.Prelude.{ℕ, ◌≤◌};
    ghost use Rattle.teg_net.specs.Limits.{greatest_target_time, most_target_tokens};

    ghost Value = { ℕ × ℕ };

    ghost view = { λ r. (r.time, r.tokens) };

    ghost invariant = { λ r. (r.time ≤ greatest_target_time) × (1 ≤ r.tokens)
        × (r.tokens ≤ most_target_tokens) };
}

impl Target {
    /// This time to these tokens.
    pub fn new(time: u64, tokens: u64) -> Target
        requires time { time ≤ greatest_target_time }
        requires some { 1 ≤ tokens }
        requires few { tokens ≤ most_target_tokens }
        ensures { result ≡ (time, tokens) }
    {
        Target { time, tokens }
    }

    /// The time.
    pub fn time(&self) -> u64
        ensures value { result ≡ self.now.0 }
        ensures few { result ≤ greatest_target_time }
    {
        self.time
    }

    /// The tokens.
    pub fn tokens(&self) -> u64
        ensures value { result ≡ self.now.1 }
        ensures some { 1 ≤ result }
        ensures few { result ≤ most_target_tokens }
    {
        self.tokens
    }
}
