//! Numbers within bounds, as types.
ghost use Rattle.std.specs.Prelude.{◌≡◌, ◌≤◌};

use crate::limits::GREATEST_FIRING_NUMBER;
use std::marker::Model;

/// A number from 1 to `MOST`. Contracts see the number.
#[derive(Debug, Drop)]
pub struct UpTo<const MOST: u64> {
    number: u64,
}

impl<const MOST: u64> Model for UpTo<MOST> {
    ghost use Rattle.std.specs.Prelude.{ℕ, ◌≤◌};

    ghost Value = { ℕ };

    ghost view = { λ n. n.number };

    ghost invariant = { λ n. (1 ≤ n.number) × (n.number ≤ MOST) };
}

impl<const MOST: u64> UpTo<MOST> {
    /// This number. It takes no memory.
    pub fn new(number: u64) -> UpTo<MOST>
        requires first { 1 ≤ number }
        requires last { number ≤ MOST }
        ensures { result ≡ number }
    {
        UpTo { number }
    }

    /// The number. It takes no memory.
    pub fn get(&self) -> u64
        ensures value { result ≡ self.now }
        ensures first { 1 ≤ result }
        ensures last { result ≤ MOST }
    {
        self.number
    }
}

/// The number of a firing, from 1 to 10^18.
pub type FiringNumber = UpTo<GREATEST_FIRING_NUMBER>;
