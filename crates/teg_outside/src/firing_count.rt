//! A monitor that counts firings.
ghost use Rattle.std.specs.Prelude.{◌≡◌, ◌+◌, ◌-◌, ◌^◌, min, List, length};
ghost use Rattle.teg_outside.specs.declared.monitor.Firing.{Firing};
ghost use Rattle.teg_outside.specs.MonitorLines.{firings_line};

use crate::{Firing, Monitor, OutOfMemory};
use std::alloc::Global;

/// Counts the firings. Its line is `firings N`, N the number of firings seen, held at the greatest
/// u64.
#[derive(Drop)]
pub struct FiringCount {
    count: u64,
}

impl FiringCount {
    /// No firing seen. No memory is taken.
    pub fn new() -> Self
        ensures { (firings : List Firing) → ⟦<FiringCount as Monitor>⟧.line_text result firings
            ≡ firings_line (min (length firings) (2 ^ 64 - 1)) }
    {
        FiringCount { count: 0 }
    }
}

impl Monitor for FiringCount {
    ghost line_text = { λ m firings. firings_line (min (m.count + length firings) (2 ^ 64 - 1)) };

    fn see(&mut self, _firing: Firing) {
        self.count = self.count.saturating_add(1);
    }

    fn line(&self, alloc: Global) -> Result<String, OutOfMemory> {
        let count = self.count;
        Ok(format!(in alloc; "firings {count}")?)
    }
}
