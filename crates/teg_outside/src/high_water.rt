//! A monitor of the tokens in a net.
ghost use Rattle.std.specs.Prelude.{◌≡◌, max, List};
ghost use Rattle.teg_outside.specs.declared.monitor.Firing.{Firing};
ghost use Rattle.teg_outside.specs.MonitorLines.{greatest_tokens, high_water_line};

use crate::{Firing, Monitor, OutOfMemory};
use std::alloc::Global;

/// Keeps the greatest number of tokens. Its line is `high water N`, N the greatest `tokens` of the
/// firings seen, 0 for none.
#[derive(Drop)]
pub struct HighWater {
    most: u64,
}

impl HighWater {
    /// No firing seen. No memory is taken.
    pub fn new() -> Self
        ensures { (firings : List Firing) → ⟦<HighWater as Monitor>⟧.line_text result firings
            ≡ high_water_line (greatest_tokens firings) }
    {
        HighWater { most: 0 }
    }
}

impl Monitor for HighWater {
    ghost line_text = { λ m firings. high_water_line (max m.most (greatest_tokens firings)) };

    fn see(&mut self, firing: Firing) {
        self.most = self.most.max(firing.tokens);
    }

    fn line(&self, alloc: Global) -> Result<String, OutOfMemory> {
        let most = self.most;
        Ok(format!(in alloc; "high water {most}")?)
    }
}
