//! A monitor of how late firings come.
ghost use Rattle.std.specs.Prelude.{◌≡◌, max, List};
ghost use Rattle.teg_outside.specs.declared.monitor.Firing.{Firing};
ghost use Rattle.teg_outside.specs.MonitorLines.{greatest_lateness, lateness_line};

use crate::{Firing, Monitor, OutOfMemory};
use std::alloc::Global;

/// Keeps how late a firing came at most. Its line is `greatest lateness N`, N the greatest
/// `date - earliest` of the firings seen, in the user's unit of time; 0 where the date is less, and
/// for none.
#[derive(Drop)]
pub struct Lateness {
    most: u64,
}

impl Lateness {
    /// No firing seen. No memory is taken.
    pub fn new() -> Self
        ensures { (firings : List Firing) → ⟦<Lateness as Monitor>⟧.line_text result firings
            ≡ lateness_line (greatest_lateness firings) }
    {
        Lateness { most: 0 }
    }
}

impl Monitor for Lateness {
    ghost line_text = { λ m firings. lateness_line (max m.most (greatest_lateness firings)) };

    fn see(&mut self, firing: Firing) {
        let late = firing.date.saturating_sub(firing.earliest);
        self.most = self.most.max(late);
    }

    fn line(&self, alloc: Global) -> Result<String, OutOfMemory> {
        let most = self.most;
        Ok(format!(in alloc; "greatest lateness {most}")?)
    }
}
