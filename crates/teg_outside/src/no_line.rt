//! A monitor without a line.
ghost use Rattle.std.specs.Prelude.{◌≡◌, List, [], false, is_ok, IfOk, string_bytes};
ghost use Rattle.teg_outside.specs.declared.monitor.Firing.{Firing};
ghost use Rattle.teg_outside.specs.Monitors.{IsOneLine};

use crate::{Firing, Monitor, OutOfMemory};
use std::alloc::Global;

/// A monitor that never finds memory for its line: what a replay does then can be seen by it.
#[derive(Drop)]
pub struct NoLine {
    seal: (),
}

impl NoLine {
    /// The monitor. No memory is taken.
    pub fn new() -> Self
        ensures { (firings : List Firing) → ⟦<NoLine as Monitor>⟧.line_text result firings ≡ [] }
    {
        NoLine { seal: () }
    }
}

impl Monitor for NoLine {
    ghost line_text = { λ _ _. [] };

    fn see(&mut self, _firing: Firing) {}

    /// Always OutOfMemory.
    fn line(&self, _alloc: Global) -> Result<String, OutOfMemory>
        ensures text { IfOk result (λ line. string_bytes line ≡ []) }
        ensures one_line { IfOk result (λ line. IsOneLine (string_bytes line)) }
        ensures never { is_ok result ≡ false }
    {
        Err(OutOfMemory)
    }
}
