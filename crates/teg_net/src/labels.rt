//! Texts that refusals carry.
ghost use Rattle.std.specs.Prelude.{◌≡◌, IfOk};

use crate::memory::OutOfMemory;
use std::alloc::Global;
use std::marker::Model;

/// Any text. Contracts see its bytes.
#[derive(Debug, Drop)]
pub struct Label {
    text: String,
}

impl Model for Label {
    ghost use Rattle.std.specs.Prelude.{List, ℕ, string_bytes};

    ghost Value = { List ℕ };

    ghost view = { λ l. string_bytes l.text };
}

impl Label {
    /// A copy of the text. `OutOfMemory` comes only where no memory is found.
    pub fn new(alloc: Global, text: &str) -> Result<Label, OutOfMemory>
        ensures { IfOk result (λ label. label ≡ text.now) }
    {
        let text = String::from_str(alloc, text)?;
        Ok(Label { text })
    }

    /// The text. It takes no memory.
    pub fn as_str(&self) -> &str
        ensures { result.now ≡ self.now }
    {
        self.text.as_str()
    }
}
