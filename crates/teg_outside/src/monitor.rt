//! Who sees the firings of a replay.
ghost use Rattle.std.specs.Prelude.{◌≡◌, ℕ, List, [], ◌∷◌, string_bytes, IfOk};
ghost use Rattle.teg_outside.specs.declared.monitor.Firing.{Firing};
ghost use Rattle.teg_outside.specs.Monitors.{IsOneLine};

use std::alloc::{AllocError, AllocFailed, Global};
use std::error::Error;
use std::fmt;

/// One firing of the token game, as monitors see it.
#[derive(Clone, Copy, Debug, PartialEq, Eq)]
pub struct Firing {
    /// The transition, counted from 0 in the order of the net file.
    pub transition: u32,
    /// Which firing of this transition it is, counted from 1.
    pub number: u64,
    /// When it fired, in the user's unit of time.
    pub date: u64,
    /// The earliest date at which it could have fired, in the user's unit of time.
    pub earliest: u64,
    /// The tokens in all places of the net after it.
    pub tokens: u64,
}

/// No memory was found for a line. Its line says so in words.
#[derive(Clone, Copy, Debug, PartialEq, Eq)]
pub struct OutOfMemory;

impl fmt::Display for OutOfMemory {
    fn fmt<W: fmt::Write>(&self, f: &mut fmt::Formatter<W>) -> fmt::Result {
        f.write_str("out of memory")
    }
}

impl Error for OutOfMemory {}

impl<T: Drop> From<AllocFailed<T>> for OutOfMemory {
    fn from(_: AllocFailed<T>) -> Self {
        OutOfMemory
    }
}

impl From<AllocError> for OutOfMemory {
    fn from(_: AllocError) -> Self {
        OutOfMemory
    }
}

/// Who sees the accepted firings of a replay, in order, and prints one line of them. Dates are in
/// the user's unit of time.
pub trait Monitor: Drop {
    /// The text that it would print after seeing these further firings.
    ghost line_text: { Self → List Firing → List ℕ };

    /// Sees one more firing: what it would print after further ones is what it would have printed
    /// before after this one and those. It cannot fail, and takes no memory.
    fn see(&mut self, firing: Firing)
        ensures { (more : List Firing) → line_text self.new more
            ≡ line_text self.old (firing ∷ more) };

    /// The text that it prints now, which has no line feed. OutOfMemory is free.
    fn line(&self, alloc: Global) -> Result<String, OutOfMemory>
        ensures text { IfOk result (λ line. string_bytes line ≡ line_text self.now []) }
        ensures one_line { IfOk result (λ line. IsOneLine (string_bytes line)) };
}
