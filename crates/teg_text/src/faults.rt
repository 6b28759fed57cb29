//! The line of a faulty row of a file.
ghost use Rattle.std.specs.Prelude.{◌≡◌, ◌<◌, ◌^◌, [], IfOk, string_bytes};
ghost use Rattle.teg_text.specs.Faults.{row_line};
ghost use Rattle.teg_text.specs.Lines.{line_then, phrase};

use std::alloc::{AllocError, Global};

/// The line of a faulty row of a file: that it is refused, the file, the number of the row, and
/// what is wrong. `AllocError` comes only where no memory is found.
#[tactic(auto, using(crate::proofs::FaultsWritten::row_written))]
pub fn row_fault(alloc: Global, file: &str, row: u32, fault: &str) -> Result<String, AllocError>
    ensures text { IfOk result (λ text. string_bytes text
        ≡ line_then (row_line file.now row (phrase fault.now)) []) }
    ensures kept { row < 2 ^ 32 }
{
    format!(in alloc; "refused: {file} row {row} {fault}\n")
}
