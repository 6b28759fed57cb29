//! What a due list asks.
ghost use Rattle.std.specs.Prelude.{◌≤◌, All};
ghost use Rattle.teg_due.specs.DueFileRows.{greatest_due_number};
ghost use Rattle.teg_jit.specs.DueDates.{IsGreatestNumber};

use teg_due::DueRow;

// The greatest number that a row names, 0 for no rows.
pub(crate) fn greatest_number(rows: &[DueRow]) -> u32
    requires { All (λ r. r.number ≤ greatest_due_number) rows.now }
    ensures greatest { IsGreatestNumber rows.now result }
    ensures most { result ≤ greatest_due_number }
{
    let mut greatest = 0;
    for row in rows {
        if greatest < row.number {
            greatest = row.number;
        }
    }
    greatest
}
