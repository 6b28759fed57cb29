//! The due dates that a row gives each firing.
ghost use Rattle.std.specs.Prelude.{◌≡◌, ◌≤◌, ◌+◌, ◌*◌};
ghost use Rattle.teg_net.specs.Limits.{greatest_firing_number, greatest_input_date};
ghost use Rattle.endless_due.specs.EndlessRows.{row_due};
ghost use Rattle.teg_forever.specs.LateFirings.{IsGoingRow};

use endless_due::EndlessRow;

// The due date of a firing.
pub(crate) fn due_at(row: &EndlessRow, number: u64) -> u128
    requires row { IsGoingRow row.now }
    requires first { 1 ≤ number }
    requires last { number ≤ greatest_firing_number }
    ensures due { row_due row.now number ≡ Some result }
    ensures low { result ≤ greatest_input_date * (number + 1) }
{
    let dates = row.dates.as_slice();
    let listed = dates.len() as u64;
    if number <= listed {
        return dates[number as usize - 1] as u128;
    }
    let every = row.every as u64;
    let rounds = (number - listed - 1) / every + 1;
    let before = number - rounds * every;
    dates[before as usize - 1] as u128 + rounds as u128 * row.gap as u128
}
