//! A number led back into the first period of a form, and its date led on again.
ghost use Rattle.std.specs.Prelude.{◌≡◌, ◌<◌, ◌≤◌, ◌+◌, ◌-◌, ◌*◌, ◌/◌, ◌+ℤ◌, ◌*ℤ◌, FitsSigned, pos};
ghost use Rattle.std.specs.Int.{w128};

/// The number so many steps on: a date moved by the step of its form, once for each period.
pub fn moved(number: i128, rounds: u64, step: i128) -> i128
    requires product { FitsSigned w128 (pos rounds *ℤ step) }
    requires sum { FitsSigned w128 (number +ℤ pos rounds *ℤ step) }
    ensures { result ≡ number +ℤ pos rounds *ℤ step }
{
    let all = rounds as i128 * step;
    number + all
}

/// A number of a form's dates, and by how many periods it stands before another number.
#[derive(Clone, Copy, Debug, Drop)]
pub struct Back {
    /// The number, from 1 to number plus period of the form.
    pub number: u64,
    /// How many periods on the other number stands, at least 1.
    pub rounds: u64,
}

/// The number among the last period of so many dates to which whole periods lead back from a number
/// past them, and how many they are.
pub fn back_from(number: u64, settled: u64, period: u64) -> Back
    requires some { 1 ≤ period }
    requires long { period ≤ settled }
    requires past { settled < number }
    ensures rounds { result.rounds ≡ (number - settled - 1) / period + 1 }
    ensures number { result.number ≡ number - result.rounds * period }
    ensures first { 1 ≤ result.number }
    ensures last { result.number ≤ settled }
{
    let rounds = (number - settled - 1) / period + 1;
    Back {
        number: number - rounds * period,
        rounds,
    }
}
