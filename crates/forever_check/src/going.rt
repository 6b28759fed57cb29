//! Dates of a list that goes on.
ghost use Rattle.std.specs.Prelude.{◌≡◌, ◌≤◌, Some, length};
ghost use Rattle.teg_net.specs.Inputs.{list_date};

use teg_net::Again;

// The date of the firing of this number by a list of dates that goes on so.
pub(crate) fn going_date(dates: &[u64], again: Again, number: u64) -> u128
    requires first { 1 ≤ number }
    requires some { 1 ≤ again.every }
    requires enough { again.every ≤ length dates.now }
    ensures { list_date dates.now (Some again) number ≡ Some result }
{
    let listed = dates.len() as u64;
    if number <= listed {
        return u128::from(dates[number as usize - 1]);
    }
    let every = u64::from(again.every);
    let rounds = (number - listed - 1) / every + 1;
    let before = number - rounds * every;
    u128::from(dates[before as usize - 1]) + u128::from(rounds) * u128::from(again.gap)
}
