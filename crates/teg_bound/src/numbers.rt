//! The bound as a number of 128 bits.
ghost use Rattle.std.specs.Prelude.{◌≡◌, ◌≤◌, ◌<◌, ◌^◌, length};
ghost use Rattle.teg_net.specs.Limits.{greatest_circuit_time, most_circuit_tokens};
ghost use Rattle.bound_laws.specs.Critical.{bound_of};
ghost use Rattle.teg_bound.specs.PeriodicBounds.{IsNumberOf};
ghost use Rattle.teg_bound.specs.Readings.{AreReadingsWithin};

use crate::readings::{greatest_hold, most_tokens};
use teg_net::{Net, Ratio};

// The number of n transitions, hold H, tokens M and ratio a/b: with T = (n - 1) M, C = n M and
// P = (n - 1) H it is T + C (b P + a (T + C)) + 1.
fn number_of(count: u128, hold: u128, tokens: u128, time: u128, per: u128) -> u128
    requires { AreReadingsWithin count hold tokens time per }
    ensures value { result ≡ bound_of count hold tokens time per }
    ensures small { result < 10 ^ 24 }
{
    let straight = (count - 1) * tokens;
    let around = count * tokens;
    let path = (count - 1) * hold;
    straight + around * (per * path + time * (straight + around)) + 1
}

// The bound of a net at its greatest ratio.
pub(crate) fn bound_number(net: &Net, ratio: Ratio) -> u128
    requires place { 0 < length net.now.places }
    requires time { ratio.time ≤ greatest_circuit_time }
    requires tokens { ratio.tokens ≤ most_circuit_tokens }
    ensures number { IsNumberOf net.now ratio result }
    ensures small { result < 10 ^ 24 }
{
    let count = net.transitions().len() as u128;
    let hold = u128::from(greatest_hold(net));
    let tokens = u128::from(most_tokens(net));
    if ratio.time() == 0 {
        return 0;
    }
    number_of(
        count,
        hold,
        tokens,
        u128::from(ratio.time()),
        u128::from(ratio.tokens()),
    )
}
