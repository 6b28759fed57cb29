//! Whether a number is the bound of a net at a ratio.
ghost use Rattle.std.specs.Prelude.{◌≡◌, ◌<◌, ◌^◌, IfSome, IsTrue};
ghost use Rattle.bound_laws.specs.Critical.{bound_of};
ghost use Rattle.bound_check.specs.Formulas.{AreMostAtOne, IsLongestHold, IsNumberAt};

use teg_net::{Net, Ratio};

// A bound is below this.
const BOUND_LIMIT: u128 = 1_000_000_000_000_000_000_000_000;

// The greatest hold of a place. Nothing rests on it: it is looked at.
fn longest_hold(net: &Net) -> u64 {
    let mut longest = 0;
    for place in net.places() {
        longest = longest.max(place.hold);
    }
    longest
}

// The most tokens of a place, and at least 1. Nothing rests on it: it is looked at.
pub(crate) fn most_told(net: &Net) -> u32 {
    let mut most = 1;
    for place in net.places() {
        most = most.max(place.tokens);
    }
    most
}

// Whether this is the greatest hold of a place.
fn is_longest_hold(net: &Net, hold: u64) -> bool
    ensures { IsTrue result → IsLongestHold net.now hold }
{
    net.places().iter().any(|place| place.hold == hold)
        && net.places().iter().all(|place| place.hold <= hold)
}

// Whether this is the greater of 1 and the most tokens of a place.
fn are_most_tokens(net: &Net, tokens: u32) -> bool
    ensures { IsTrue result → AreMostAtOne net.now tokens }
{
    1 <= tokens
        && (tokens == 1 || net.places().iter().any(|place| place.tokens == tokens))
        && net.places().iter().all(|place| place.tokens <= tokens)
}

// The number of n transitions, hold H, tokens M and ratio a/b: with T = (n - 1) M, C = n M and
// P = (n - 1) H it is T + C (b P + a (T + C)) + 1; none where that is too great.
fn number_by(count: u128, hold: u128, tokens: u128, time: u128, per: u128) -> Option<u128>
    ensures { IfSome result (λ number. number ≡ bound_of count hold tokens time per) }
{
    let others = count.checked_sub(1)?;
    let straight = others.checked_mul(tokens)?;
    let around = count.checked_mul(tokens)?;
    let path = others.checked_mul(hold)?;
    let gain = per.checked_mul(path)?;
    let both = straight.checked_add(around)?;
    let loss = time.checked_mul(both)?;
    let product = around.checked_mul(gain.checked_add(loss)?)?;
    straight.checked_add(product)?.checked_add(1)
}

// Whether the number is that of the net with this hold, these tokens and this ratio.
fn is_number_by(net: &Net, hold: u64, tokens: u32, ratio: Ratio, number: u128) -> bool
    requires hold { IsLongestHold net.now hold }
    requires tokens { AreMostAtOne net.now tokens }
    ensures { IsTrue result → IsNumberAt net.now ratio number }
{
    if ratio.time() == 0 {
        return number == 0;
    }
    let count = net.transitions().len() as u128;
    let time = u128::from(ratio.time());
    let per = u128::from(ratio.tokens());
    match number_by(count, u128::from(hold), u128::from(tokens), time, per) {
        Some(own) => number == own,
        None => false,
    }
}

// Whether the number is the bound of the net at this ratio.
pub(crate) fn is_number(net: &Net, ratio: Ratio, number: u128) -> bool
    ensures number { IsTrue result → IsNumberAt net.now ratio number }
    ensures small { IsTrue result → number < 10 ^ 24 }
{
    let hold = longest_hold(net);
    let tokens = most_told(net);
    if !is_longest_hold(net, hold) || !are_most_tokens(net, tokens) {
        return false;
    }
    number < BOUND_LIMIT && is_number_by(net, hold, tokens, ratio, number)
}
