//! From which number on the latest times go on by steps.
ghost use Rattle.std.specs.Prelude.{◌≡◌, ◌+◌, ◌<◌, ◌≤◌, IfSome, length};
ghost use Rattle.walks_by_ends.specs.LatestTimes.{IsEvenFrom, IsEvenPast, IsLeastEven};

use crate::ways::Ways;

// A number past `begin`, or there, past which all times go on by these steps, with a form of at
// most `limit` numbers. The number past which none do not is found by halves.
fn even_from(ways: &Ways<'_>, steps: &[i128], begin: u64, limit: u64) -> Option<u64>
    requires wide { length steps.now ≡ length ways.now.net.transitions }
    requires few { limit ≤ 200000 }
    ensures { IfSome result (IsEvenFrom ways.now steps.now begin limit) }
{
    if begin >= limit || !ways.go_on(steps, limit) {
        return None;
    }
    let mut low = begin;
    let mut high = limit - 1;
    while low < high {
        let middle = low + (high - low) / 2;
        if ways.go_on(steps, middle + 1) {
            high = middle;
        } else {
            low = middle + 1;
        }
    }
    Some(high)
}

// The least number past which, up to `from`, all times go on by these steps.
fn least_even(ways: &Ways<'_>, steps: &[i128], from: u64) -> u64
    requires wide { length steps.now ≡ length ways.now.net.transitions }
    requires few { from < 200000 }
    ensures { IsLeastEven ways.now steps.now from result }
{
    let mut least = from;
    while 0 < least && ways.go_on(steps, least) {
        least -= 1;
    }
    least
}

// The least number past which all times go on by these steps, if their form is of at most `limit`
// numbers, and this can be told.
pub(crate) fn even_past(ways: &Ways<'_>, steps: &[i128], limit: u32) -> Option<u64>
    requires wide { length steps.now ≡ length ways.now.net.transitions }
    requires few { limit ≤ 200000 }
    ensures { IfSome result (IsEvenPast ways.now steps.now limit) }
{
    let from = even_from(ways, steps, ways.begin(), u64::from(limit))?;
    let after = least_even(ways, steps, from);
    if ways.are_still(steps, after + 1) {
        Some(after)
    } else {
        None
    }
}
