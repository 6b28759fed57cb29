//! Whether a list that goes on is the shortest that tells its dates.
ghost use Rattle.std.specs.Prelude.{ℕ, pos, ◌≡◌, ◌≤◌, ◌<◌, ◌+◌, ◌-◌, ◌%◌, ◌^◌, All, IsTrue, length};
ghost use Rattle.dioid.specs.declared.dates.Date.TheVariants.{At};
ghost use Rattle.dioid.specs.Dates.{move};
ghost use Rattle.teg_net.specs.Nets.{EndsOrGoesOn, ListGoesOn};
ghost use Rattle.forever_check.specs.ShownReleases.{IsShortestList};
ghost use Rattle.forever_check.specs.ReleaseWalks.{GoesOnIn, IsShortestIn, going_release};

use crate::going::going_date;
use teg_net::{Again, InputList};

// The dates of two firings.
type Pair = (u128, u128);

// Whether the second of both dates is as much later than the first.
fn rise_alike(first: Pair, other: Pair) -> bool
    ensures { other.1 + first.0 ≡ first.1 + other.0 → IsTrue result }
{
    match (other.1.checked_add(first.0), first.1.checked_add(other.0)) {
        (Some(sum), Some(as_much)) => sum == as_much,
        _ => true,
    }
}

// The dates of a firing, and of that so many later.
fn pair_at(dates: &[u64], again: Again, number: u64, by: u64) -> Pair
    requires rule { ListGoesOn dates.now again }
    requires first { 1 ≤ number }
    requires within { number + by < 2 ^ 64 }
    ensures first { going_release dates.now again number ≡ At (pos result.0) }
    ensures second { going_release dates.now again (number + by) ≡ At (pos result.1) }
{
    (
        going_date(dates, again, number),
        going_date(dates, again, number + by),
    )
}

// Whether past a number the dates go on by some step in so many firings, as far as one round shows.
fn seems_to_go_on(dates: &[u64], again: Again, past: u64, by: u64) -> bool
    requires rule { ListGoesOn dates.now again }
    requires past { past + again.every ≤ length dates.now }
    requires by { by ≤ again.every }
    ensures { GoesOnIn dates.now again past by → IsTrue result }
{
    let first = pair_at(dates, again, past + 1, by);
    for before in past..past + u64::from(again.every) {
        if !rise_alike(first, pair_at(dates, again, before + 1, by)) {
            return false;
        }
    }
    true
}

// Whether so many firings divide those of a round, and past a number they seem to go on in them.
fn seems_to_turn(dates: &[u64], again: Again, past: u64, by: u64) -> bool
    requires rule { ListGoesOn dates.now again }
    requires past { past + again.every ≤ length dates.now }
    requires some { 1 ≤ by }
    requires by { by ≤ again.every }
    ensures { again.every % by ≡ 0 → GoesOnIn dates.now again past by → IsTrue result }
{
    u64::from(again.every) % by == 0 && seems_to_go_on(dates, again, past, by)
}

// Whether past a number they go on in no fewer firings that divide those of a round.
fn is_least_round(dates: &[u64], again: Again, past: u64) -> bool
    requires rule { ListGoesOn dates.now again }
    requires past { past + again.every ≤ length dates.now }
    ensures { IsTrue result → (by : ℕ) → 1 ≤ by → by < again.every → again.every % by ≡ 0
        → GoesOnIn dates.now again past by → ⊥ }
{
    let every = u64::from(again.every);
    for by in 1..every {
        if seems_to_turn(dates, again, past, by) {
            return false;
        }
    }
    true
}

// Whether they do not go on from the number on, if it is not 0.
fn is_least_start(dates: &[u64], again: Again, past: u64) -> bool
    requires rule { ListGoesOn dates.now again }
    requires past { past + again.every ≤ length dates.now }
    ensures { IsTrue result → 1 ≤ past → going_release dates.now again (past + again.every)
        ≡ move (pos again.gap) (going_release dates.now again past) → ⊥ }
{
    if past == 0 {
        return true;
    }
    let step = (0, u128::from(again.gap));
    if rise_alike(step, pair_at(dates, again, past, u64::from(again.every))) {
        return false;
    }
    true
}

// Whether no fewer firings and no smaller number would do for a list that goes on.
fn is_shortest_going(dates: &[u64], again: Again) -> bool
    requires rule { ListGoesOn dates.now again }
    ensures { IsTrue result → IsShortestIn dates.now again }
{
    let past = dates.len() as u64 - u64::from(again.every);
    is_least_start(dates, again, past) && is_least_round(dates, again, past)
}

// Whether the list is the shortest that tells its dates.
fn is_shortest(list: &InputList) -> bool
    requires rule { EndsOrGoesOn list.now.dates list.now.again }
    ensures { IsTrue result → IsShortestList list.now }
{
    match list.again {
        None => true,
        Some(again) => is_shortest_going(list.dates.as_slice(), again),
    }
}

// Whether each list is.
pub(crate) fn are_shortest(lists: &[InputList]) -> bool
    requires { All (λ l. EndsOrGoesOn l.dates l.again) lists.now }
    ensures { IsTrue result → All IsShortestList lists.now }
{
    for list in lists {
        if !is_shortest(list) {
            return false;
        }
    }
    true
}
