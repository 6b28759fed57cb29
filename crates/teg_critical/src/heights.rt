//! Heights of transitions, which serve as potentials: the reduced time of one place is raised by
//! what its best circuit lacks to the greatest ratio, and the height of a transition is then the
//! greatest value of the paths that end there, found by rounds over all places (the algorithm of
//! Bellman and Ford).
ghost use Rattle.std.specs.Prelude.{◌≡◌, ◌≤◌, ◌<◌, sum_by, IfOk, IsTrue, false};
ghost use Rattle.teg_net.specs.Limits.{greatest_hold, most_place_tokens, most_circuit_tokens, greatest_checked_ratio};
ghost use Rattle.teg_critical.specs.Losses.{most_gap};
ghost use Rattle.teg_critical.specs.Heights.{most_gain, gain_of_place, cost_of_place, CanRaise, CanPass, AreHeights, AreFinal, IsLifted, IsKeptBy, ArePotentialsBy};

use std::alloc::{AllocError, Global};
use teg_net::{Net, Place, PlaceId, Ratio};

// A place whose reduced time at the ratio is raised by so much.
#[derive(Clone, Copy, Drop)]
pub(crate) struct Raised {
    pub(crate) ratio: Ratio,
    pub(crate) place: PlaceId,
    pub(crate) gap: u64,
}

// What a place adds to the height of its start: the ratio's tokens times its hold, and the rise at
// the one place.
pub(crate) fn gain_of(raised: &Raised, number: usize, place: &Place) -> u64
    requires tokens { raised.now.ratio.tokens ≤ most_circuit_tokens }
    requires gap { raised.now.gap ≤ most_gap }
    requires hold { place.now.hold ≤ greatest_hold }
    ensures value { result ≡ gain_of_place raised.now number place.now }
    ensures small { result ≤ most_gain }
{
    let own = place.hold * raised.ratio.tokens();
    if number == raised.place.index as usize {
        own + raised.gap
    } else {
        own
    }
}

// What it takes off: the ratio's time times its tokens.
pub(crate) fn cost_of(raised: &Raised, place: &Place) -> u64
    requires time { raised.now.ratio.time ≤ greatest_checked_ratio }
    requires tokens { place.now.tokens ≤ most_place_tokens }
    ensures value { result ≡ cost_of_place raised.now place.now }
    ensures small { result ≤ most_gain }
{
    raised.ratio.time() * u64::from(place.tokens)
}

// Lifts the end of a place to what the place makes of the height of its start, where that is more.
fn lift_end(raised: &Raised, number: usize, place: &Place, heights: &mut [u64]) -> bool
    requires { CanPass raised.now place.now heights.old }
    ensures lifted { IsTrue result → IsLifted raised.now number place.now heights.old heights.new }
    ensures same { result ≡ false → heights.new ≡ heights.old }
    ensures kept { result ≡ false → IsKeptBy raised.now number place.now heights.old }
{
    let offered = heights[place.from.index as usize] + gain_of(raised, number, place);
    let cost = cost_of(raised, place);
    let to = place.to.index as usize;
    if offered <= heights[to] + cost {
        return false;
    }
    heights[to] = offered - cost;
    true
}

// One round over all places: whether some end was lifted.
fn lift(net: &Net, raised: &Raised, heights: &mut [u64]) -> bool
    requires can { CanRaise net.now raised.now }
    requires heights { AreHeights net.now raised.now heights.old }
    ensures heights { AreHeights net.now raised.now heights.new }
    ensures more { IsTrue result → sum_by (λ h. h) heights.old < sum_by (λ h. h) heights.new }
    ensures settled { result ≡ false → AreFinal net.now raised.now heights.new }
{
    let mut lifted = false;
    for (number, place) in net.places().iter().enumerate() {
        if lift_end(raised, number, place, heights) {
            lifted = true;
        }
    }
    lifted
}

// The heights of the transitions.
pub(crate) fn heights_of(alloc: Global, net: &Net, raised: &Raised) -> Result<Vec<u64>, AllocError>
    requires can { CanRaise net.now raised.now }
    ensures heights { IfOk result (λ heights. AreHeights net.now raised.now heights.items) }
    ensures settled { IfOk result (λ heights. AreFinal net.now raised.now heights.items) }
{
    let mut heights = vec![in alloc; 0; net.transitions().len()]?;
    'rise: while lift(net, raised, &mut heights) {}
    Ok(heights)
}

// The heights as potentials.
pub(crate) fn potentials_by(alloc: Global, heights: &[u64]) -> Result<Vec<i128>, AllocError>
    ensures { IfOk result (λ vs. ArePotentialsBy heights.now vs.items) }
{
    let mut potentials = Vec::new(alloc);
    for height in heights {
        potentials.push(i128::from(*height))?;
    }
    Ok(potentials)
}
