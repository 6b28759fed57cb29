//! What is read off a net.
ghost use Rattle.std.specs.Prelude.{◌≡◌, ◌↔◌, ◌≤◌, ◌<◌, Any, IsTrue, length};
ghost use Rattle.teg_net.specs.declared.entries.Role.TheVariants.{Input};
ghost use Rattle.teg_bound.specs.PeriodicBounds.{HasReadyDate, IsGreatestHold, IsMostTokens};

use teg_net::{Net, Place, Role};

// Whether some transition is an input.
pub(crate) fn has_input(net: &Net) -> bool
    ensures { IsTrue result ↔ Any (λ t. t.role ≡ Input) net.now.transitions }
{
    net.transitions().iter().any(|t| t.role == Role::Input)
}

// Whether some token of the place is ready only after 0.
fn is_late(place: &Place) -> bool
    ensures { IsTrue result ↔ Any (λ d. 1 ≤ d) place.now.ready }
{
    place.ready.as_slice().iter().any(|date| 1 <= *date)
}

// Whether some token of the net is ready only after 0.
pub(crate) fn has_late_token(net: &Net) -> bool
    ensures { IsTrue result ↔ HasReadyDate net.now }
{
    net.places().iter().any(is_late)
}

// The greatest hold of a place.
pub(crate) fn greatest_hold(net: &Net) -> u64
    requires { 0 < length net.now.places }
    ensures { IsGreatestHold net.now result }
{
    let mut greatest = 0;
    for place in net.places() {
        greatest = greatest.max(place.hold);
    }
    greatest
}

// The greater of 1 and the greatest number of tokens of a place.
pub(crate) fn most_tokens(net: &Net) -> u32
    ensures { IsMostTokens net.now result }
{
    let mut most = 1;
    for place in net.places() {
        most = most.max(place.tokens);
    }
    most
}
