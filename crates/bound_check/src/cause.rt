//! Why a net has no bound.
ghost use Rattle.std.specs.Prelude.{◌↔◌, ◌≤◌, Any, IfNone, IfSome, IsTrue};
ghost use Rattle.bound_check.specs.Formulas.{CanBeBounded, HasLateToken, HasSomeInput, StandsAlone};
ghost use Rattle.bound_check.specs.ShownBounds.{IsFirstCause};
ghost use Rattle.teg_parts.specs.Partitions.{AreParts};

use teg_net::{Net, Place, Role};
use teg_parts::Parts;

/// Why a net has no bound: the first of these that is so.
#[derive(Clone, Copy, Debug, PartialEq, Eq)]
pub enum WhyNone {
    /// Some transition is an input.
    HasInputs,
    /// The net has no place.
    NoPlace,
    /// Some transition does not reach some other by a path.
    NotStrong,
    /// Some token is ready only after 0.
    ReadyDates,
}

// Whether some transition is an input.
fn has_input(net: &Net) -> bool
    ensures { IsTrue result ↔ HasSomeInput net.now }
{
    net.transitions().iter().any(|t| t.role == Role::Input)
}

// Whether some token of the place is ready only after 0.
fn is_ready_late(place: &Place) -> bool
    ensures { IsTrue result ↔ Any (λ d. 1 ≤ d) place.now.ready }
{
    place.ready.as_slice().iter().any(|date| 1 <= *date)
}

// Whether some token of the net is.
fn has_late_token(net: &Net) -> bool
    ensures { IsTrue result ↔ HasLateToken net.now }
{
    net.places().iter().any(is_ready_late)
}

// Whether the net has an input or no place.
fn cause_alone(net: &Net) -> Option<WhyNone>
    ensures cause { IfSome result (IsFirstCause net.now) }
    ensures none { IfNone result (StandsAlone net.now) }
{
    if has_input(net) {
        return Some(WhyNone::HasInputs);
    }
    if net.places().len() == 0 {
        return Some(WhyNone::NoPlace);
    }
    None
}

// The first cause why the net has no bound; none where it has one.
pub(crate) fn cause_of(net: &Net, parts: &Parts) -> Option<WhyNone>
    requires { AreParts net.now parts.now }
    ensures cause { IfSome result (IsFirstCause net.now) }
    ensures none { IfNone result (CanBeBounded net.now) }
{
    if let Some(cause) = cause_alone(net) {
        return Some(cause);
    }
    if parts.count() > 1 {
        return Some(WhyNone::NotStrong);
    }
    if has_late_token(net) {
        return Some(WhyNone::ReadyDates);
    }
    None
}
