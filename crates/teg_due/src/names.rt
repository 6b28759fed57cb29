//! The transition that a row names, and whether it is an input.
ghost use Rattle.std.specs.Prelude.{◌≡◌, ◌<◌, length, IfSome, option_map};
ghost use Rattle.std.specs.Bool.{OnFalse, OnTrue};
ghost use Rattle.teg_due.specs.RowNames.{is_input, number_named};
ghost use Rattle.teg_net.specs.Nets.{IsInput};

use teg_net::{NameOrder, Net, Role, TransitionId};

/// The transition of this name, if there is one, by the names of the net in order. It takes no
/// memory, and as many steps as the logarithm of their number.
pub fn transition_named(net: &Net, names: &NameOrder<'_>, name: &[u8]) -> Option<TransitionId>
    requires { names.now ≡ net.now }
    ensures named { option_map (λ id. id.index) result ≡ number_named net.now name.now }
    ensures in_range { IfSome result (λ id. id.index < length net.now.transitions) }
{
    // (its names are distinct)
    net.rules();
    names.find(name)
}

/// Whether the transition is an input. It takes no memory.
pub fn is_input(net: &Net, transition: TransitionId) -> bool
    requires { transition.index < length net.now.transitions }
    ensures is { result ≡ is_input net.now transition.index }
    ensures input { OnTrue result (IsInput net.now transition.index) }
    ensures other { OnFalse result (IsInput net.now transition.index → ⊥) }
{
    net.transitions()[transition.index as usize].role == Role::Input
}
