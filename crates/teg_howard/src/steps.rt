//! One step back along a policy.
ghost use Rattle.std.specs.Prelude.{◌≡◌, length};
ghost use Rattle.teg_net.specs.Circuits.{place_at};
ghost use Rattle.policy_rounds.specs.PolicyLists.{policy_of, IsOnPolicy};

use teg_net::{Net, Place, PlaceId};

// The place that the policy gives to the transition.
pub(crate) fn place_into<'net>(net: &'net Net, policy: &[PlaceId], at: usize) -> &'net Place
    requires count { length policy.now ≡ length net.now.transitions }
    requires on_policy { IsOnPolicy net.now (policy_of policy.now) at }
    ensures { result.now ≡ place_at net.now (policy_of policy.now at) }
{
    &net.places()[policy[at].index as usize]
}
