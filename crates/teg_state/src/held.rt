//! The live net that a run leaves of a live net, and whether a net is fed.
ghost use Rattle.std.specs.Prelude.{◌≡◌, ◌≤◌, ◌^◌, All, Any, Decides, IfOk, IfErr, length};
ghost use Rattle.teg_net.specs.Circuits.{IsLive};
ghost use Rattle.state_laws.specs.Rests.{ArePaid};
ghost use Rattle.state_laws.specs.NetsLeft.{IsFed, IsNetAfter, count_in};
ghost use Rattle.teg_state.specs.LeftLists.{AreNear};
ghost use Rattle.teg_state.specs.WhyNotLeft.{IsWhyNotLeft};

use crate::refusal::NotLeft;
use crate::rest::net_after;
use run_laws::Fired;
use state_laws::nets_go_on;
use std::alloc::Global;
use teg_check::{CheckRefusal, LiveNet};
use teg_net::{Net, TransitionId};

/// [`net_after`] of a live net, with ranks of its own: the net that is left is live, so it is
/// refused as that is and never for a circuit without tokens (chapter 2). It takes the time of
/// [`net_after`] and of `check`.
pub fn live_net_after(
    alloc: Global,
    held: &LiveNet,
    run: &[Fired],
    now: u64,
) -> Result<LiveNet, NotLeft>
    requires dates { All (λ f. f.date ≤ 10 ^ 18) run.now }
    requires few { length run.now ≤ 2 ^ 40 }
    ensures net { IfOk result (IsNetAfter held.now run.now now) }
    ensures live { IfOk result IsLive }
    ensures paid { IfOk result (λ _. ArePaid (count_in run.now) held.now.places) }
    ensures near { IfOk result (λ _. AreNear held.now run.now now (length held.now.transitions)) }
    ensures refusal { IfErr result (IsWhyNotLeft held.now run.now now) }
{
    nets_go_on();
    let net = held.net();
    net.rules();
    let rest = net_after(alloc, net, run, now)?;
    match LiveNet::new(alloc, rest) {
        Ok(rest) => Ok(rest),
        Err(not_held) => match not_held.refusal {
            CheckRefusal::OutOfMemory => Err(NotLeft::OutOfMemory),
            CheckRefusal::TokenFree { .. } => unreachable!(),
        },
    }
}

// Whether a place ends at the transition.
fn has_place_before(net: &Net, transition: TransitionId) -> bool
    ensures { Decides result (Any (λ p. p.to.index ≡ transition.index) net.now.places) }
{
    net.places()
        .iter()
        .any(|place| place.to.index == transition.index)
}

/// Whether each transition is an input or has a place before it, as the laws of the net that a run
/// leaves ask (`nets_go_on` of `state_laws`, chapter 2): a transition that waits for nothing fires
/// at date 0 in any net, and so before now. It takes no memory, and steps of order n p for n
/// transitions and p places.
pub fn is_fed(net: &Net) -> bool
    ensures { Decides result (IsFed net.now) }
{
    for index in 0..net.transition_count() {
        let transition = TransitionId::new(index);
        if !net.is_input(transition) && !has_place_before(net, transition) {
            return false;
        }
    }
    true
}
