//! The net that a run leaves.
ghost use Rattle.std.specs.Prelude.{◌≡◌, ◌≤◌, ◌^◌, All, IfOk, IfErr, length};
ghost use Rattle.state_laws.specs.Rests.{ArePaid};
ghost use Rattle.state_laws.specs.NetsLeft.{IsNetAfter, count_in};
ghost use Rattle.teg_state.specs.LeftLists.{AreNear};
ghost use Rattle.teg_state.specs.WhyNotLeft.{IsWhyNotLeft};

use crate::history::History;
use crate::inputs::lists_left;
use crate::places::{name_copy, places_left};
use crate::refusal::NotLeft;
use run_laws::Fired;
use std::alloc::{AllocError, Global};
use teg_net::{Net, Transition};

// The same transitions once more, in order.
fn transitions_copy(
    alloc: Global,
    transitions: &[Transition],
) -> Result<Vec<Transition>, AllocError>
    ensures { IfOk result (λ copies. copies.items ≡ transitions.now) }
{
    let mut copies = Vec::new(alloc);
    for transition in transitions {
        let name = name_copy(alloc, &transition.name)?;
        copies.push(Transition {
            name,
            role: transition.role,
        })?;
    }
    Ok(copies)
}

// The net that is left of what happened.
fn net_left(alloc: Global, net: &Net, history: &History, now: u64) -> Result<Net, NotLeft>
    requires width { history.now.width ≡ length net.now.transitions }
    requires dates { All (λ f. f.date ≤ 10 ^ 18) history.now.run }
    requires few { length history.now.run ≤ 2 ^ 40 }
    ensures net { IfOk result (IsNetAfter net.now history.now.run now) }
    ensures paid { IfOk result (λ _. ArePaid (count_in history.now.run) net.now.places) }
    ensures near { IfOk result
        (λ _. AreNear net.now history.now.run now (length net.now.transitions)) }
    ensures refusal { IfErr result (IsWhyNotLeft net.now history.now.run now) }
{
    let transitions = transitions_copy(alloc, net.transitions())?;
    let places = places_left(alloc, net, history, now)?;
    let inputs = lists_left(alloc, net, history, now)?;
    match Net::checked(transitions, places, inputs) {
        Ok(rest) => {
            rest.rules();
            Ok(rest)
        }
        Err(fault) => Err(NotLeft::NoNet { fault }),
    }
}

/// The net that a run leaves from now on, in the user's unit of time: the same transitions and
/// places, each place with the tokens that are left in it and from when on each is ready, and the
/// dates of each input from its next firing on; no token and no input's date in it is before now
/// (chapter 2). Firing j of it is firing n + j of a transition that fired n times.
///
/// The firings of the run happened, whether or not they were legal: quicker work than the holding
/// times say is taken as it was. Where the run is over by now and the net is fed
/// ([`crate::is_fed`]), the least dating of the net that is left is that of the net from now on
/// (`nets_go_on` of `state_laws`; `legal_runs_go_on` for a legal run), so that `first_dates`,
/// `settle`, `size` and `latest_inputs` can be asked from now on. Latest inputs are found whatever
/// the input lists say: a plan whose first date of an input is before now cannot be kept.
///
/// The dates are at most 10^18 and the firings at most 2^40. It is refused, in this order, where a
/// place gave more tokens than it had and got, or more than 1,000 tokens are left in it, with the
/// first place; where the dates of an input from now on are no list of at most 100,000 dates up to
/// 10^12 that goes on as its own does, with the first input; and where a token is ready past 10^12.
/// `OutOfMemory` comes only where no memory is found. It takes time of order n + p + r for n
/// transitions, p places and r firings, and a step for each token and each date that is left.
pub fn net_after(alloc: Global, net: &Net, run: &[Fired], now: u64) -> Result<Net, NotLeft>
    requires dates { All (λ f. f.date ≤ 10 ^ 18) run.now }
    requires few { length run.now ≤ 2 ^ 40 }
    ensures net { IfOk result (IsNetAfter net.now run.now now) }
    ensures paid { IfOk result (λ _. ArePaid (count_in run.now) net.now.places) }
    ensures near { IfOk result (λ _. AreNear net.now run.now now (length net.now.transitions)) }
    ensures refusal { IfErr result (IsWhyNotLeft net.now run.now now) }
{
    let history = History::of(alloc, net, run)?;
    net_left(alloc, net, &history, now)
}
