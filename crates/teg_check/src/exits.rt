//! Exits of transitions towards those that have no rank yet, and the circuit that they close.
ghost use Rattle.std.specs.Prelude.{◌≡◌, ◌<◌, length, List, Bool, IfOk, IfSome, IfNone};
ghost use Rattle.teg_net.specs.Circuits.{IsCircuit, tokens_of};
ghost use Rattle.teg_check.specs.Exits.{IsUnranked, IsExit, HasNoExit, HaveExits, AreExitsLeft};

use std::alloc::{AllocError, Global};
use teg_net::{Net, OutOfMemory, PlaceEnd, PlaceId, PlacesOf, TransitionId};

// The places that leave each transition, and how many at the end of each list are passed over for
// good: they have tokens, or lead to transitions with a rank.
#[derive(Drop)]
pub(crate) struct Exits {
    leaving: PlacesOf,
    passed: Vec<usize>,
}

impl Exits {
    // The places of the net, none of which is passed over, whatever is ranked.
    pub(crate) fn new(alloc: Global, net: &Net) -> Result<Exits, OutOfMemory>
        ensures { IfOk result (λ exits. (ranked : List Bool)
            → length ranked ≡ length net.now.transitions
            → AreExitsLeft net.now ranked exits.leaving exits.passed.items) }
    {
        let leaving = PlacesOf::new(alloc, net, PlaceEnd::From)?;
        let passed = vec![in alloc; 0; net.transitions().len()]?;
        Ok(Exits { leaving, passed })
    }

    // The last place without tokens from the transition to one that has no rank. Those past it are
    // passed over.
    fn last_exit(&mut self, net: &Net, ranked: &[bool], transition: usize) -> Option<PlaceId>
        requires exits { AreExitsLeft net.now ranked.now self.old.leaving self.old.passed.items }
        requires transition { transition < length net.now.transitions }
        ensures exits { AreExitsLeft net.now ranked.now self.new.leaving self.new.passed.items }
        ensures exit { IfSome result (IsExit net.now ranked.now transition) }
        ensures none { IfNone result (HasNoExit net.now ranked.now transition) }
    {
        net.rules();
        let places = self.leaving.of(TransitionId {
            index: transition as u32,
        });
        let passed = &mut self.passed[transition];
        'back: while *passed < places.len() {
            let exit = places[places.len() - 1 - *passed];
            let place = net.place(exit);
            if place.tokens == 0 && !ranked[place.to.index as usize] {
                return Some(exit);
            }
            *passed += 1;
        }
        None
    }

    // The first transition without a rank all of whose places without tokens lead to ranked ones.
    pub(crate) fn first_sink(&mut self, net: &Net, ranked: &[bool]) -> Option<usize>
        requires exits { AreExitsLeft net.now ranked.now self.old.leaving self.old.passed.items }
        ensures exits { AreExitsLeft net.now ranked.now self.new.leaving self.new.passed.items }
        ensures none { IfNone result (HaveExits net.now ranked.now) }
        ensures unranked { IfSome result (IsUnranked ranked.now) }
        ensures no_exit { IfSome result (HasNoExit net.now ranked.now) }
    {
        for (t, is_ranked) in ranked.iter().enumerate() {
            if !*is_ranked && self.last_exit(net, ranked, t).is_none() {
                return Some(t);
            }
        }
        None
    }
}

// A circuit of exits: they are followed from `start` until a transition comes again.
pub(crate) fn circuit_from(
    alloc: Global,
    net: &Net,
    exits: &mut Exits,
    ranked: &[bool],
    start: usize,
) -> Result<Vec<PlaceId>, AllocError>
    requires exits { AreExitsLeft net.now ranked.now exits.old.leaving exits.old.passed.items }
    requires have { HaveExits net.now ranked.now }
    requires starts { IsUnranked ranked.now start }
    ensures circuit { IfOk result (λ ps. IsCircuit net.now ps.items) }
    ensures no_tokens { IfOk result (λ ps. tokens_of net.now ps.items ≡ 0) }
{
    let mut left: Vec<Option<usize>> = vec![in alloc; None; ranked.len()]?;
    let mut trail = Vec::new(alloc);
    let mut at = start;
    'walk: while left[at].is_none() {
        left[at] = Some(trail.len());
        let exit = exits.last_exit(net, ranked, at).unwrap();
        trail.push(exit)?;
        at = net.place(exit).to.index as usize;
    }
    let first = left[at].unwrap();
    trail.split_off(first)
}
