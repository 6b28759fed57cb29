//! Iterators over the numbers of a net's transitions and places.
ghost use Rattle.std.specs.Prelude.{◌≡◌, ◌<◌, All, length};
ghost use Rattle.std.specs.Iterator.{YieldsFirst, item_count};
ghost use Rattle.net_ids.specs.Ids.{place_ids_of, transition_ids_of};

use std::marker::Model;
use teg_net::{Net, PlaceId, TransitionId};

/// The numbers of a net's transitions, in order; from [`transition_ids`]. Contracts see it as the
/// list of those that are left.
#[derive(Debug, Drop)]
pub struct TransitionIds {
    next: u32,
    end: u32,
}

impl Model for TransitionIds {
    ghost use Rattle.std.specs.Prelude.{List};
    ghost use Rattle.teg_net.specs.declared.entries.TransitionId.{TransitionId};
    ghost use Rattle.net_ids.specs.Ids.{transition_ids_between};

    ghost Value = { List TransitionId };

    ghost view = { λ a. transition_ids_between a.next a.end };
}

impl Iterator for TransitionIds {
    type Item = TransitionId;

    ghost next_gives = { YieldsFirst (λ a. a) };

    ghost remaining = { item_count (λ a. a) };

    #[tactic(auto, using(crate::proofs::IdLists::more_transitions, crate::proofs::IdLists::fewer_transitions, crate::proofs::IdLists::no_transitions))]
    fn next(&mut self) -> Option<TransitionId> {
        if self.next < self.end {
            let id = TransitionId { index: self.next };
            self.next += 1;
            return Some(id);
        }
        None
    }
}

/// The numbers of a net's places, in order; from [`place_ids`]. Contracts see it as the list of
/// those that are left.
#[derive(Debug, Drop)]
pub struct PlaceIds {
    next: u32,
    end: u32,
}

impl Model for PlaceIds {
    ghost use Rattle.std.specs.Prelude.{List};
    ghost use Rattle.teg_net.specs.declared.entries.PlaceId.{PlaceId};
    ghost use Rattle.net_ids.specs.Ids.{place_ids_between};

    ghost Value = { List PlaceId };

    ghost view = { λ a. place_ids_between a.next a.end };
}

impl Iterator for PlaceIds {
    type Item = PlaceId;

    ghost next_gives = { YieldsFirst (λ a. a) };

    ghost remaining = { item_count (λ a. a) };

    #[tactic(auto, using(crate::proofs::IdLists::more_places, crate::proofs::IdLists::fewer_places, crate::proofs::IdLists::no_places))]
    fn next(&mut self) -> Option<PlaceId> {
        if self.next < self.end {
            let id = PlaceId { index: self.next };
            self.next += 1;
            return Some(id);
        }
        None
    }
}

/// The numbers of the net's transitions, from 0 on in order, each of them below their count. It
/// takes no memory.
pub fn transition_ids(net: &Net) -> TransitionIds
    ensures ids { result ≡ transition_ids_of net.now }
    ensures below { All (λ id. id.index < length net.now.transitions) result }
{
    TransitionIds {
        next: 0,
        end: net.transition_count(),
    }
}

/// The numbers of the net's places, from 0 on in order, each of them below their count. It takes no
/// memory.
pub fn place_ids(net: &Net) -> PlaceIds
    ensures ids { result ≡ place_ids_of net.now }
    ensures below { All (λ id. id.index < length net.now.places) result }
{
    PlaceIds {
        next: 0,
        end: net.place_count(),
    }
}
