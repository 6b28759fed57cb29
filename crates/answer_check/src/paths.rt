//! Paths from one transition on that lose least (Dijkstra's algorithm). Nothing rests on it: what is
//! found is checked.
ghost use Rattle.std.specs.Prelude.{◌≡◌, length};

use std::alloc::{AllocError, Global};
use std::cmp::Reverse;
use std::collections::BinaryHeap;
use teg_net::{Circuit, Net, PlaceId, PlacesOf, TransitionId};

// Of each transition that paths lead to the least that one of them loses, and the last place of that
// one, which the first transition has none of.
#[derive(Drop)]
pub(crate) struct Paths {
    pub(crate) least: Vec<Option<i128>>,
    by: Vec<Option<PlaceId>>,
}

// What is told of transitions and was not gone on from, those of the least loss first.
type Queue = BinaryHeap<Reverse<(i128, u32)>>;

// Whether nothing is told yet, or more than is offered.
fn is_less(offered: i128, told: Option<i128>) -> bool {
    match told {
        None => true,
        Some(told) => offered < told,
    }
}

impl Paths {
    // Goes on by the place, behind a path of this loss: what its end is told then, where that is less.
    fn go_on(
        &mut self,
        net: &Net,
        losses: &[i128],
        base: i128,
        id: PlaceId,
        queue: &mut Queue,
    ) -> Result<(), AllocError> {
        let Some(place) = net.places().get(id.index()) else {
            return Ok(());
        };
        let Some(loss) = losses.get(id.index()) else {
            return Ok(());
        };
        let offered = base.saturating_add(*loss);
        let to = place.to.index();
        if to < self.least.len() && to < self.by.len() && is_less(offered, self.least[to]) {
            self.least[to] = Some(offered);
            self.by[to] = Some(id);
            queue.push(Reverse((offered, place.to.index)))?;
        }
        Ok(())
    }

    // The same by each of the places.
    fn go_on_each(
        &mut self,
        net: &Net,
        losses: &[i128],
        base: i128,
        places: &[PlaceId],
        queue: &mut Queue,
    ) -> Result<(), AllocError> {
        for id in places {
            self.go_on(net, losses, base, *id, queue)?;
        }
        Ok(())
    }

    // The paths from the transition on, by what each place loses, 0 or more; each transition is gone
    // on from once, and so each place is tried once.
    pub(crate) fn from(
        alloc: Global,
        net: &Net,
        losses: &[i128],
        outgoing: &PlacesOf,
        first: TransitionId,
    ) -> Result<Paths, AllocError>
        requires { length outgoing.now ≡ length net.now.transitions }
    {
        let count = net.transitions().len();
        let mut paths = Paths {
            least: vec![in alloc; None; count]?,
            by: vec![in alloc; None; count]?,
        };
        let mut queue = BinaryHeap::new(alloc);
        if first.index() < count {
            paths.least[first.index()] = Some(0);
            queue.push(Reverse((0, first.index)))?;
        }
        for _ in 0..=net.places().len() {
            let Some(Reverse((base, at))) = queue.pop() else {
                break;
            };
            let at = TransitionId { index: at };
            let is_least = paths.least.get(at.index()).copied() == Some(Some(base));
            if is_least && net.contains_transition(at) {
                let places = outgoing.of(at);
                paths.go_on_each(net, losses, base, places, &mut queue)?;
            }
        }
        Ok(paths)
    }

    // The path from the end of the place to its start that loses least, and the place behind it: a
    // circuit, where one passes the place.
    pub(crate) fn closed_by(
        &self,
        alloc: Global,
        net: &Net,
        place: PlaceId,
    ) -> Result<Circuit, AllocError> {
        let mut places = Vec::new(alloc);
        let mut last = Some(place);
        for _ in 0..self.by.len() {
            let Some(id) = last else {
                break;
            };
            places.push(id)?;
            let Some(own) = net.places().get(id.index()) else {
                break;
            };
            last = self.by.get(own.from.index()).copied().flatten();
        }
        places.reverse();
        Ok(Circuit { places })
    }
}
