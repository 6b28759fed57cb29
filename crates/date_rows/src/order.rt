//! The places in the order in which one pass over them settles a number.
ghost use Rattle.std.specs.Prelude.{◌≡◌, ◌<◌, length, IfOk};
ghost use Rattle.teg_check.specs.Ranks.{IsRanking};
ghost use Rattle.date_rows.specs.PlaceOrder.{IsPlaceOrder, OrdersPlaces, order_key};

use std::alloc::{AllocError, Global};
use std::marker::Model;
use teg_check::Live;
use teg_net::{Net, OutOfMemory, Place, PlaceId, TransitionId};

// What a pass reads of a place, and when the place has its turn. A pass goes over thousands of
// these for each number, so they are small.
#[derive(Clone, Copy, Debug, Drop)]
pub(crate) struct OrderedPlace {
    pub(crate) turn: u32,
    pub(crate) place: PlaceId,
    pub(crate) from: TransitionId,
    pub(crate) to: TransitionId,
    pub(crate) tokens: u32,
    pub(crate) hold: u32,
}

/// The places of a live net in the order of their turns: first those with tokens, which take dates
/// of earlier numbers, then the others by the ranks of their downstream transitions. Contracts see
/// it as a list; it stands for each net of which it orders all places (`OrdersPlaces`).
#[derive(Debug, Drop)]
pub struct PlaceOrder {
    turns: Vec<OrderedPlace>,
}

impl Model for PlaceOrder {
    ghost use Rattle.std.specs.Prelude.{List};
    ghost use Rattle.date_rows.specs.declared.order.OrderedPlace.{OrderedPlace};

    ghost Value = { List OrderedPlace };

    ghost view = { λ a. a.turns.items };
}

impl PlaceOrder {
    /// The order of the net's places. `OutOfMemory` comes only where no memory is found. It takes
    /// time of order `p log p` for p places.
    pub fn new(alloc: Global, net: &Net, live: &Live) -> Result<PlaceOrder, OutOfMemory>
        requires stands { IsRanking net.now live.now }
        ensures order { IfOk result (OrdersPlaces net.now) }
    {
        let turns = by_turn(alloc, net, live)?;
        Ok(PlaceOrder { turns })
    }

    // The places with their turns.
    pub(crate) fn turns(&self) -> &[OrderedPlace]
        ensures { result.now ≡ self.now }
    {
        &self.turns
    }
}

// When the turn of a place comes.
fn turn_of(live: &Live, place: &Place) -> u32
    requires { place.now.to.index < length live.now }
    ensures { result ≡ order_key live.now place.now }
{
    if place.tokens == 0 {
        live.rank(place.to)
    } else {
        0
    }
}

// The places in the order of their turns.
fn by_turn(alloc: Global, net: &Net, live: &Live) -> Result<Vec<OrderedPlace>, AllocError>
    requires { IsRanking net.now live.now }
    ensures { IfOk result (λ order. IsPlaceOrder net.now live.now order.items) }
{
    let mut order = Vec::new(alloc);
    for (index, place) in net.places().iter().enumerate() {
        order.push(OrderedPlace {
            turn: turn_of(live, place),
            place: PlaceId {
                index: index as u32,
            },
            from: place.from,
            to: place.to,
            tokens: place.tokens,
            hold: place.hold as u32,
        })?;
    }
    // Those of one turn by where they take their tokens: so a pass reads what is kept in its order.
    order.sort_by_key(|o| o.from.index)?;
    order.sort_by_key(|o| o.turn)?;
    Ok(order)
}
