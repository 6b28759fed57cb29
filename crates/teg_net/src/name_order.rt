//! The transitions of a net by name, in an order that is made once.
ghost use Rattle.std.specs.Prelude.{◌≡◌, ◌≢◌, ◌↔◌, All, Option, None, IfOk, IfSome, IsSomeAnd, slice_get};

use crate::entries::TransitionId;
use crate::memory::OutOfMemory;
use crate::net::Net;
use std::alloc::Global;
use std::collections::BTreeMap;
use std::marker::Model;

/// The transitions of a net in the order of their names, for a file with many rows: a look-up takes
/// as many steps as the logarithm of their number. Contracts see the net.
#[derive(Drop)]
pub struct NameOrder<'n> {
    net: &'n Net,
    ids: BTreeMap<&'n [u8], TransitionId>,
}

impl<'n> Model for NameOrder<'n> {
    ghost use Rattle.teg_net.specs.Nets.{NetLists};
    ghost use Rattle.teg_net.specs.NameOrders.{HasNames};

    ghost Value = { NetLists };

    ghost view = { λ o. o.net.now };

    ghost invariant = { λ o. HasNames o.net.now.transitions o.net.now.transitions o.ids };
}

impl<'n> NameOrder<'n> {
    /// The order of the names of the net's transitions. `OutOfMemory` comes only where no memory is
    /// found. It takes time of order n log n for n transitions.
    pub fn new(alloc: Global, net: &'n Net) -> Result<NameOrder<'n>, OutOfMemory>
        ensures { IfOk result (λ order. order ≡ net.now) }
    {
        let mut ids = BTreeMap::new(alloc);
        for (index, transition) in net.transitions().iter().enumerate() {
            let id = TransitionId {
                index: index as u32,
            };
            let name = transition.name.as_str().as_bytes();
            if ids.insert(name, id).is_err() {
                return Err(OutOfMemory);
            }
        }
        Ok(NameOrder { net, ids })
    }

    /// The transition of this name; none exactly where no transition has it. It takes no memory.
    pub fn find(&self, name: &[u8]) -> Option<TransitionId>
        ensures none { (result ≡ None) ↔ All (λ t. t.name ≢ name.now) self.now.transitions }
        ensures found { IfSome result (λ id. IsSomeAnd (slice_get self.now.transitions id.index)
            (λ t. t.name ≡ name.now)) }
    {
        self.ids.get(name).copied()
    }
}
