//! The strong parts of a net, as one call, and whether a value has them.
ghost use Rattle.std.specs.Prelude.{◌↔◌, IfOk, IsTrue};
ghost use Rattle.teg_parts.specs.Partitions.{AreParts};

use crate::components::components;
use crate::numbering::{inner_marks, parts_in_order};
use crate::parts::Parts;
use std::alloc::Global;
use teg_net::{Net, OutOfMemory};

/// The parts of a net: two transitions have one part exactly where each reaches the other by a
/// path, the empty path included (chapter 2). Numbers are given from 0 on: a part may take the next
/// number where each other part that lies upstream of it has one, and among those that may, the
/// part of the lowest numbered transition takes it. So numbers never fall along a place.
///
/// The parts are found by two searches for each, along the places and against them, and each number
/// costs a pass over the places: n parts take time of n times the places. `OutOfMemory` comes only
/// where no memory is found.
pub fn split(alloc: Global, net: &Net) -> Result<Parts, OutOfMemory>
    ensures { IfOk result (λ parts. AreParts net.now parts) }
{
    let found = components(alloc, net)?;
    let (part_of, count) = parts_in_order(alloc, net, &found)?;
    let inner = inner_marks(alloc, net, &part_of, count)?;
    Ok(Parts::new(part_of, inner))
}

/// Whether these are the parts of the net (`AreParts`, chapter 2), as a value is where it was found
/// for another net: a net has one list of parts, so that they are those that `split` finds. It
/// takes the time of `split`. `OutOfMemory` comes only where no memory is found.
pub fn are_parts(alloc: Global, net: &Net, parts: &Parts) -> Result<bool, OutOfMemory>
    ensures { IfOk result (λ are. IsTrue are ↔ AreParts net.now parts.now) }
{
    let own = split(alloc, net)?;
    Ok(own.is_same(parts))
}
