//! The greatest sums of two lists of which the second goes on: those with what there was of it are
//! found at once, piece by piece, and the others as it goes on.
ghost use Rattle.std.specs.Prelude.{◌≡◌, ◌≤◌, ◌<◌, [], IfOk, length};
ghost use Rattle.series_ops.specs.ListFunctions.{value_listed};
ghost use Rattle.series_ops.specs.Pieces.{window, IsPieceBegun, IsSpanOf};

use crate::cells::{Cells, greatest_split};
use crate::pieces::sums_in_few_pieces;
use crate::splits::{Span, places};
use dioid::Date;
use std::alloc::{AllocError, Global};

// By how many values the second list goes on between two such findings.
const STRIDE: usize = 4096;

// The greatest sums with the first `count` values of the second list, at the first shifts; none
// where they are not known.
#[derive(Drop)]
pub(crate) struct Beginning {
    count: usize,
    sums: Vec<Date>,
}

// No sums.
pub(crate) fn nothing_begun(alloc: Global) -> Beginning
    ensures count { result.count ≡ 0 }
    ensures sums { result.sums.items ≡ [] }
{
    Beginning {
        count: 0,
        sums: Vec::new(alloc),
    }
}

// The sums that were known over the first places, or where the second list has gone on by so many
// values those with all of it.
pub(crate) fn renewed(
    alloc: Global,
    old: Beginning,
    first: &Cells,
    second: &Cells,
    span: Span,
) -> Result<Beginning, AllocError>
    requires span { IsSpanOf first.now span }
    requires first_places { span.from ≡ 0 }
    requires long { length second.now ≤ 20001 }
    requires old { IsPieceBegun old.count old.sums.items first.now second.now span.count }
    ensures { IfOk result (λ begun. IsPieceBegun begun.count begun.sums.items first.now second.now
        span.count) }
{
    let count = second.len();
    if count % STRIDE != 1 {
        return Ok(old);
    }
    let sums = sums_in_few_pieces(alloc, first, second, count + STRIDE, span)?;
    Ok(Beginning { count, sums })
}

// The greatest sum at a shift whose first part is at one of the first `most` places.
pub(crate) fn greatest_begun(
    begun: &Beginning,
    first: &Cells,
    second: &Cells,
    shift: usize,
    most: usize,
) -> Date
    requires first { most ≤ length first.now }
    requires second { shift < length second.now }
    requires begun { IsPieceBegun begun.now.count begun.now.sums.items first.now second.now most }
    ensures { result ≡ window (value_listed first.now) (value_listed second.now) 0 most shift }
{
    let known = begun.sums.as_slice();
    if shift < known.len() {
        let count = places(begun.count, most, shift);
        let near = greatest_split(first, second, shift, 0, count);
        return near.later(known[shift]);
    }
    greatest_split(first, second, shift, 0, places(0, most, shift))
}
