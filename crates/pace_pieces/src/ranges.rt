//! The pieces of a range of a holding time, by cuts where lines cross.
ghost use Rattle.std.specs.Prelude.{◌+◌, ◌<◌, ◌≤◌, ◌≡◌, length, IfNone, IfOk, IfSome, OnOk};
ghost use Rattle.teg_net.specs.GreatestRatios.{HasNoCircuit, IsAnyPlace};
ghost use Rattle.teg_net.specs.Limits.{greatest_hold};
ghost use Rattle.pace_pieces.specs.Pieces.{AreBestAtEnds, ArePieces, IsBestThere};

use crate::lines::{Line, line_of};
use crate::pieces::{Piece, add};
use std::alloc::Global;
use teg_check::LiveNet;
use teg_net::{OutOfMemory, PlaceId, holds_keep_circuits};
use whatif::bottleneck_with_hold;

// A holding time, and the line of a circuit that has the greatest ratio there.
#[derive(Drop)]
pub(crate) struct BestLine {
    pub(crate) hold: u64,
    pub(crate) line: Line,
}

// The line of a circuit of greatest ratio at a holding time; none where the net has no circuit.
fn best_at(
    alloc: Global,
    held: &LiveNet,
    place: PlaceId,
    hold: u64,
) -> Result<Option<BestLine>, OutOfMemory>
    requires place { place.index < length held.now.places }
    requires hold { hold ≤ greatest_hold }
    ensures { IfOk result (IsBestThere held.now place hold) }
{
    holds_keep_circuits();
    let Some(found) = bottleneck_with_hold(alloc, held, place, hold)? else {
        return Ok(None);
    };
    let line = line_of(held.net(), place, found.bottleneck);
    Ok(Some(BestLine { hold, line }))
}

// The last holding time up to which the first line is not below the second, of those from the first
// end on and before the second.
fn crossing(left: &BestLine, right: &BestLine) -> u64
    requires { left.now.hold < right.now.hold }
    ensures from { left.now.hold ≤ result }
    ensures before { result < right.now.hold }
{
    let (first, second) = (&left.line, &right.line);
    let ahead = (first.base.saturating_mul(second.tokens)).saturating_sub(
        second.base.saturating_mul(first.tokens),
    );
    let closing = (second.passes.saturating_mul(first.tokens)).saturating_sub(
        first.passes.saturating_mul(second.tokens),
    );
    let crossed = ahead / closing.max(1);
    crossed.max(left.hold).min(right.hold - 1)
}

// Adds the pieces between two ends.
fn cover(
    alloc: Global,
    held: &LiveNet,
    place: PlaceId,
    low: u64,
    left: BestLine,
    right: BestLine,
    pieces: &mut Vec<Piece>,
) -> Result<(), OutOfMemory>
    requires place { place.index < length held.now.places }
    requires ends { AreBestAtEnds held.now place left right }
    requires before { ArePieces held.now place low left.hold pieces.old.items }
    ensures { OnOk result (ArePieces held.now place low (right.hold + 1) pieces.new.items) }
{
    let (from, to) = (left.hold, right.hold);
    if from == to || left.line.is_at_least(&right.line, to) {
        let line = left.line;
        return add(held, place, low, pieces, Piece { from, to, line });
    }
    if right.line.is_at_least(&left.line, from) {
        let line = right.line;
        return add(held, place, low, pieces, Piece { from, to, line });
    }
    let middle = crossing(&left, &right);
    let (end, start) = (
        best_at(alloc, held, place, middle)?,
        best_at(alloc, held, place, middle + 1)?,
    );
    // It has circuits at each holding time, as it has at the ends.
    let (Some(end), Some(start)) = (end, start) else {
        return Ok(());
    };
    cover(alloc, held, place, low, left, end, pieces)?;
    cover(alloc, held, place, low, start, right, pieces)
}

/// The pace of a live net as a function of the holding time of a place, over a range of it up to
/// 1,000,000,000, in the user's unit: pieces from the least holding time on, one after the other,
/// each with a circuit that has the greatest ratio of the net at each holding time of the piece, and
/// with this ratio as a line; none exactly where the net has no circuit (chapter 2).
///
/// The net stays as it is. `OutOfMemory` comes only where no memory is found. It takes the time of
/// `bottleneck_with_hold` of `whatif` some four times for each piece.
pub fn pace_by_hold(
    alloc: Global,
    held: &LiveNet,
    place: PlaceId,
    from: u64,
    to: u64,
) -> Result<Option<Vec<Piece>>, OutOfMemory>
    requires place { place.index < length held.now.places }
    requires range { from ≤ to }
    requires hold { to ≤ greatest_hold }
    ensures none { IfOk result (λ found. IfNone found (HasNoCircuit held.now IsAnyPlace)) }
    ensures pieces { IfOk result (λ found. IfSome found (λ pieces. ArePieces held.now place from
        (to + 1) pieces.items)) }
{
    let Some(left) = best_at(alloc, held, place, from)? else {
        return Ok(None);
    };
    let Some(right) = best_at(alloc, held, place, to)? else {
        return Ok(None);
    };
    let mut pieces = Vec::new(alloc);
    cover(alloc, held, place, from, left, right, &mut pieces)?;
    Ok(Some(pieces))
}
