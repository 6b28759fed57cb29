//! Ranges of a holding time in which one circuit has the greatest ratio.
ghost use Rattle.std.specs.Prelude.{◌<◌, ◌+◌, length, OnOk};
ghost use Rattle.pace_pieces.specs.Pieces.{ArePieces, IsRangeOf};

use crate::lines::Line;
use teg_check::LiveNet;
use teg_net::{OutOfMemory, PlaceId};

/// Holding times of a place, from one to another, at which one circuit has the greatest ratio of the
/// net (chapter 2).
#[derive(Debug, Drop)]
pub struct Piece {
    /// The least of them, in the user's unit.
    pub from: u64,
    /// The greatest.
    pub to: u64,
    /// The ratio, and the circuit that has it.
    pub line: Line,
}

// Adds a piece; where the circuit of the piece before has its ratio too, that one goes on.
pub(crate) fn add(
    held: &LiveNet,
    place: PlaceId,
    low: u64,
    pieces: &mut Vec<Piece>,
    piece: Piece,
) -> Result<(), OutOfMemory>
    requires place { place.index < length held.now.places }
    requires before { ArePieces held.now place low piece.from pieces.old.items }
    requires piece { IsRangeOf held.now place piece }
    ensures { OnOk result (ArePieces held.now place low (piece.to + 1) pieces.new.items) }
{
    let _held = held;
    let _place = place;
    let _low = low;
    let Some(mut last) = pieces.pop() else {
        return Ok(pieces.push(piece)?);
    };
    if last.line.is_at_least(&piece.line, piece.to) {
        last.to = piece.to;
        return Ok(pieces.push(last)?);
    }
    pieces.push(last)?;
    Ok(pieces.push(piece)?)
}
