//! Rows that have the walk series and the due series of the row before.
ghost use Rattle.std.specs.Prelude.{◌<◌, length, IsTrue};
ghost use Rattle.teg_forever.specs.Alike.{HaveSameWalks};
ghost use Rattle.teg_forever.specs.Divisions.{AreDivisions, IsAsBefore};

use crate::asked::InputRows;
use crate::divisions::Divisions;
use teg_net::TransitionId;
use walks_by_ends::InputTimes;

// Whether the form tells the same dates of two transitions.
fn have_same_walks(settled: &InputTimes<'_>, first: TransitionId, other: TransitionId) -> bool
    requires first { first.index < length settled.now.rows }
    requires other { other.index < length settled.now.rows }
    ensures { IsTrue result → HaveSameWalks settled.now first.index other.index }
{
    if settled.step(first) != settled.step(other) {
        return false;
    }
    settled.has_same_row(first, other)
}

// Whether the row has the walk series and the due series of the one before.
pub(crate) fn is_as_before(asked: &InputRows<'_>, place: usize, divisions: &Divisions) -> bool
    requires some { 0 < place }
    requires place { place < length asked.now.rows }
    requires divisions { AreDivisions asked.now.rows divisions.now }
    ensures { IsTrue result → IsAsBefore asked.now.net asked.now.rows asked.now.input.index place }
{
    if divisions.first(place) != divisions.first(place - 1) {
        return false;
    }
    let (row, before) = (asked.row(place), asked.row(place - 1));
    have_same_walks(asked.settled(), row.transition, before.transition)
}
