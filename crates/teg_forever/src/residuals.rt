//! The meet over the rows of the residuals of their due series by the walk series of an input.
ghost use Rattle.std.specs.Prelude.{◌≡◌, ◌<◌, ◌≤◌, ◌+◌, Err, length, true, IfErr, IfOk, IfSome, IsTrue, OnOk};
ghost use Rattle.dioid.specs.ElementAnswers.{Answers};
ghost use Rattle.series_ops.specs.Gains.{gain_meet, MeetFits};
ghost use Rattle.teg_forever.specs.InputAnswers.{IsStopped};
ghost use Rattle.teg_forever.specs.Divisions.{AreDivisions, AreMet, IsMeetOver, IsMeetSoFar, IsRefusedAt, IsResidualOf, IsRowResidual, refusal_at};

use crate::alike::is_as_before;
use crate::asked::InputRows;
use crate::divisions::Divisions;
use crate::gains::walk_gain;
use crate::releases::ForeverRefusal;
use crate::steady::walk_residual;
use dioid::{Refused, Residuated};
use endless_due::EndlessRow;
use forever_laws::columns_exist;
use series_ops::Gain;
use std::alloc::Global;
use teg_net::TransitionId;

// Why an operation on the series of a row of the input gives none.
fn refusal_at(why: Refused, input: TransitionId, row: &EndlessRow) -> ForeverRefusal
    ensures { result ≡ refusal_at why input row.now }
{
    match why {
        Refused::Range => ForeverRefusal::TooWide {
            input,
            row: row.row,
        },
        Refused::OutOfMemory => ForeverRefusal::OutOfMemory,
    }
}

// The meet over some rows, and whether it is known to stay where it meets the residual of the last
// of them once more.
#[derive(Drop)]
struct Meet {
    gain: Gain,
    stays: bool,
}

// Whether the meet of a series and a residual stays where it meets the residual once more.
fn stays(before: &Gain, residual: &Gain, meet: &Gain) -> bool
    requires { AreMet before.now residual.now meet.now }
    ensures { IsTrue result → AreMet meet.now residual.now meet.now }
{
    if meet.series.equals(&residual.series) {
        return true;
    }
    meet.series.equals(&before.series)
}

// The meet of two series. With itself a series is not gone through again.
fn met(alloc: Global, meet: Gain, residual: &Gain) -> Result<Meet, Refused>
    ensures met { IfOk result (λ m. AreMet meet residual.now m.gain) }
    ensures stays { IfOk result (λ m. IsTrue m.stays → AreMet m.gain residual.now m.gain) }
    ensures misfit { IfErr result (λ why. Answers true (MeetFits meet residual.now)
        (gain_meet meet residual.now) (Err why)) }
{
    if meet.series.equals(&residual.series) {
        return Ok(Meet {
            gain: meet,
            stays: true,
        });
    }
    match meet.meet(alloc, residual) {
        Ok(less) => {
            let stays = stays(&meet, residual, &less);
            Ok(Meet { gain: less, stays })
        }
        Err(why) => Err(why),
    }
}

// The place of the residual of a row.
fn residual_at(
    alloc: Global,
    asked: &InputRows<'_>,
    place: usize,
    divisions: &mut Divisions,
) -> Result<usize, ForeverRefusal>
    requires place { place < length asked.now.rows }
    requires divisions { AreDivisions asked.now.rows divisions.old }
    ensures divisions { OnOk result (AreDivisions asked.now.rows divisions.new) }
    ensures residual { IfOk result (IsResidualOf asked.now.net asked.now.rows asked.now.input.index
        place divisions.new.list.items) }
    ensures refused { IfErr result (IsRefusedAt asked.now.net asked.now.rows asked.now.input place) }
{
    let row = asked.row(place);
    let walk = walk_gain(alloc, asked, row.transition)?;
    let due = divisions.first(place);
    match divisions.divide(alloc, asked.rows(), due, walk) {
        Ok(at) => Ok(at),
        Err(why) => Err(refusal_at(why, asked.input(), row)),
    }
}

// The residual of a row whose due series is steady, if the lead of its walk times tells it.
fn residual_by_lead(
    alloc: Global,
    asked: &InputRows<'_>,
    place: usize,
    divisions: &Divisions,
) -> Result<Option<Gain>, ForeverRefusal>
    requires place { place < length asked.now.rows }
    requires divisions { AreDivisions asked.now.rows divisions.now }
    ensures residual { IfOk result (λ told. IfSome told (IsRowResidual asked.now.net asked.now.rows
        asked.now.input.index place)) }
    ensures refused { IfErr result (IsRefusedAt asked.now.net asked.now.rows asked.now.input place) }
{
    let due = match divisions.steady(place) {
        Some(due) => due,
        None => return Ok(None),
    };
    let row = asked.row(place);
    match walk_residual(alloc, asked, row.transition, due) {
        Ok(told) => Ok(told),
        Err(why) => Err(refusal_at(why, asked.input(), row)),
    }
}

// The meet over the rows before this one and the residual of this one.
fn met_at(
    alloc: Global,
    asked: &InputRows<'_>,
    place: usize,
    meet: Gain,
    residual: &Gain,
) -> Result<Meet, ForeverRefusal>
    requires some { 0 < place }
    requires place { place < length asked.now.rows }
    requires over { IsMeetOver asked.now.net asked.now.rows asked.now.input.index place meet }
    requires residual { IsRowResidual asked.now.net asked.now.rows asked.now.input.index place
        residual.now }
    ensures meet { IfOk result (IsMeetSoFar asked.now.net asked.now.rows asked.now.input.index
        (place + 1)) }
    ensures refused { IfErr result (IsRefusedAt asked.now.net asked.now.rows asked.now.input place) }
{
    match met(alloc, meet, residual) {
        Ok(met) => Ok(met),
        Err(why) => Err(refusal_at(why, asked.input(), asked.row(place))),
    }
}

// The meet over the rows before this one, and over this one too.
fn with_row(
    alloc: Global,
    asked: &InputRows<'_>,
    place: usize,
    divisions: &mut Divisions,
    meet: Gain,
) -> Result<Meet, ForeverRefusal>
    requires some { 0 < place }
    requires place { place < length asked.now.rows }
    requires over { IsMeetOver asked.now.net asked.now.rows asked.now.input.index place meet }
    requires divisions { AreDivisions asked.now.rows divisions.old }
    ensures divisions { OnOk result (AreDivisions asked.now.rows divisions.new) }
    ensures meet { IfOk result (IsMeetSoFar asked.now.net asked.now.rows asked.now.input.index
        (place + 1)) }
    ensures refused { IfErr result (IsRefusedAt asked.now.net asked.now.rows asked.now.input place) }
{
    if let Some(residual) = residual_by_lead(alloc, asked, place, divisions)? {
        return met_at(alloc, asked, place, meet, &residual);
    }
    let at = residual_at(alloc, asked, place, divisions)?;
    met_at(alloc, asked, place, meet, divisions.residual(at))
}

// The meet over the first row.
fn first_meet(
    alloc: Global,
    asked: &InputRows<'_>,
    divisions: &mut Divisions,
) -> Result<Meet, ForeverRefusal>
    requires some { 1 ≤ length asked.now.rows }
    requires divisions { AreDivisions asked.now.rows divisions.old }
    ensures divisions { OnOk result (AreDivisions asked.now.rows divisions.new) }
    ensures meet { IfOk result (IsMeetSoFar asked.now.net asked.now.rows asked.now.input.index 1) }
    ensures refused { IfErr result (IsRefusedAt asked.now.net asked.now.rows asked.now.input 0) }
{
    if let Some(gain) = residual_by_lead(alloc, asked, 0, divisions)? {
        gain.series.period();
        return Ok(Meet { gain, stays: true });
    }
    let first = residual_at(alloc, asked, 0, divisions)?;
    let series = divisions.residual(first).series.duplicate(alloc)?;
    Ok(Meet {
        gain: Gain { series },
        stays: true,
    })
}

// The meet over the rows of the residuals of their due series by the walk series of an input, or
// the first row that does not fit. A row as the one before is not gone through again where the meet
// stays.
pub(crate) fn meet_of(
    alloc: Global,
    asked: &InputRows<'_>,
    divisions: &mut Divisions,
) -> Result<Gain, ForeverRefusal>
    requires some { 1 ≤ length asked.now.rows }
    requires divisions { AreDivisions asked.now.rows divisions.old }
    ensures divisions { OnOk result (AreDivisions asked.now.rows divisions.new) }
    ensures meet { IfOk result (IsMeetOver asked.now.net asked.now.rows asked.now.input.index
        (length asked.now.rows)) }
    ensures stopped { IfErr result (IsStopped asked.now.net asked.now.rows asked.now.input) }
{
    columns_exist();
    let count = asked.rows().len();
    let mut meet = first_meet(alloc, asked, divisions)?;
    for place in 1..count {
        if meet.stays && is_as_before(asked, place, divisions) {
            continue;
        }
        meet = with_row(alloc, asked, place, divisions, meet.gain)?;
    }
    Ok(meet.gain)
}
