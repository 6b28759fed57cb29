//! By what the dates of rows move in each period.
ghost use Rattle.std.specs.Prelude.{ℕ, ◌≡◌, ◌<◌, ◌^◌, Decides, IfOk, length, pos, slice_index_or};
ghost use Rattle.teg_net.specs.Nets.{IsNet};
ghost use Rattle.dioid.specs.Dates.{move};
ghost use Rattle.periodic_laws.specs.teg_model.DateBounds.{IsDateWithin};
ghost use Rattle.teg_settle.specs.ComparedRows.{AreComparedRows, read_step};

use date_rows::Rows;
use dioid::Date;
use std::alloc::{AllocError, Global};
use teg_net::{Net, TransitionId};

// Whether the step leads from one date to the other.
pub(crate) fn is_step(early: Date, late: Date, step: i128) -> bool
    requires early { IsDateWithin (2 ^ 126) early }
    requires late { IsDateWithin (2 ^ 126) late }
    ensures { Decides result (late ≡ move step early) }
{
    match (early, late) {
        (Date::Early, Date::Early) => true,
        (Date::At(early), Date::At(late)) => late - early == step,
        (Date::Never, Date::Never) => true,
        _ => false,
    }
}

// By what the dates of the transition move in the last period of the rows, 0 where they are no
// numbers.
pub(crate) fn step_in(net: &Net, rows: &Rows, period: u64, transition: TransitionId) -> i128
    requires window { AreComparedRows net.now rows.now period }
    requires transition { transition.index < length net.now.transitions }
    ensures { result ≡ read_step rows.now period transition.index }
{
    let last = rows.count();
    match (
        rows.date(transition, last - period),
        rows.date(transition, last),
    ) {
        (Date::At(early), Date::At(late)) => late - early,
        _ => 0,
    }
}

// The steps of the last period of the rows.
pub(crate) fn steps_of(
    alloc: Global,
    net: &Net,
    rows: &Rows,
    period: u64,
) -> Result<Vec<i128>, AllocError>
    requires window { AreComparedRows net.now rows.now period }
    ensures rules { IsNet net.now }
    ensures count { IfOk result (λ steps. length steps.items ≡ length net.now.transitions) }
    ensures each { IfOk result (λ steps. (t : ℕ) → t < length net.now.transitions
        → slice_index_or steps.items t (pos 0) ≡ read_step rows.now period t) }
{
    let mut steps = Vec::new(alloc);
    for index in 0..net.transitions().len() {
        let id = TransitionId {
            index: index as u32,
        };
        steps.push(step_in(net, rows, period, id))?;
    }
    Ok(steps)
}
