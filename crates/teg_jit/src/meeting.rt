//! The latest dates of a due list that inputs at 0 meet, going back from the greatest number.
ghost use Rattle.std.specs.Prelude.{◌≡◌, IfOk};
ghost use Rattle.teg_net.specs.Nets.{IsNet};
ghost use Rattle.teg_check.specs.Ranks.{IsRanking};
ghost use Rattle.due_laws.specs.MeetingDueDates.{InputsMeet, inputs_at_zero};
ghost use Rattle.teg_due.specs.RowRules.{due_in};
ghost use Rattle.teg_jit.specs.GoingBack.{AreListedUpTo};
ghost use Rattle.teg_jit.specs.Plans.{IsPlanFor};

use crate::order::by_depth;
use crate::passes::{begin, pass_next, pass_places};
use crate::plan::Plan;
use crate::transposed_list::TransposedList;
use std::alloc::{AllocError, Global};
use teg_check::Live;
use teg_due::DueRow;
use teg_net::Net;

// The latest dates where the least dating with all inputs 0 keeps the due dates.
pub(crate) fn plan_for(
    alloc: Global,
    net: &Net,
    live: &Live,
    rows: &[DueRow],
    last: u32,
) -> Result<Plan, AllocError>
    requires stands { IsRanking net.now live.now }
    requires due { AreListedUpTo net.now rows.now last }
    requires kept { InputsMeet net.now (due_in rows.now) inputs_at_zero }
    ensures rules { IfOk result (λ _. IsNet net.now) }
    ensures numbers { IfOk result (λ plan. plan.numbers ≡ last) }
    ensures plan { IfOk result (λ plan. IsPlanFor net.now (due_in rows.now) plan) }
{
    let order = by_depth(alloc, net, live)?;
    let mut dates = begin(alloc, net, rows, last)?;
    for done in 0..last {
        let number = last - done;
        pass_next(net, &mut dates, last, number);
        pass_places(net, &order, &mut dates, last, number);
    }
    let width = net.transitions().len();
    let dates = TransposedList::new(alloc, width, last as usize, &dates)?;
    Ok(Plan::new(width, last, dates))
}
