//! The latest inputs of a due list.
ghost use Rattle.std.specs.Prelude.{◌≡◌, IfOk, IfErr};
ghost use Rattle.teg_check.specs.Ranks.{IsRanking};
ghost use Rattle.teg_form.specs.StandardForms.{IsStandardFormOf};
ghost use Rattle.due_laws.specs.MeetingDueDates.{InputsMeet, AreLatestInputs, inputs_at_zero};
ghost use Rattle.teg_due.specs.RowRules.{IsDueOf, due_in};
ghost use Rattle.teg_jit.specs.LateRefusals.{LateIsRight};
ghost use Rattle.teg_jit.specs.DueDates.{IsGreatestNumber};
ghost use Rattle.teg_jit.specs.Plans.{dates_of_plan, IsPlanFor};

use crate::answers::JitRefusal;
use crate::due_dates::greatest_number;
use crate::late::keep_dues;
use crate::meeting::plan_for;
use crate::plan::Plan;
use std::alloc::Global;
use teg_check::Live;
use teg_due::Due;
use teg_form::Form;
use teg_net::Net;

/// The latest date of each firing up to the greatest number that is due, each with the first step
/// of a walk by which it is attained; at the inputs these are the latest inputs that meet every due
/// date (chapter 5). The input lists of the net play no part, since the inputs are to be found.
/// `Late` comes exactly where the least dating with all inputs at 0 exceeds a due date: it names
/// the first such row, its date there, and a walk that ends at its firing and whose start plus time
/// is that date. `OutOfMemory` comes only where no memory is found. It takes time of order
/// `N (n + p)` for N numbers, n transitions and p places, and `r log r` for r due dates, and memory
/// of 16 bytes for each of `N n` firings, of which the plan keeps eight.
pub fn latest_inputs(alloc: Global, net: &Net, live: &Live, due: &Due) -> Result<Plan, JitRefusal>
    requires stands { IsRanking net.now live.now }
    requires due { IsDueOf net.now due.now.rows.items }
    ensures numbers { IfOk result (λ plan. IsGreatestNumber due.now.rows.items plan.numbers) }
    ensures plan { IfOk result (λ plan. IsPlanFor net.now (due_in due.now.rows.items) plan) }
    ensures inputs { IfOk result (λ plan. AreLatestInputs net.now (due_in due.now.rows.items)
        (dates_of_plan plan)) }
    ensures in_time { IfOk result (λ _. InputsMeet net.now (due_in due.now.rows.items)
        inputs_at_zero) }
    ensures late { IfErr result (LateIsRight net.now due.now.rows.items) }
{
    let last = greatest_number(&due.rows);
    keep_dues(alloc, net, live, &due.rows)?;
    Ok(plan_for(alloc, net, live, &due.rows, last)?)
}

/// The same for a caller that has the standard form, which plays no part: it is [`latest_inputs`].
pub fn latest(
    alloc: Global,
    net: &Net,
    live: &Live,
    form: &Form,
    due: &Due,
) -> Result<Plan, JitRefusal>
    requires stands { IsRanking net.now live.now }
    requires form { IsStandardFormOf net.now form.now }
    requires due { IsDueOf net.now due.now.rows.items }
    ensures numbers { IfOk result (λ plan. IsGreatestNumber due.now.rows.items plan.numbers) }
    ensures plan { IfOk result (λ plan. IsPlanFor net.now (due_in due.now.rows.items) plan) }
    ensures inputs { IfOk result (λ plan. AreLatestInputs net.now (due_in due.now.rows.items)
        (dates_of_plan plan)) }
    ensures in_time { IfOk result (λ _. InputsMeet net.now (due_in due.now.rows.items)
        inputs_at_zero) }
    ensures late { IfErr result (LateIsRight net.now due.now.rows.items) }
{
    latest_inputs(alloc, net, live, due)
}
