//! Due dates that no inputs can meet.
ghost use Rattle.std.specs.Prelude.{◌≡◌, ◌≤◌, ℕ, [], ◌∷◌, length, IfOk, IfErr, IfNone, IfSome, All};
ghost use Rattle.date_rows.specs.dioid.declared.dates.Date.{Date};
ghost use Rattle.teg_net.specs.Nets.{IsNet};
ghost use Rattle.teg_net.specs.ReadyDates.{start_date};
ghost use Rattle.teg_check.specs.Ranks.{IsRanking};
ghost use Rattle.date_rows.specs.teg_model.Datings.{IsLeastUnder};
ghost use Rattle.date_rows.specs.DateTables.{most_numbers};
ghost use Rattle.due_laws.specs.MeetingDueDates.{InputsMeet, inputs_at_zero};
ghost use Rattle.due_laws.specs.LatestDates.{IsLateWalk};
ghost use Rattle.teg_due.specs.RowRules.{due_in};
ghost use Rattle.teg_jit.specs.DueDates.{NameFirings};
ghost use Rattle.teg_jit.specs.DueNumbers.{AreNumbersOfRows};
ghost use Rattle.teg_jit.specs.GoingBack.{AreListedUpTo};
ghost use Rattle.teg_jit.specs.LateRefusals.{KeepsRow, LateIsRight};
ghost use Rattle.teg_jit.specs.FirstLate.{HasLeastDate, IsFirstExceeded};

use crate::answers::JitRefusal;
use crate::due_numbers::dates_of_rows;
use crate::meeting::plan_for;
use crate::starts::first_at_start;
use std::alloc::Global;
use teg_check::Live;
use teg_due::DueRow;
use teg_net::{Net, OutOfMemory, Walk};

// A walk to the row's firing whose start plus time is the row's date, the firing's with all inputs
// at 0.
fn late_walk(alloc: Global, net: &Net, live: &Live, row: DueRow) -> Result<Walk, OutOfMemory>
    requires stands { IsRanking net.now live.now }
    requires listed { AreListedUpTo net.now (row ∷ []) row.number }
    requires least { HasLeastDate net.now row }
    ensures { IfOk result (λ walk. IsLateWalk net.now row.transition.index row.number
        (start_date net.now walk.start.index walk.number) row.date walk) }
{
    let plan = plan_for(alloc, net, live, &[row], row.number)?;
    let (transition, number) = first_at_start(net, &plan).unwrap();
    plan.walk(alloc, net, transition, number)
}

// The first row whose firing has a later date than it is due, and that date.
fn first_exceeded(rows: &[DueRow], dates: &[u64]) -> Option<(usize, u64)>
    requires count { length dates.now ≡ length rows.now }
    ensures none { IfNone result ((x : ℕ → ℕ → Date) → AreNumbersOfRows x rows.now dates.now
        → All (KeepsRow x) rows.now) }
    ensures some { IfSome result (λ first. (x : ℕ → ℕ → Date)
        → AreNumbersOfRows x rows.now dates.now → IsFirstExceeded x rows.now first.0 first.1) }
{
    for (index, row) in rows.iter().enumerate() {
        let least = dates[index];
        if row.date < least {
            return Some((index, least));
        }
    }
    None
}

// The first row that the least dating with all inputs at 0 exceeds, and its date there.
fn first_late(
    alloc: Global,
    net: &Net,
    live: &Live,
    rows: &[DueRow],
) -> Result<Option<(usize, u64)>, OutOfMemory>
    requires rules { IsNet net.now }
    requires stands { IsRanking net.now live.now }
    requires due { NameFirings net.now rows.now }
    requires few { All (λ r. r.number ≤ most_numbers) rows.now }
    ensures none { IfOk result (λ first. IfNone first (InputsMeet net.now (due_in rows.now)
        inputs_at_zero)) }
    ensures some { IfOk result (λ first. IfSome first (λ row. (x : ℕ → ℕ → Date)
        × IsLeastUnder net.now inputs_at_zero x × IsFirstExceeded x rows.now row.0 row.1)) }
{
    let bare = net.without_inputs(alloc)?;
    let dates = dates_of_rows(alloc, &bare, live, rows)?;
    Ok(first_exceeded(rows, &dates))
}

// Refuses the first row that the least dating with all inputs at 0 exceeds.
pub(crate) fn keep_dues(
    alloc: Global,
    net: &Net,
    live: &Live,
    rows: &[DueRow],
) -> Result<(), JitRefusal>
    requires stands { IsRanking net.now live.now }
    requires due { NameFirings net.now rows.now }
    requires few { All (λ r. r.number ≤ most_numbers) rows.now }
    ensures rules { IsNet net.now }
    ensures kept { IfOk result (λ _. InputsMeet net.now (due_in rows.now) inputs_at_zero) }
    ensures late { IfErr result (LateIsRight net.now rows.now) }
{
    net.rules();
    let Some((index, least)) = first_late(alloc, net, live, rows)? else {
        return Ok(());
    };
    let row = rows[index];
    let walk = late_walk(alloc, net, live, DueRow { date: least, ..row })?;
    let start = net.start_date(walk.start, walk.number);
    Err(JitRefusal::Late {
        transition: row.transition,
        number: row.number,
        due: row.date,
        least: u128::from(least),
        start,
        walk,
    })
}
