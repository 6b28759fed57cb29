//! The witness of `teg jit` where no inputs meet the due dates: a walk, and the first rows of the
//! least dating.
ghost use Rattle.std.specs.Prelude.{pos, ◌≡◌, ◌<◌, ◌≤◌, ◌↔◌, All, IfOk, IfSome, IsTrue};
ghost use Rattle.dioid.specs.Dates.{IsAtMostDate};
ghost use Rattle.dioid.specs.declared.dates.Date.TheVariants.{At};
ghost use Rattle.teg_net.specs.Limits.{most_transitions};
ghost use Rattle.teg_due.specs.RowRules.{IsDueRow};
ghost use Rattle.dating_certificates.specs.CheckedRows.{AreRowsOf, date_in_rows};
ghost use Rattle.dating_check.specs.FirstLate.{AreLeastUpTo, IsFirstLate, IsFirstLateBy, IsFirstUnkept, IsRowOfLate, IsShownFirstLate};

use crate::due_rows::is_due_list;
use crate::late::shown_late;
use crate::rows::{date_in_rows, greatest_number};
use dating_certificates::{check_rows, least_dates};
use dioid::Date;
use late_lines::LateFiring;
use std::alloc::Global;
use teg_due::{Due, DueRow};
use teg_net::{Net, OutOfMemory};
use witness_check::is_seen_live;

// Whether the date is at most the due date of the row.
fn is_kept(date: Date, row: &DueRow) -> bool
    ensures { IsTrue result ↔ IsAtMostDate date (At (pos row.now.date)) }
{
    match date {
        Date::Early => true,
        Date::At(date) => date <= i128::from(row.date),
        Date::Never => false,
    }
}

// Whether the row is that of the firing and its due date, which is before its least date, the date
// that is given.
fn is_late_row(date: Date, row: &DueRow, late: LateFiring) -> bool
    ensures row { IsTrue result → IsRowOfLate late row.now }
    ensures least { IsTrue result → date ≡ At (pos late.least) }
    ensures late { IsTrue result → late.due < late.least }
{
    let Date::At(date) = date else {
        return false;
    };
    row.transition == late.transition
        && row.number == late.number
        && row.date == late.due
        && 0 <= date
        && date as u128 == late.least
        && u128::from(late.due) < late.least
}

// The first row that the dates do not keep.
fn first_unkept(width: usize, dates: &[Date], rows: &[DueRow]) -> Option<usize>
    requires width { width ≤ most_transitions }
    requires numbers { All (λ r. 1 ≤ r.number) rows.now }
    ensures { IfSome result (IsFirstUnkept (date_in_rows width dates.now) rows.now) }
{
    for (index, row) in rows.iter().enumerate() {
        let date = date_in_rows(width, dates, row.transition, row.number);
        if !is_kept(date, row) {
            return Some(index);
        }
    }
    None
}

// Whether the firing is that of the first row that the dates do not keep.
fn is_first_late(width: usize, dates: &[Date], rows: &[DueRow], late: LateFiring) -> bool
    requires width { width ≤ most_transitions }
    requires numbers { All (λ r. 1 ≤ r.number) rows.now }
    ensures { IsTrue result → IsFirstLateBy (date_in_rows width dates.now) rows.now late }
{
    let Some(index) = first_unkept(width, dates, rows) else {
        return false;
    };
    let row = rows[index];
    let date = date_in_rows(width, dates, row.transition, row.number);
    is_late_row(date, &row, late)
}

// Whether the dates are rows up to this number.
fn are_rows(net: &Net, dates: &[Date], numbers: u32) -> bool
    ensures { IsTrue result → AreRowsOf net.now dates.now numbers }
{
    (numbers as usize).checked_mul(net.transitions().len()) == Some(dates.len())
}

// Whether the dates are those of the least dating of the net up to this number.
fn are_least(alloc: Global, net: &Net, dates: &[Date], numbers: u32) -> Result<bool, OutOfMemory>
    ensures { IfOk result (λ yes. IsTrue yes → AreLeastUpTo net.now dates.now numbers) }
{
    net.rules();
    if !is_seen_live(alloc, net)? || !are_rows(net, dates, numbers) {
        return Ok(false);
    }
    Ok(check_rows(alloc, net, dates)?)
}

// Whether the firing is that of the first row that the least dating with all inputs at 0 does not
// keep.
fn is_least(
    alloc: Global,
    net: &Net,
    rows: &[DueRow],
    late: LateFiring,
) -> Result<bool, OutOfMemory>
    requires { All (IsDueRow net.now) rows.now }
    ensures { IfOk result (λ yes. IsTrue yes → IsFirstLate net.now rows.now late) }
{
    let bare = net.without_inputs(alloc)?;
    let numbers = greatest_number(rows);
    let dates = least_dates(alloc, &bare, numbers)?;
    if !are_least(alloc, &bare, &dates, numbers)? {
        return Ok(false);
    }
    Ok(is_first_late(bare.transitions().len(), &dates, rows, late))
}

/// What the text of `teg jit` tells of due dates that cannot be met, where it is shown to be the
/// answer (chapter 5): the net is seen to be live, the firing is that of the first row of the list
/// that the least dating with all inputs at 0 does not keep, the date that is told as least is its
/// date there, so that it can come then and no earlier, and the walk leads to it. So no inputs meet
/// what is due. The whole text is looked at. No rows that are no due list of the net show anything.
/// It takes memory for a date of each transition up to the greatest number that is due, and time of
/// the order transitions times places a number. `OutOfMemory` comes only where no memory is found.
pub fn shown_first_late(
    alloc: Global,
    net: &Net,
    due: &Due,
    text: &str,
) -> Result<Option<LateFiring>, OutOfMemory>
    ensures { IfOk result (λ shown. IfSome shown
        (IsShownFirstLate net.now due.now.rows.items text.now)) }
{
    let Some(late) = shown_late(alloc, net, text)? else {
        return Ok(None);
    };
    if !is_due_list(alloc, net, due)? || !is_seen_live(alloc, net)? {
        return Ok(None);
    }
    if !is_least(alloc, net, &due.rows, late)? {
        return Ok(None);
    }
    Ok(Some(late))
}
