//! Lists of dates that are not those of the net.
ghost use Rattle.std.specs.Prelude.{ℕ, ◌↔◌, IfOk, IsSome, IsTrue, length};
ghost use Rattle.teg_net.specs.Circuits.{IsLive};
ghost use Rattle.dating_certificates.specs.CheckedRows.{AreFirstRows, AreRowsOf, date_in_rows};
ghost use Rattle.answer_check.specs.ListReading.{IsOtherRow};
ghost use Rattle.answer_check.specs.ShownLists.{IsOtherList, IsShownList, RefutesList};

use crate::list::lines_of;
use crate::list_reading::list_in;
use dating_certificates::check_rows;
use dioid::Date;
use std::alloc::Global;
use teg_model::least_datings_exist;
use teg_net::{Net, OutOfMemory};
use witness_check::is_seen_live;

// Whether the dates are just so many rows.
fn are_rows(net: &Net, count: u32, dates: &[Date]) -> bool
    ensures { IsTrue result ↔ AreRowsOf net.now dates.now count }
{
    (count as usize).checked_mul(net.transitions().len()) == Some(dates.len())
}

/// Whether the whole text is that of `teg list` for these dates, in the user's unit, rows up to this
/// number with one date for each transition, and they are not those of the least dating of the net,
/// which is live (chapter 2). Each date is looked at with what its firing waits for, until one is
/// another. It takes memory for the text, and time of order `n + p` a row for n transitions and p
/// places, and of order `n p` for whether the net is live. `OutOfMemory` comes only where no memory
/// is found.
pub fn is_other_list(
    alloc: Global,
    net: &Net,
    count: u32,
    dates: &[Date],
    text: &str,
) -> Result<bool, OutOfMemory>
    ensures { IfOk result (λ yes. IsTrue yes ↔ IsOtherList net.now count dates.now text.now) }
{
    if !is_seen_live(alloc, net)? {
        return Ok(false);
    }
    if !are_rows(net, count, dates) {
        return Ok(false);
    }
    if check_rows(alloc, net, dates)? {
        return Ok(false);
    }
    let lines = lines_of(alloc, net, count, dates)?;
    Ok(lines.as_str() == text)
}

// The number of the first of these rows that is not that of the least dating: it is looked for
// between a number up to which all rows are, and one up to which they are not, in halves.
fn first_other_row(alloc: Global, net: &Net, count: u32, dates: &[Date]) -> Result<u32, OutOfMemory>
    requires live { IsLive net.now }
    requires rows { AreRowsOf net.now dates.now count }
    requires other { AreFirstRows net.now dates.now → ⊥ }
    ensures { IfOk result (IsOtherRow net.now
        (date_in_rows (length net.now.transitions) dates.now) count) }
{
    net.rules();
    let width = net.transitions().len();
    let mut right = 0;
    let mut wrong = count;
    'halving: while right + 1 < wrong {
        let middle = right + (wrong - right) / 2;
        if check_rows(alloc, net, &dates[..middle as usize * width])? {
            right = middle;
        } else {
            wrong = middle;
        }
    }
    Ok(wrong)
}

/// The number of the row that refutes the text of `teg list`: the net is live, the whole text is
/// that of a list from number 1 up to a number below 2^32, with some word in the place of each date,
/// and this row is the first whose words are not the dates, in the user's unit, of the least dating
/// (chapter 2). So no number of firings is shown ([`shown_list`](crate::shown_list)).
///
/// There is none just where the net is not live, where the text is no such list, or where it is one
/// that is shown. It takes memory for its lines and its dates, and time of order `n + p` a row for n
/// transitions and p places, of a refuted list as often as its number has binary digits, and of
/// order `n p` for whether the net is live. `OutOfMemory` comes only where no memory is found.
pub fn refutes_list(alloc: Global, net: &Net, text: &str) -> Result<Option<u32>, OutOfMemory>
    ensures row { IfOk result (RefutesList net.now text.now) }
    ensures not_shown { IfOk result (λ row. IsSome row
        → (count : ℕ) → IsShownList net.now text.now count → ⊥) }
{
    net.rules();
    least_datings_exist();
    if !is_seen_live(alloc, net)? {
        return Ok(None);
    }
    let Some(told) = list_in(alloc, net, text)? else {
        return Ok(None);
    };
    let dates = told.dates.as_slice();
    if check_rows(alloc, net, dates)? {
        return Ok(None);
    }
    let row = first_other_row(alloc, net, told.count, dates)?;
    Ok(Some(row))
}
