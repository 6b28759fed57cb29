//! The least dates at the firings of a due list, taken from one row of dates after another.
ghost use Rattle.std.specs.Prelude.{◌≡◌, ◌≤◌, ℕ, length, All, IfOk};
ghost use Rattle.date_rows.specs.dioid.declared.dates.Date.{Date};
ghost use Rattle.teg_check.specs.Ranks.{IsRanking};
ghost use Rattle.date_rows.specs.teg_model.Datings.{IsLeastDating};
ghost use Rattle.date_rows.specs.Streams.{AreFirstRowsOf};
ghost use Rattle.date_rows.specs.DateTables.{most_numbers};
ghost use Rattle.teg_jit.specs.DueDates.{NameFirings};
ghost use Rattle.teg_jit.specs.DueNumbers.{AreRowsNumbered, AreAsked, HaveRow, HaveLastRow, NoRowsGiven, AreDatesOfRows};

use date_rows::FirstRows;
use std::alloc::{AllocError, Global};
use teg_check::Live;
use teg_due::DueRow;
use teg_net::{Net, OutOfMemory};

// The number of the firing that a row names, and the index of the row.
#[derive(Clone, Copy, Drop)]
pub(crate) struct Numbered {
    pub(crate) number: u32,
    pub(crate) index: usize,
}

// The rows of a due list for a net, and these by number.
#[derive(Drop)]
struct AskedRows<'a> {
    net: &'a Net,
    rows: &'a [DueRow],
    order: &'a [Numbered],
}

// The rows in the order of their numbers.
fn by_number(alloc: Global, rows: &[DueRow]) -> Result<Vec<Numbered>, AllocError>
    ensures { IfOk result (λ order. AreRowsNumbered rows.now order.items) }
{
    let mut order = Vec::new(alloc);
    for (index, row) in rows.iter().enumerate() {
        order.push(Numbered {
            number: row.number,
            index,
        })?;
    }
    order.sort_by_key(|o| o.number)?;
    Ok(order)
}

// Goes on to the dates of this number.
fn go_on(net: &Net, first: &mut FirstRows, cells: &mut [u64], number: u32)
    requires stands { HaveLastRow net.now first.old cells.old }
    requires number { first.old.window.number ≤ number }
    requires few { number ≤ most_numbers }
    requires full { length cells.old ≡ length net.now.transitions }
    ensures stands { AreFirstRowsOf net.now first.new }
    ensures number { first.new.window.number ≡ number }
    ensures row { HaveRow net.now number cells.new }
{
    for _done in first.number()..u64::from(number) {
        first.next_row(net, cells);
    }
}

// Takes the date of each row's firing from the row of dates of its number.
fn take_dates(asked: &AskedRows<'_>, first: &mut FirstRows, cells: &mut [u64], dates: &mut [u64])
    requires asked { AreAsked asked.now.net.now asked.now.rows.now asked.now.order.now }
    requires begins { NoRowsGiven asked.now.net.now first.old }
    requires cells { length cells.old ≡ length asked.now.net.now.transitions }
    requires dates { length dates.old ≡ length asked.now.rows.now }
    ensures { (x : ℕ → ℕ → Date) → IsLeastDating asked.now.net.now x
        → AreDatesOfRows x asked.now.rows.now dates.new }
{
    for at in asked.order {
        let row = asked.rows[at.index];
        go_on(asked.net, first, cells, row.number);
        dates[at.index] = cells[row.transition.index as usize];
    }
}

// The dates of the rows' firings by the least dating of the net.
pub(crate) fn dates_of_rows(
    alloc: Global,
    net: &Net,
    live: &Live,
    rows: &[DueRow],
) -> Result<Vec<u64>, OutOfMemory>
    requires stands { IsRanking net.now live.now }
    requires due { NameFirings net.now rows.now }
    requires few { All (λ r. r.number ≤ most_numbers) rows.now }
    ensures dates { IfOk result (λ dates. (x : ℕ → ℕ → Date) → IsLeastDating net.now x
        → AreDatesOfRows x rows.now dates.items) }
    ensures exists { IfOk result (λ _. (x : ℕ → ℕ → Date) × IsLeastDating net.now x) }
{
    let order = by_number(alloc, rows)?;
    let asked = AskedRows {
        net,
        rows,
        order: &order,
    };
    let mut cells = vec![in alloc; 0u64; net.transitions().len()]?;
    let mut dates = vec![in alloc; 0u64; rows.len()]?;
    let mut first = FirstRows::new(alloc, net, live)?;
    take_dates(&asked, &mut first, &mut cells, &mut dates);
    Ok(dates)
}
