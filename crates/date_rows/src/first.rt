//! The dates of the first firings.
ghost use Rattle.std.specs.Prelude.{◌≡◌, ◌≤◌, length, IfOk};
ghost use Rattle.teg_check.specs.Ranks.{IsRanking};
ghost use Rattle.date_rows.specs.DateTables.{most_numbers, HasLeastDates, HasDatesOfWalks};

use crate::order::PlaceOrder;
use crate::rows::Rows;
use crate::sources::NetInputs;
use crate::table::Table;
use std::alloc::Global;
use teg_check::Live;
use teg_net::{Net, OutOfMemory};

/// The least dates of numbers 1 to `count` of each transition of a live net, with its ready dates
/// and its input lists (chapter 2): no firing can come earlier, and each comes when its last token
/// is there, an initial one from its ready date on, and, for an input, its date. `Early` does not
/// come; `Never` is the date of a firing that waits for one past the end of a list. `count` is at
/// most 10,000. It takes time of order `count (n + p)` for n transitions and p places.
/// `OutOfMemory` comes only where no memory is found.
pub fn first_dates(alloc: Global, net: &Net, live: &Live, count: u32) -> Result<Table, OutOfMemory>
    requires stands { IsRanking net.now live.now }
    requires few { count ≤ most_numbers }
    ensures width { IfOk result (λ table. table.width ≡ length net.now.transitions) }
    ensures count { IfOk result (λ table. table.count ≡ count) }
    ensures least { IfOk result (λ table. HasLeastDates net.now table) }
    ensures walks { IfOk result (λ table. HasDatesOfWalks net.now table) }
{
    let order = PlaceOrder::new(alloc, net, live)?;
    let mut rows = Rows::new(alloc, net);
    for _number in 0..count {
        rows = rows.with_next_in_cells(net, &order, &NetInputs)?;
    }
    Ok(Table::new(rows))
}
