//! A stretch of rows past a number, up to a jump or to its last number.
ghost use Rattle.std.specs.Prelude.{◌≡◌, ◌<◌, ◌≤◌, IfOk};
ghost use Rattle.teg_net.specs.Limits.{most_rows};
ghost use Rattle.date_rows.specs.PlaceOrder.{OrdersPlaces};
ghost use Rattle.run_rows.specs.Stretches.{AreReached, AreRowsFrom, IsStretch};

use crate::extent::Extent;
use crate::jump::jump;
use crate::past::Past;
use crate::ranked::RankedNet;
use crate::reached::Reached;
use crate::runs::EvenRun;
use date_rows::{PlaceOrder, Rows};
use std::alloc::Global;
use teg_net::OutOfMemory;

// The rows past a number, and the jump after them, if there is one.
#[derive(Drop)]
pub(crate) struct Stretch {
    pub(crate) rows: Rows,
    pub(crate) jump: Option<EvenRun>,
}

// As many rows past the number as asked, from fewer on.
fn grow(
    ranked: &RankedNet<'_>,
    order: &PlaceOrder,
    past: &Past<'_>,
    rows: Rows,
    count: u64,
) -> Result<Rows, OutOfMemory>
    requires order { OrdersPlaces ranked.now.net.now order.now }
    requires rows { AreRowsFrom ranked.now.net.now ranked.now.most past.now.after
        past.now.runs.now.runs
        rows }
    requires more { rows.count ≤ count }
    requires few { count ≤ most_rows }
    ensures rows { IfOk result (AreRowsFrom ranked.now.net.now ranked.now.most past.now.after
        past.now.runs.now.runs) }
    ensures count { IfOk result (λ rows. rows.count ≡ count) }
{
    // The net keeps its rules.
    ranked.net.rules();
    let mut rows = rows;
    for _number in rows.count()..count {
        rows = if past.after == 0 {
            rows.with_next_in_cells(ranked.net, order, past)?
        } else {
            rows.with_next(ranked.net, order, past)?
        };
    }
    Ok(rows)
}

// The rows past a number up to one after which they jump, or up to the last number, or so many: the
// rows are doubled until they jump, so that it takes few more rows than the jump needs.
pub(crate) fn next_stretch(
    alloc: Global,
    ranked: &RankedNet<'_>,
    order: &PlaceOrder,
    reached: &Reached,
    extent: Extent,
) -> Result<Stretch, OutOfMemory>
    requires order { OrdersPlaces ranked.now.net.now order.now }
    requires reached { AreReached ranked.now.net.now ranked.now.most reached.now }
    requires before { reached.now.after < extent.number }
    ensures { IfOk result (IsStretch ranked.now.net.now ranked.now.most reached.now.after
        extent.number) }
{
    let after = reached.after;
    let past = Past {
        runs: &reached.runs,
        after,
    };
    let last = extent.room.min(extent.number - after);
    let mut rows = Rows::new(alloc, ranked.net);
    let mut stage = (ranked.most + 8).min(last);
    'stretch: while rows.count() < last {
        rows = grow(ranked, order, &past, rows, stage)?;
        match jump(alloc, ranked, &rows, after, extent.number)? {
            Some(run) => {
                let jump = Some(run);
                return Ok(Stretch { rows, jump });
            }
            None => {}
        }
        stage = (2 * stage).min(last);
    }
    Ok(Stretch { rows, jump: None })
}
