//! The due rows that are still to be met.
ghost use Rattle.std.specs.Prelude.{◌≡◌, ◌<◌, All, IfOk, length};
ghost use Rattle.std.specs.List.{filter_map};
ghost use Rattle.teg_due.specs.RowRules.{IsDueOf};
ghost use Rattle.teg_state.specs.LeftRows.{row_left, rows_left};

use crate::history::History;
use std::alloc::{AllocError, Global};
use teg_due::{Due, DueRow};
use teg_net::Net;

// The row with its number from now on; none where its firing came.
fn row_left(history: &History, row: &DueRow) -> Option<DueRow>
    requires { row.now.transition.index < history.now.width }
    ensures { result ≡ row_left history.now.run row.now }
{
    let fired = history.fired(row.transition);
    let number = u64::from(row.number);
    if fired < number {
        Some(DueRow {
            row: row.row,
            transition: row.transition,
            number: (number - fired) as u32,
            date: row.date,
        })
    } else {
        None
    }
}

// The rows of the firings that are still to come, with their numbers from now on.
fn rows_left(alloc: Global, history: &History, rows: &[DueRow]) -> Result<Vec<DueRow>, AllocError>
    requires { All (λ row. row.transition.index < history.now.width) rows.now }
    ensures { IfOk result (λ left. left.items ≡ filter_map (row_left history.now.run) rows.now) }
{
    rows.iter()
        .filter_map(|row| row_left(history, row))
        .collect(alloc)
}

impl History {
    /// The due rows of the firings that are still to come, in their order, each with its number from
    /// now on, as the net `rest` that is left asks for them (chapter 5): the row of firing `k` of a
    /// transition that fired `n` times becomes that of firing `k - n`, and is left out where its
    /// firing came. They keep the rules of due rows in `rest`, which has the transitions of `net`, as
    /// [`crate::net_after`] leaves it. `AllocError` comes only where no memory is found. It takes a
    /// step for each row.
    pub fn due_left(
        &self,
        alloc: Global,
        net: &Net,
        rest: &Net,
        due: &Due,
    ) -> Result<Due, AllocError>
        requires width { self.now.width ≡ length net.now.transitions }
        requires due { IsDueOf net.now due.now.rows.items }
        requires rest { rest.now.transitions ≡ net.now.transitions }
        ensures rows { IfOk result
            (λ left. left.rows.items ≡ rows_left self.now.run due.now.rows.items) }
        ensures rules { IfOk result (λ left. IsDueOf rest.now left.rows.items) }
    {
        let _net = net;
        let _rest = rest;
        let rows = rows_left(alloc, self, &due.rows)?;
        Ok(Due { rows })
    }
}
