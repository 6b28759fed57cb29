//! The rows of the first numbers, one after another, in memory that does not grow.
ghost use Rattle.std.specs.Prelude.{◌≡◌, ◌+◌, ◌<◌, ◌≤◌, length, map, IfOk};
ghost use Rattle.teg_net.specs.Limits.{greatest_firing_number};
ghost use Rattle.teg_check.specs.Ranks.{IsRanking};
ghost use Rattle.date_rows.specs.DateCells.{date_of_cell};
ghost use Rattle.date_rows.specs.DateTables.{most_numbers};
ghost use Rattle.date_rows.specs.Streams.{AreFirstRowsOf, HasLeast, IsLeastRow, first_rows_given};

use crate::next::{most_tokens_of, next_row};
use crate::order::PlaceOrder;
use crate::window::Window;
use std::alloc::Global;
use std::marker::Model;
use teg_check::Live;
use teg_net::{Net, OutOfMemory};

/// The rows of the least dating of a live net up to number 10,000, with its ready dates and its
/// input lists (chapter 2), one number after another. Up to there each date is a number of eight
/// bytes, or `Never`, and so this is faster than a [`LeastRows`](crate::LeastRows), which go on
/// further. All room is made at the start. Contracts see the order in which it goes over the
/// places, and the rows that it keeps.
#[derive(Drop)]
pub struct FirstRows {
    order: PlaceOrder,
    window: Window,
}

impl Model for FirstRows {
    ghost use Rattle.date_rows.specs.Streams.{FirstLists};

    ghost Value = { FirstLists };

    ghost view = { λ a. record { order = a.order; window = a.window } };
}

impl FirstRows {
    /// Before the first row of the net with these ranks. `OutOfMemory` comes only where no memory
    /// is found. It takes time of order `n (m + 64) + p log p` for n transitions and p places with
    /// at most m tokens each.
    pub fn new(alloc: Global, net: &Net, live: &Live) -> Result<FirstRows, OutOfMemory>
        requires stands { IsRanking net.now live.now }
        ensures stands { IfOk result (AreFirstRowsOf net.now) }
        ensures number { IfOk result (λ rows. first_rows_given rows ≡ 0) }
        ensures exists { IfOk result (λ _. HasLeast net.now) }
    {
        let order = PlaceOrder::new(alloc, net, live)?;
        let reach = most_tokens_of(net) as usize;
        let window = Window::new(alloc, net.transitions().len(), reach)?;
        Ok(FirstRows { order, window })
    }

    /// How many rows were given so far. It takes no memory.
    pub fn number(&self) -> u64
        ensures value { result ≡ first_rows_given self.now }
        ensures few { result ≤ greatest_firing_number }
    {
        self.window.number()
    }

    /// Writes the next row: the dates of the firings of number `number + 1` by the least dating of
    /// the net, each as a cell of eight bytes, of which the greatest is `Never`: the date of a
    /// firing that waits for one past the end of a list. The row has one cell for each transition,
    /// and fewer than 10,000 rows were given. It takes no memory, and time of order `n + p` for n
    /// transitions and p places.
    pub fn next_row(&mut self, net: &Net, row: &mut [u64])
        requires stands { AreFirstRowsOf net.now self.old }
        requires few { first_rows_given self.old < most_numbers }
        requires full { length row.old ≡ length net.now.transitions }
        ensures row { IsLeastRow net.now (first_rows_given self.old + 1) (map date_of_cell
            row.new) }
        ensures number { first_rows_given self.new ≡ first_rows_given self.old + 1 }
        ensures stands { AreFirstRowsOf net.now self.new }
    {
        let number = self.window.number() + 1;
        next_row(net, self.order.turns(), &self.window.columns(), row, number);
        self.window.push(row);
    }
}
