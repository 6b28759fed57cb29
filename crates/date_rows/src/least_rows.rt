//! Rows of dates, one after another, in memory that does not grow.
ghost use Rattle.std.specs.Prelude.{◌≡◌, ◌+◌, ◌<◌, ◌≤◌, length, IfOk};
ghost use Rattle.teg_net.specs.Limits.{greatest_firing_number};
ghost use Rattle.teg_check.specs.Ranks.{IsRanking};
ghost use Rattle.date_rows.specs.Streams.{HasLeast, IsLeastRow, IsStreamOf, date_back, rows_given, rows_kept};

use crate::last_rows::LastRows;
use crate::next::{most_tokens_of, next_row};
use crate::order::PlaceOrder;
use crate::past::Past;
use dioid::Date;
use std::alloc::Global;
use std::marker::Model;
use teg_check::Live;
use teg_net::{Net, OutOfMemory, TransitionId};

/// The rows of the least dating of a live net, with its ready dates and its input lists (chapter
/// 2), one number after another. It keeps the last rows, as many as the greatest number of tokens
/// of a place and at least one, in room that is made at the start, so the next row takes no memory.
/// Contracts see the order in which it goes over the places, and the rows that it keeps.
#[derive(Drop)]
pub struct LeastRows {
    order: PlaceOrder,
    last: LastRows,
}

impl Model for LeastRows {
    ghost use Rattle.date_rows.specs.Streams.{StreamLists};

    ghost Value = { StreamLists };

    ghost view = { λ a. record { order = a.order; last = a.last } };
}

impl LeastRows {
    /// The place before the first row of the net with these ranks (chapter 2).
    ///
    /// The rows follow the places in the order of their turns, which is found here once. They do
    /// not follow the entries of the net's form: these do not tell the ready dates of tokens, and
    /// where two places join the same transitions, the one that takes less time may have the later
    /// token. `OutOfMemory` comes only where no memory is found. It takes time of order `n m + p
    /// log p` for n transitions and p places with at most m tokens each.
    pub fn new(alloc: Global, net: &Net, live: &Live) -> Result<LeastRows, OutOfMemory>
        requires stands { IsRanking net.now live.now }
        ensures stands { IfOk result (IsStreamOf net.now) }
        ensures number { IfOk result (λ rows. rows_given rows ≡ 0) }
        ensures exists { IfOk result (λ _. HasLeast net.now) }
    {
        let order = PlaceOrder::new(alloc, net, live)?;
        let reach = most_tokens_of(net) as u64;
        let last = LastRows::new(alloc, net.transitions().len(), reach)?;
        Ok(LeastRows { order, last })
    }

    /// How many dates a row has: one for each transition of the net. It takes no memory.
    pub fn width(&self) -> usize
        ensures { result ≡ self.now.last.width }
    {
        self.last.width()
    }

    /// How many rows were given so far. It takes no memory.
    pub fn number(&self) -> u64
        ensures value { result ≡ rows_given self.now }
        ensures few { result ≤ greatest_firing_number }
    {
        self.last.number()
    }

    /// Writes the next row: the dates of the firings of number `number + 1` by the least dating of
    /// the net (chapter 2). `Early` does not come; `Never` is the date of a firing that waits for
    /// one past the end of a list. The row has one cell for each transition, and fewer than 10^18
    /// rows were given. It takes no memory, and time of order `n + p` for n transitions and p
    /// places.
    pub fn write_next(&mut self, net: &Net, row: &mut [Date])
        requires stands { IsStreamOf net.now self.old }
        requires few { rows_given self.old < greatest_firing_number }
        requires full { length row.old ≡ length net.now.transitions }
        ensures row { IsLeastRow net.now (rows_given self.old + 1) row.new }
        ensures number { rows_given self.new ≡ rows_given self.old + 1 }
        ensures stands { IsStreamOf net.now self.new }
    {
        let number = self.last.number() + 1;
        next_row(net, self.order.turns(), &self.last, row, number);
        self.last.push(row);
    }

    /// How many of the last rows it keeps: all, while they are fewer than the greatest number of
    /// tokens of a place, and else as many as that, and at least one. It takes no memory.
    pub fn kept(&self) -> u64
        ensures { result ≡ rows_kept self.now.last }
    {
        self.last.kept()
    }

    /// The date of the transition so many rows back, 1 being the last: that of its firing of number
    /// `number + 1 - behind` by the least dating (chapter 2) of the net that the rows stand for. It
    /// takes no memory.
    pub fn back(&self, transition: TransitionId, behind: u64) -> Date
        requires transition { transition.index < self.now.last.width }
        requires first { 1 ≤ behind }
        requires last { behind ≤ rows_kept self.now.last }
        ensures { result ≡ date_back self.now.last transition.index behind }
    {
        self.last.back(transition, behind)
    }
}
