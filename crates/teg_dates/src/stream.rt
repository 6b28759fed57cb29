//! A stream of rows that can be asked with the form of its net.
ghost use Rattle.std.specs.Prelude.{◌≡◌, ◌+◌, ◌<◌, ◌≤◌, length, IfOk};
ghost use Rattle.teg_net.specs.Limits.{greatest_firing_number};
ghost use Rattle.teg_net.specs.Circuits.{IsLive};
ghost use Rattle.teg_check.specs.Ranks.{IsRanking};
ghost use Rattle.teg_form.specs.StandardForms.{IsStandardFormOf};
ghost use Rattle.date_rows.specs.Streams.{HasLeast, IsLeastRow, IsStreamOf, date_back, rows_given, rows_kept};

use date_rows::LeastRows;
use dioid::Date;
use std::alloc::Global;
use std::marker::Model;
use teg_check::{Live, ranks_of};
use teg_form::Form;
use teg_net::{Net, OutOfMemory, TransitionId};

/// The rows of the least dating of a live net, with its ready dates and its input lists (chapter
/// 2), one number after another: [`LeastRows`](crate::LeastRows), which can be made and asked with
/// the form of the net as well. It keeps the last rows, as many as the greatest number of tokens of
/// a place and at least one, in room that is made at the start, so the next row takes no memory.
/// Contracts see the order in which it goes over the places, and the rows that it keeps.
#[derive(Drop)]
pub struct Stream {
    rows: LeastRows,
}

impl Model for Stream {
    ghost use Rattle.date_rows.specs.Streams.{StreamLists};

    ghost Value = { StreamLists };

    ghost view = { λ a. a.rows };
}

impl Stream {
    /// A stream before the first row of the net that this form stands for. The net is live, as each
    /// net is that a form was made of; the form plays no other part. `OutOfMemory` comes only where
    /// no memory is found. It takes time of order `n^2 + p log p` for n transitions and p places.
    pub fn new(alloc: Global, net: &Net, form: &Form) -> Result<Stream, OutOfMemory>
        requires live { IsLive net.now }
        requires stands { IsStandardFormOf net.now form.now }
        ensures stands { IfOk result (IsStreamOf net.now) }
        ensures number { IfOk result (λ stream. rows_given stream ≡ 0) }
        ensures exists { IfOk result (λ _. HasLeast net.now) }
    {
        let live = ranks_of(alloc, net)?;
        Stream::of_live(alloc, net, &live)
    }

    /// A stream before the first row of the net with these ranks (chapter 2), as
    /// [`new`](Stream::new) makes it, without a form. `OutOfMemory` comes only where no memory is
    /// found. It takes time of order `n m + p log p` for n transitions and p places with at most m
    /// tokens each.
    pub fn of_live(alloc: Global, net: &Net, live: &Live) -> Result<Stream, OutOfMemory>
        requires stands { IsRanking net.now live.now }
        ensures stands { IfOk result (IsStreamOf net.now) }
        ensures number { IfOk result (λ stream. rows_given stream ≡ 0) }
        ensures exists { IfOk result (λ _. HasLeast net.now) }
    {
        let rows = LeastRows::new(alloc, net, live)?;
        Ok(Stream { rows })
    }

    /// How many dates a row has: one for each transition of the net. It takes no memory.
    pub fn width(&self) -> usize
        ensures { result ≡ self.now.last.width }
    {
        self.rows.width()
    }

    /// How many rows were given so far. It takes no memory.
    pub fn number(&self) -> u64
        ensures value { result ≡ rows_given self.now }
        ensures few { result ≤ greatest_firing_number }
    {
        self.rows.number()
    }

    /// Writes the next row: the dates of the firings of number `number + 1` by the least dating of
    /// the net. `Early` does not come; `Never` is the date of a firing that waits for one past the
    /// end of a list. The row has one cell for each transition, and fewer than 10^18 rows were
    /// given. It takes no memory, and time of order `n + p` for n transitions and p places.
    pub fn next_row(&mut self, net: &Net, form: &Form, row: &mut [Date])
        requires form { IsStandardFormOf net.now form.now }
        requires stands { IsStreamOf net.now self.old }
        requires few { rows_given self.old < greatest_firing_number }
        requires full { length row.old ≡ length net.now.transitions }
        ensures row { IsLeastRow net.now (rows_given self.old + 1) row.new }
        ensures number { rows_given self.new ≡ rows_given self.old + 1 }
        ensures stands { IsStreamOf net.now self.new }
    {
        self.write_next(net, row);
    }

    /// Writes the next row as [`next_row`](Stream::next_row) does, without a form: the dates of the
    /// firings of number `number + 1` by the least dating of the net (chapter 2). It takes no
    /// memory, and time of order `n + p` for n transitions and p places.
    pub fn write_next(&mut self, net: &Net, row: &mut [Date])
        requires stands { IsStreamOf net.now self.old }
        requires few { rows_given self.old < greatest_firing_number }
        requires full { length row.old ≡ length net.now.transitions }
        ensures row { IsLeastRow net.now (rows_given self.old + 1) row.new }
        ensures number { rows_given self.new ≡ rows_given self.old + 1 }
        ensures stands { IsStreamOf net.now self.new }
    {
        self.rows.write_next(net, row);
    }

    /// How many of the last rows it keeps: all, while they are fewer than the greatest number of
    /// tokens of a place, and else as many as that, and at least one. It takes no memory.
    pub fn kept(&self) -> u64
        ensures { result ≡ rows_kept self.now.last }
    {
        self.rows.kept()
    }

    /// The date of the transition so many rows back, 1 being the last: that of its firing of number
    /// `number + 1 - behind` by the least dating (chapter 2) of the net that the stream stands for.
    /// It takes no memory.
    pub fn back(&self, transition: TransitionId, behind: u64) -> Date
        requires transition { transition.index < self.now.last.width }
        requires first { 1 ≤ behind }
        requires last { behind ≤ rows_kept self.now.last }
        ensures { result ≡ date_back self.now.last transition.index behind }
    {
        self.rows.back(transition, behind)
    }
}
