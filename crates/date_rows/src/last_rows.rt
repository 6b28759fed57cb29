//! The last rows of dates, in a ring.
ghost use Rattle.std.specs.Prelude.{◌≡◌, ◌<◌, ◌≤◌, [], length, IfOk};
ghost use Rattle.teg_net.specs.Limits.{most_transitions, most_place_tokens, greatest_firing_number};

use crate::past::Past;
use circular_buffer::HeapCircularBuffer;
use dioid::Date;
use std::alloc::{AllocError, Global};
use std::marker::Model;
use teg_net::TransitionId;

// The last rows of dates, as many as `reach`. All room for them is made at the start.
#[derive(Drop)]
pub(crate) struct LastRows {
    width: usize,
    reach: u64,
    number: u64,
    cells: HeapCircularBuffer<Date>,
}

impl Model for LastRows {
    ghost use Rattle.std.specs.Prelude.{◌≡◌, ◌*◌};
    ghost use Rattle.date_rows.specs.Streams.{LastDates, AreLastDates};

    ghost Value = { LastDates };

    ghost view = { λ a. record {
      width = a.width;
      reach = a.reach;
      number = a.number;
      dates = a.cells.items;
    } };

    ghost invariant = { λ a. AreLastDates
        (record { width = a.width; reach = a.reach; number = a.number; dates = a.cells.items })
        × (a.cells.capacity ≡ a.reach * a.width) };
}

impl LastRows {
    ghost use Rattle.date_rows.specs.Passes.{HaveNext};
    ghost use Rattle.date_rows.specs.Streams.{last_rows, rows_kept};

    // No rows, and room for as many as `reach`.
    pub(crate) fn new(alloc: Global, width: usize, reach: u64) -> Result<LastRows, AllocError>
        requires width { width ≤ most_transitions }
        requires reach { reach ≤ most_place_tokens }
        ensures { IfOk result
            (λ last. last ≡ record { width = width; reach = reach; number = 0; dates = [] }) }
    {
        let cells = HeapCircularBuffer::with_capacity(alloc, reach as usize * width)?;
        Ok(LastRows {
            width,
            reach,
            number: 0,
            cells,
        })
    }

    // How many dates a row has. It takes no memory.
    pub(crate) fn width(&self) -> usize
        ensures { result ≡ self.now.width }
    {
        self.width
    }

    // How many rows were given. It takes no memory.
    pub(crate) fn number(&self) -> u64
        ensures value { result ≡ self.now.number }
        ensures few { result ≤ greatest_firing_number }
    {
        self.number
    }

    // How many rows are kept. It takes no memory.
    pub(crate) fn kept(&self) -> u64
        ensures { result ≡ rows_kept self.now }
    {
        self.number.min(self.reach)
    }

    // Adds a row behind the others. Where the room is full, the first row goes. It takes no memory.
    pub(crate) fn push(&mut self, row: &[Date])
        requires few { self.old.number < greatest_firing_number }
        requires full { length row.now ≡ self.old.width }
        ensures { HaveNext (last_rows self.old) (last_rows self.new) row.now }
    {
        self.cells.extend_from_slice(row);
        self.number += 1;
    }
}

impl Past<Date> for LastRows {
    ghost use Rattle.date_rows.specs.Streams.{last_rows};

    ghost rows = { last_rows };

    fn back(&self, transition: TransitionId, behind: u64) -> Date {
        let behind = behind as usize * self.width - 1 - transition.index as usize;
        match self.cells.nth_back(behind) {
            Some(date) => *date,
            None => unreachable!(),
        }
    }
}
