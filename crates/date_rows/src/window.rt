//! The last dates of each transition in eight bytes each, one transition after another.
ghost use Rattle.std.specs.Prelude.{◌≡◌, ◌+◌, ◌-◌, ◌*◌, ◌<◌, ◌≤◌, length, map, IfOk};
ghost use Rattle.teg_net.specs.Limits.{most_transitions, most_place_tokens, greatest_firing_number};
ghost use Rattle.date_rows.specs.LastColumns.{AreMoved, HasColumnSet, HasRoomAt, HaveRowAdded, AreLastColumns, most_room};

use crate::past::Past;
use std::alloc::{AllocError, Global};
use std::marker::Model;
use teg_net::TransitionId;

// How many rows more than are kept there is room for. Moving the columns every so many rows costs
// less than it saves: what was moved is near when it is read.
const ROOM_BESIDE: usize = 64;

// The last rows of dates, at least as many as `reach`: each transition has a column of `room`
// cells, and the next date stands at `at`. Where the columns are full, the last dates of each go to
// its front, so that a date so many rows back always stands so many cells before.
#[derive(Drop)]
pub(crate) struct Window {
    width: usize,
    reach: usize,
    room: usize,
    at: usize,
    number: u64,
    cells: Vec<u64>,
}

impl Model for Window {
    ghost use Rattle.date_rows.specs.LastColumns.{WindowCells, AreLastColumns};

    ghost Value = { WindowCells };

    ghost view = { λ a. record {
      width = a.width;
      reach = a.reach;
      room = a.room;
      at = a.at;
      number = a.number;
      cells = a.cells.items;
    } };

    ghost invariant = { λ a. AreLastColumns
        (record {
          width = a.width;
          reach = a.reach;
          room = a.room;
          at = a.at;
          number = a.number;
          cells = a.cells.items;
        }) };
}

// Where a date of a transition stands.
fn cell(width: usize, room: usize, transition: usize, at: usize) -> usize
    requires width { width ≤ most_transitions }
    requires room { room ≤ most_room }
    requires transition { transition < width }
    requires at { at < room }
    ensures value { result ≡ transition * room + at }
    ensures within { result < width * room }
{
    transition * room + at
}

// Writes the row's dates at `at` of the columns.
fn write_row(room: usize, at: usize, cells: &mut [u64], row: &[u64])
    requires few { length row.now ≤ most_transitions }
    requires room { room ≤ most_room }
    requires at { at < room }
    requires full { length cells.old ≡ length row.now * room }
    ensures { HasColumnSet room at cells.old cells.new row.now }
{
    for transition in 0..row.len() {
        cells[cell(row.len(), room, transition, at)] = row[transition];
    }
}

// Moves the last dates of each column, so many, to its front.
fn move_to_front(width: usize, reach: usize, room: usize, cells: &mut [u64])
    requires few { width ≤ most_transitions }
    requires room { room ≤ most_room }
    requires reach { reach < room }
    requires full { length cells.old ≡ width * room }
    ensures { AreMoved width reach room cells.old cells.new }
{
    for transition in 0..width {
        let end = (transition + 1) * room;
        cells.copy_within(end - reach..end, end - room);
    }
}

// Adds the row's dates to the columns behind those that end before `at`, and answers before which
// index they then end.
fn add_row(reach: usize, room: usize, at: usize, cells: &mut [u64], row: &[u64]) -> usize
    requires few { length row.now ≤ most_transitions }
    requires room { HasRoomAt reach room at }
    requires full { length cells.old ≡ length row.now * room }
    ensures { HaveRowAdded reach room at cells.old cells.new row.now result }
{
    write_row(room, at, cells, row);
    if at + 1 < room {
        return at + 1;
    }
    move_to_front(row.len(), reach, room, cells);
    reach
}

impl Window {
    ghost use Rattle.date_rows.specs.DateCells.{date_of_cell};
    ghost use Rattle.date_rows.specs.Passes.{HaveNext};
    ghost use Rattle.date_rows.specs.LastColumns.{WindowCells, opened_window, window_rows};

    // No rows, and room for at least as many as `reach`.
    pub(crate) fn new(alloc: Global, width: usize, reach: usize) -> Result<Window, AllocError>
        requires width { width ≤ most_transitions }
        requires reach { reach ≤ most_place_tokens }
        ensures { IfOk result (λ window. window ≡ opened_window width reach) }
    {
        let room = reach + ROOM_BESIDE;
        let cells = vec![in alloc; 0u64; width * room]?;
        Ok(Window {
            width,
            reach,
            room,
            at: 0,
            number: 0,
            cells,
        })
    }

    // How many rows were given. It takes no memory.
    pub(crate) fn number(&self) -> u64
        ensures value { result ≡ self.now.number }
        ensures few { result ≤ greatest_firing_number }
    {
        self.number
    }

    // The rows, for a pass to read. It takes no memory.
    pub(crate) fn columns(&self) -> Columns<'_>
        ensures { record {
          width = result.width;
          reach = result.reach;
          room = result.room;
          at = result.at;
          number = result.number;
          cells = result.cells.now;
        } ≡ self.now }
    {
        Columns {
            width: self.width,
            reach: self.reach,
            room: self.room,
            at: self.at,
            number: self.number,
            cells: &self.cells,
        }
    }

    // Adds a row behind the others. It takes no memory.
    pub(crate) fn push(&mut self, row: &[u64])
        requires few { self.old.number < greatest_firing_number }
        requires full { length row.now ≡ self.old.width }
        ensures { HaveNext (window_rows self.old) (window_rows self.new) (map date_of_cell
            row.now) }
    {
        self.at = add_row(self.reach, self.room, self.at, &mut self.cells, row);
        self.number += 1;
    }
}

// The same rows, lent to a pass: so what says where dates stand is not read again for each place.
#[derive(Drop)]
pub(crate) struct Columns<'a> {
    width: usize,
    reach: usize,
    room: usize,
    at: usize,
    number: u64,
    cells: &'a [u64],
    ghost within: { AreLastColumns
        (record {
          width = width;
          reach = reach;
          room = room;
          at = at;
          number = number;
          cells = cells.now;
        }) },
}

impl Past<u64> for Columns<'_> {
    ghost use Rattle.date_rows.specs.LastColumns.{window_rows};

    ghost rows = { λ c. window_rows
        (record {
          width = c.width;
          reach = c.reach;
          room = c.room;
          at = c.at;
          number = c.number;
          cells = c.cells.now;
        }) };

    fn back(&self, transition: TransitionId, behind: u64) -> u64 {
        let at = self.at - behind as usize;
        self.cells[cell(self.width, self.room, transition.index as usize, at)]
    }
}
