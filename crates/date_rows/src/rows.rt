//! The rows of the least dating of a system, as many as a caller asks for.
ghost use Rattle.std.specs.Prelude.{◌≡◌, ◌+◌, ◌<◌, ◌≤◌, length, [], IfOk};
ghost use Rattle.teg_net.specs.Nets.{IsNet};
ghost use Rattle.teg_net.specs.Limits.{most_rows};
ghost use Rattle.date_rows.specs.DateTables.{date_at};
ghost use Rattle.date_rows.specs.PlaceOrder.{OrdersPlaces};
ghost use Rattle.date_rows.specs.Sources.{system_by};
ghost use Rattle.date_rows.specs.KeptRows.{KeepsBounds, KeepsShortBounds, AreLeastRows, HasLeastDating};

use crate::date_list::PackedDates;
use crate::order::PlaceOrder;
use crate::passes::RowPass;
use crate::past::{AllCells, AllRows, cell_of};
use crate::sources::Source;
use dioid::Date;
use std::alloc::Global;
use std::marker::Model;
use teg_net::{Net, OutOfMemory, TransitionId};

// The numbers of rows that can be made in cells of eight bytes.
const MOST_IN_CELLS: u64 = 1_000_000;

/// The dates of the first firings of each transition, number by number: one row a number, at most
/// 10^15 of them, which is more than any memory holds. A date takes eight bytes, as long as each is
/// below 2^63 - 1. Contracts see them as those of a table.
#[derive(Debug, Drop)]
pub struct Rows {
    width: usize,
    count: u64,
    dates: PackedDates,
    next: Vec<Date>,
    next_cells: Vec<i64>,
}

impl Model for Rows {
    ghost use Rattle.date_rows.specs.DateTables.{TableDates};
    ghost use Rattle.date_rows.specs.KeptRows.{IsRows};

    ghost Value = { TableDates };

    ghost view = { λ a. record { width = a.width; count = a.count; dates = a.dates } };

    ghost invariant = { λ a. IsRows
        (record { width = a.width; count = a.count; dates = a.dates }) };
}

impl Rows {
    ghost use Rattle.date_rows.specs.KeptRows.{IsRows};

    /// No rows of this net. It takes no memory.
    pub fn new(alloc: Global, net: &Net) -> Rows
        ensures none { result
            ≡ record { width = length net.now.transitions; count = 0; dates = [] } }
        ensures limits { IsRows result }
        ensures rules { IsNet net.now }
    {
        Rows {
            width: net.transitions().len(),
            count: 0,
            dates: PackedDates::new(alloc),
            next: Vec::new(alloc),
            next_cells: Vec::new(alloc),
        }
    }

    /// The rows with one more, of the system that the source makes of the net (chapter 2): the rows
    /// are those of its least dating, and stay so. `OutOfMemory` comes only where no memory is
    /// found; the rows are then gone. It takes time of order `n + p` for n transitions and p
    /// places, and what the source takes.
    pub fn with_next<S: Source>(
        self,
        net: &Net,
        order: &PlaceOrder,
        source: &S,
    ) -> Result<Rows, OutOfMemory>
        requires order { OrdersPlaces net.now order.now }
        requires bounded { KeepsBounds (system_by S.Source source.now net.now) }
        requires few { self.count < most_rows }
        requires rows { AreLeastRows net.now (system_by S.Source source.now net.now) self }
        ensures count { IfOk result (λ rows. rows.count ≡ self.count + 1) }
        ensures limits { IfOk result IsRows }
        ensures rows { IfOk result (AreLeastRows net.now (system_by S.Source source.now net.now)) }
        ensures exists { IfOk result (λ _. HasLeastDating (system_by S.Source source.now net.now)) }
    {
        let mut rows = self;
        let number = rows.count + 1;
        rows.next.resize(rows.width, Date::Early)?;
        // The net keeps its rules.
        net.rules();
        let past = AllRows {
            width: rows.width,
            count: rows.count,
            dates: &rows.dates,
        };
        RowPass::new(net, order.turns(), source, &past, number).fill(&mut rows.next);
        rows.dates.extend(&rows.next)?;
        rows.count = number;
        Ok(rows)
    }

    /// The rows of [`with_next`](Rows::with_next), of a system whose dates up to number 1,000,000
    /// fit into eight bytes: those rows are made in eight bytes a date, so that they take a third
    /// of the time and less.
    pub fn with_next_in_cells<S: Source>(
        self,
        net: &Net,
        order: &PlaceOrder,
        source: &S,
    ) -> Result<Rows, OutOfMemory>
        requires order { OrdersPlaces net.now order.now }
        requires bounded { KeepsShortBounds (system_by S.Source source.now net.now) }
        requires few { self.count < most_rows }
        requires rows { AreLeastRows net.now (system_by S.Source source.now net.now) self }
        ensures count { IfOk result (λ rows. rows.count ≡ self.count + 1) }
        ensures limits { IfOk result IsRows }
        ensures rows { IfOk result (AreLeastRows net.now (system_by S.Source source.now net.now)) }
        ensures exists { IfOk result (λ _. HasLeastDating (system_by S.Source source.now net.now)) }
    {
        if self.count >= MOST_IN_CELLS {
            return self.with_next(net, order, source);
        }
        let mut rows = self;
        rows.next_cells.resize(rows.width, 0)?;
        match rows.dates.cells() {
            None => return rows.with_next(net, order, source),
            Some(cells) => {
                let past = AllCells {
                    width: rows.width,
                    count: rows.count,
                    cells,
                };
                // The net keeps its rules.
                net.rules();
                let number = past.count + 1;
                RowPass::new(net, order.turns(), source, &past, number).fill(&mut rows.next_cells);
            }
        }
        rows.dates.extend_cells(&rows.next_cells)?;
        rows.count += 1;
        Ok(rows)
    }

    /// How many transitions have dates: those of the net. It takes no memory.
    pub fn width(&self) -> usize
        ensures { result ≡ self.now.width }
    {
        self.width
    }

    /// How many rows there are. It takes no memory.
    pub fn count(&self) -> u64
        ensures value { result ≡ self.now.count }
        ensures limits { IsRows self.now }
    {
        self.count
    }

    /// The date of the firing of this number, from 1 on, of a transition of the net. It takes no
    /// memory.
    pub fn date(&self, transition: TransitionId, number: u64) -> Date
        requires transition { transition.index < self.now.width }
        requires first { 1 ≤ number }
        requires last { number ≤ self.now.count }
        ensures { result ≡ date_at self.now transition.index number }
    {
        self.dates.date(cell_of(self.width, transition, number))
    }
}
