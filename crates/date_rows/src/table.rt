//! The table of dates.
ghost use Rattle.std.specs.Prelude.{◌≡◌, ◌<◌, ◌≤◌};
ghost use Rattle.date_rows.specs.DateTables.{date_at};

use crate::rows::Rows;
use dioid::Date;
use std::marker::Model;
use teg_net::TransitionId;

/// The dates of the first firings of each transition, for at most 10,000 numbers. Contracts see how
/// many transitions and numbers there are, and the dates, number by number.
#[derive(Debug, Drop)]
pub struct Table {
    rows: Rows,
}

impl Model for Table {
    ghost use Rattle.date_rows.specs.DateTables.{TableDates, IsDateTable};

    ghost Value = { TableDates };

    ghost view = { λ a. a.rows };

    ghost invariant = { λ a. IsDateTable a.rows };
}

impl Table {
    ghost use Rattle.date_rows.specs.DateTables.{TableDates, IsDateTable};

    // The table of these rows. It takes no memory.
    pub(crate) fn new(rows: Rows) -> Table
        requires { IsDateTable rows }
        ensures { result ≡ rows }
    {
        Table { rows }
    }

    /// How many transitions have dates: those of the net. It takes no memory.
    pub fn width(&self) -> usize
        ensures { result ≡ self.now.width }
    {
        self.rows.width()
    }

    /// How many numbers the table has. It takes no memory.
    pub fn count(&self) -> u32
        ensures value { result ≡ self.now.count }
        ensures limits { IsDateTable self.now }
    {
        self.rows.count() as u32
    }

    /// The date of the firing of this number, from 1 on, of a transition of the net. It takes no
    /// memory.
    pub fn date(&self, transition: TransitionId, number: u64) -> Date
        requires transition { transition.index < self.now.width }
        requires number { 1 ≤ number }
        requires last { number ≤ self.now.count }
        ensures { result ≡ date_at self.now transition.index number }
    {
        self.rows.date(transition, number)
    }
}
