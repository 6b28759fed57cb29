//! What is kept of the rows before one.
ghost use Rattle.std.specs.Prelude.{◌≡◌, ◌+◌, ◌*◌, ◌<◌, ◌≤◌, length};
ghost use Rattle.teg_net.specs.Limits.{most_transitions, most_rows};
ghost use Rattle.date_rows.specs.DateTables.{firing_position};

use crate::date_cell::DateCell;
use crate::date_list::PackedDates;
use dioid::Date;
use teg_net::TransitionId;

// The rows before one, as far as they are kept. A pass asks them for dates, so many rows back.
pub(crate) trait Past<C: DateCell> {
    ghost use Rattle.date_rows.specs.Passes.{KeptRows};

    // what is kept
    ghost rows: { Self → KeptRows };

    // The date of the transition so many rows back, 1 being the last. It takes no memory.
    fn back(&self, transition: TransitionId, behind: u64) -> C
        requires transition { transition.index < (rows self.now).width }
        requires first { 1 ≤ behind }
        requires last { behind ≤ (rows self.now).kept }
        ensures { C.held result ≡ (rows self.now).back transition.index behind };
}

// Where the date of a firing stands in rows of this width.
pub(crate) fn cell_of(width: usize, transition: TransitionId, number: u64) -> usize
    requires width { width ≤ most_transitions }
    requires transition { transition.index < width }
    requires number { 1 ≤ number }
    requires few { number ≤ most_rows }
    ensures value { result ≡ firing_position width transition.index number }
    ensures within { result < number * width }
{
    (number as usize - 1) * width + transition.index as usize
}

// All rows up to number `count`, one after another, in eight bytes a date.
#[derive(Drop)]
pub(crate) struct AllCells<'a> {
    pub(crate) width: usize,
    pub(crate) count: u64,
    pub(crate) cells: &'a [i64],
    ghost width_in: { width ≤ most_transitions },
    ghost count_in: { count ≤ most_rows },
    ghost full: { length cells.now ≡ count * width },
}

impl Past<i64> for AllCells<'_> {
    ghost use Rattle.std.specs.Prelude.{◌+◌, ◌-◌, map};
    ghost use Rattle.date_rows.specs.DateCells.{date_of_signed_cell};
    ghost use Rattle.date_rows.specs.DateTables.{date_in_list};

    ghost rows = { λ p. record {
      width = p.width;
      reach = p.count;
      number = p.count;
      kept = p.count;
      back = λ t b. date_in_list p.width (map date_of_signed_cell p.cells.now) t (p.count + 1 - b);
    } };

    fn back(&self, transition: TransitionId, behind: u64) -> i64 {
        self.cells[cell_of(self.width, transition, self.count + 1 - behind)]
    }
}

// The same rows, in as many bytes a date as it takes.
#[derive(Drop)]
pub(crate) struct AllRows<'a> {
    pub(crate) width: usize,
    pub(crate) count: u64,
    pub(crate) dates: &'a PackedDates,
    ghost width_in: { width ≤ most_transitions },
    ghost count_in: { count ≤ most_rows },
    ghost full: { length dates.now ≡ count * width },
}

impl Past<Date> for AllRows<'_> {
    ghost use Rattle.std.specs.Prelude.{◌+◌, ◌-◌};
    ghost use Rattle.date_rows.specs.DateTables.{date_in_list};

    ghost rows = { λ p. record {
      width = p.width;
      reach = p.count;
      number = p.count;
      kept = p.count;
      back = λ t b. date_in_list p.width p.dates.now t (p.count + 1 - b);
    } };

    fn back(&self, transition: TransitionId, behind: u64) -> Date {
        self.dates
            .date(cell_of(self.width, transition, self.count + 1 - behind))
    }
}
