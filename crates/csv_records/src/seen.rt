//! What was seen before: a table of numbers in columns.
ghost use Rattle.std.specs.Prelude.{ℕ, ◌≡◌, ◌≤◌, ◌<◌, ◌==◌, ◌&&◌, ◌||◌, true, false, IfOk};
ghost use Rattle.std.specs.Str.Parse.{digits_value};
ghost use Rattle.csv_records.specs.NumberFields.{is_number};
ghost use Rattle.csv_records.specs.Seen.{greatest_seen_number, is_seen, most_columns};

use crate::numbers::number_up_to;
use crate::records::OutOfMemory;
use std::alloc::Global;
use std::marker::Model;

/// The greatest number that a table can have seen.
pub const GREATEST_SEEN_NUMBER: u32 = 10_000;

// Cells of one column, one for each number from 0 on.
const CELLS: usize = 10_001;

/// For each column which numbers from 0 to 10,000 were seen in it: so a row that repeats an earlier
/// one is found in one step. Columns are counted from 0.
#[derive(Drop)]
pub struct Seen {
    width: usize,
    cells: Vec<bool>,
}

impl Model for Seen {
    ghost use Rattle.csv_records.specs.Seen.{IsSeenTable, SeenNumbers};

    ghost Value = { SeenNumbers };

    ghost view = { λ s. record { width = s.width; cells = s.cells.items } };

    ghost invariant = { λ s. IsSeenTable (record { width = s.width; cells = s.cells.items }) };
}

impl Seen {
    /// A table of `width` columns, at most 1,000,000, in which nothing was seen: 10,001 bytes a
    /// column. `OutOfMemory` comes only where no memory is found.
    pub fn new(alloc: Global, width: usize) -> Result<Seen, OutOfMemory>
        requires { width ≤ most_columns }
        ensures width { IfOk result (λ s. s.width ≡ width) }
        ensures none { IfOk result (λ s. (t n : ℕ) → is_seen s t n ≡ false) }
    {
        match vec![in alloc; false; width * CELLS] {
            Ok(cells) => Ok(Seen { width, cells }),
            Err(_) => Err(OutOfMemory),
        }
    }

    /// Whether this number was seen in the column. It takes no memory.
    pub fn has(&self, column: usize, number: u32) -> bool
        requires column { column < self.now.width }
        requires number { number ≤ greatest_seen_number }
        ensures { result ≡ is_seen self.now column number }
    {
        self.cells[column * CELLS + number as usize]
    }

    /// Whether the number that the digits write was seen in the column; none above 10,000 was. It
    /// takes no memory.
    pub fn has_number(&self, column: usize, digits: &[u8]) -> bool
        requires column { column < self.now.width }
        requires digits { is_number digits.now ≡ true }
        ensures { result ≡ is_seen self.now column (digits_value 10 digits.now) }
    {
        match number_up_to(digits, u64::from(GREATEST_SEEN_NUMBER)) {
            Some(number) => self.has(column, number as u32),
            None => false,
        }
    }

    /// Sees the number, at most 10,000, in the column. It takes no memory.
    pub fn add(&mut self, column: usize, number: u32)
        requires column { column < self.old.width }
        requires number { number ≤ greatest_seen_number }
        ensures width { self.new.width ≡ self.old.width }
        ensures more { (t n : ℕ) → t < self.old.width →
            is_seen self.new t n ≡ (is_seen self.old t n || ((column == t) && (number == n))) }
    {
        self.cells[column * CELLS + number as usize] = true;
    }
}
