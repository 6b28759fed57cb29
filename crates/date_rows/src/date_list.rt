//! Dates one after another, in eight bytes each as long as they fit.
ghost use Rattle.std.specs.Prelude.{◌≡◌, ◌<◌, ◌++◌, ◌∷◌, [], length, slice_index_or, IfOk, IfSome, map};
ghost use Rattle.dioid.specs.declared.dates.Date.TheVariants.{Early};
ghost use Rattle.date_rows.specs.DateCells.{date_of_signed_cell};

use crate::date_cell::DateCell;
use dioid::Date;
use std::alloc::{AllocError, Global};
use std::marker::Model;

// The date in eight bytes, if it fits.
fn shortened(date: Date) -> Option<i64>
    ensures { IfSome result (λ cell. date_of_signed_cell cell ≡ date) }
{
    match date {
        Date::Early => Some(-1),
        Date::Never => Some(i64::MAX),
        Date::At(number) => {
            if number < 0 || number >= i64::MAX as i128 {
                return None;
            }
            Some(number as i64)
        }
    }
}

// Dates one after another: in eight bytes each, and from the first that does not fit on as they
// are. Contracts see the list of them.
#[derive(Debug, Drop)]
pub(crate) struct PackedDates {
    short: Vec<i64>,
    rest: Vec<Date>,
}

impl Model for PackedDates {
    ghost use Rattle.std.specs.Prelude.{List, map, ◌++◌};
    ghost use Rattle.dioid.specs.declared.dates.Date.{Date};
    ghost use Rattle.date_rows.specs.DateCells.{date_of_signed_cell};

    ghost Value = { List Date };

    ghost view = { λ a. map date_of_signed_cell a.short.items ++ a.rest.items };
}

impl PackedDates {
    // No dates.
    pub(crate) fn new(alloc: Global) -> PackedDates
        ensures { result ≡ [] }
    {
        PackedDates {
            short: Vec::new(alloc),
            rest: Vec::new(alloc),
        }
    }

    // Adds a date behind the others.
    #[tactic(auto, using(crate::proofs::Shortening::short_more, crate::proofs::Shortening::rest_more))]
    fn push(&mut self, date: Date) -> Result<(), AllocError>
        ensures { IfOk result (λ _. self.new ≡ self.old ++ date ∷ []) }
    {
        if self.rest.is_empty() {
            match shortened(date) {
                Some(cell) => {
                    self.short.push(cell)?;
                    return Ok(());
                }
                None => {}
            }
        }
        self.rest.push(date)?;
        Ok(())
    }

    // Adds a date in eight bytes behind the others.
    #[tactic(auto, using(crate::proofs::Shortening::short_more, crate::proofs::Shortening::rest_more))]
    fn push_cell(&mut self, cell: i64) -> Result<(), AllocError>
        ensures { IfOk result (λ _. self.new ≡ self.old ++ date_of_signed_cell cell ∷ []) }
    {
        if self.rest.is_empty() {
            self.short.push(cell)?;
        } else {
            self.rest.push(cell.date())?;
        }
        Ok(())
    }

    // Adds dates behind the others.
    #[tactic(auto, using(crate::proofs::Shortening::extended_more))]
    pub(crate) fn extend(&mut self, dates: &[Date]) -> Result<(), AllocError>
        ensures { IfOk result (λ _. self.new ≡ self.old ++ dates.now) }
    {
        for index in 0..dates.len() {
            self.push(dates[index])?;
        }
        Ok(())
    }

    // All of them in eight bytes each, where they fit.
    pub(crate) fn cells(&self) -> Option<&[i64]>
        ensures { IfSome result (λ cells. map date_of_signed_cell cells.now ≡ self.now) }
    {
        if self.rest.is_empty() {
            Some(&self.short)
        } else {
            None
        }
    }

    // Adds dates in eight bytes each behind the others.
    #[tactic(auto, using(crate::proofs::Shortening::cells_more))]
    pub(crate) fn extend_cells(&mut self, cells: &[i64]) -> Result<(), AllocError>
        ensures { IfOk result (λ _. self.new ≡ self.old ++ map date_of_signed_cell cells.now) }
    {
        for index in 0..cells.len() {
            self.push_cell(cells[index])?;
        }
        Ok(())
    }

    // The date at this index.
    #[tactic(auto, using(crate::proofs::Shortening::short_at, crate::proofs::Shortening::rest_at))]
    pub(crate) fn date(&self, index: usize) -> Date
        requires { index < length self.now }
        ensures { result ≡ slice_index_or self.now index Early }
    {
        let count = self.short.len();
        if index < count {
            self.short[index].date()
        } else {
            self.rest[index - count]
        }
    }
}
