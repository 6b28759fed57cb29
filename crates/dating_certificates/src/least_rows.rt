//! Rows of the least dating, found number by number. Nothing rests on them: they are checked.
use dioid::Date;
use std::alloc::{AllocError, Global};
use teg_net::{Net, Place};

// Dates, so many a row, one row after another from number 1 on.
#[derive(Drop)]
struct Rows {
    width: usize,
    dates: Vec<Date>,
}

impl Rows {
    // Where the date of the firing stands.
    fn cell(&self, transition: usize, number: usize) -> Option<usize> {
        let start = number.checked_sub(1)?.checked_mul(self.width)?;
        start.checked_add(transition)
    }

    // The date of the firing.
    fn date(&self, transition: usize, number: usize) -> Date {
        let cell = self.cell(transition, number);
        let date = cell.and_then(|cell| self.dates.get(cell).copied());
        date.unwrap_or(Date::Early)
    }

    // The date from which the firing of this number has its token of the place.
    fn available(&self, place: &Place, number: usize) -> Date {
        let tokens = place.tokens as usize;
        if tokens < number {
            match self.date(place.from.index(), number - tokens) {
                Date::At(date) => Date::At(date.saturating_add(i128::from(place.hold))),
                other => other,
            }
        } else {
            let ready = place.ready.as_slice().get(number.saturating_sub(1));
            Date::At(ready.map_or(0, |ready| i128::from(*ready)))
        }
    }

    // Raises the dates of this number to the tokens of the places, and tells whether one rose.
    fn raise(&mut self, net: &Net, number: usize) -> bool {
        let mut rose = false;
        for place in net.places() {
            let own = self.date(place.to.index(), number);
            let later = own.later(self.available(place, number));
            if let Some(cell) = self.cell(place.to.index(), number) {
                if later != own && cell < self.dates.len() {
                    self.dates[cell] = later;
                    rose = true;
                }
            }
        }
        rose
    }

    // Appends the row of this number.
    fn add(&mut self, net: &Net, number: usize) -> Result<(), AllocError> {
        for index in 0..self.width {
            let before = self.date(index, number.saturating_sub(1));
            self.dates.push(before.later(Date::At(0)))?;
        }
        for _ in 0..self.width {
            if !self.raise(net, number) {
                break;
            }
        }
        Ok(())
    }
}

/// The dates of the least dating of the net up to this number where all inputs are at 0: a row of a
/// date for each transition in order, one row after another from number 1 on. Nothing rests on them:
/// who asks for them looks at them, as `check_rows` does. It takes memory for them, and time of the
/// order places times transitions a number. `AllocError` comes only where no memory is found.
pub fn least_dates(alloc: Global, net: &Net, numbers: u32) -> Result<Vec<Date>, AllocError> {
    let mut rows = Rows {
        width: net.transitions().len(),
        dates: Vec::new(alloc),
    };
    for before in 0..numbers {
        rows.add(net, before as usize + 1)?;
    }
    Ok(rows.dates)
}
