//! Rows of the latest dates for due rows, made from the last number down. Nothing rests on them: they
//! are checked.
use dioid::Date;
use std::alloc::{AllocError, Global};
use teg_due::DueRow;
use teg_net::{Net, Place};

// Rows of dates up to a number, with one date for each transition in order.
#[derive(Drop)]
struct MadeRows<'n> {
    net: &'n Net,
    last: u32,
    dates: Vec<Date>,
}

// The date so much earlier.
fn moved_back(date: Date, by: u64) -> Date {
    match date {
        Date::At(date) => Date::At(date.saturating_sub(i128::from(by))),
        other => other,
    }
}

impl MadeRows<'_> {
    // Where the date of the firing stands.
    fn cell(&self, index: usize, number: u32) -> usize {
        let row = (number as usize).saturating_sub(1);
        row.saturating_mul(self.net.transitions().len())
            .saturating_add(index)
    }

    // The date of the firing, Never past the last.
    fn date(&self, index: usize, number: u32) -> Date {
        if number > self.last {
            return Date::Never;
        }
        let cell = self.cell(index, number);
        self.dates.get(cell).copied().unwrap_or(Date::Never)
    }

    // Lowers the date of the firing to this one, and tells whether it fell.
    fn lower(&mut self, index: usize, number: u32, date: Date) -> bool {
        let before = self.date(index, number);
        let after = before.earlier(date);
        let cell = self.cell(index, number);
        if after == before || cell >= self.dates.len() {
            return false;
        }
        self.dates[cell] = after;
        true
    }

    // Lowers the date of the firing from which the place leads on.
    fn pass(&mut self, place: &Place, number: u32) -> bool {
        let end = number.saturating_add(place.tokens);
        let onward = self.date(place.to.index(), end);
        self.lower(place.from.index(), number, moved_back(onward, place.hold))
    }

    // Lowers the dates of the number to what places leave of those ahead, and tells whether one fell.
    fn pass_places(&mut self, number: u32) -> bool {
        let net = self.net;
        let mut fell = false;
        for place in net.places() {
            fell = self.pass(place, number) || fell;
        }
        fell
    }

    // Lowers the dates of the number to those of the next.
    fn pass_next(&mut self, number: u32) {
        for index in 0..self.net.transitions().len() {
            let next = self.date(index, number.saturating_add(1));
            self.lower(index, number, next);
        }
    }

    // Makes the dates of the number from those of greater ones.
    fn make(&mut self, number: u32) {
        self.pass_next(number);
        for _ in 0..self.net.transitions().len() {
            if !self.pass_places(number) {
                break;
            }
        }
    }
}

// The latest dates for the due rows up to a number, one row after another.
pub(crate) fn latest_dates(
    alloc: Global,
    net: &Net,
    dues: &[DueRow],
    last: u32,
) -> Result<Vec<Date>, AllocError> {
    let cells = (last as usize).saturating_mul(net.transitions().len());
    let dates = vec![in alloc; Date::Never; cells]?;
    let mut rows = MadeRows { net, last, dates };
    for due in dues {
        rows.lower(
            due.transition.index(),
            due.number,
            Date::At(i128::from(due.date)),
        );
    }
    for done in 0..last {
        rows.make(last - done);
    }
    Ok(rows.dates)
}
