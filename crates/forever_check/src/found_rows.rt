//! Rows of the least dating of a net with input lists, and from which number on they go on by steps.
//! Nothing rests on them: what is found is checked.
use dioid::Date;
use std::alloc::{AllocError, Global};
use teg_net::{Net, Place, TransitionId};

// Rows of dates, one after another from number 1 on, with one date for each transition in order.
#[derive(Drop)]
pub(crate) struct FoundRows<'n> {
    net: &'n Net,
    count: usize,
    pub(crate) dates: Vec<Date>,
}

// A number past which the rows go on, in how many, and by which steps.
#[derive(Drop)]
pub(crate) struct FoundForm {
    pub(crate) after: u64,
    pub(crate) period: u64,
    pub(crate) steps: Vec<i128>,
}

// The date so much later.
fn moved(date: Date, by: i128) -> Date {
    match date {
        Date::At(date) => Date::At(date.saturating_add(by)),
        other => other,
    }
}

// What lies between two dates, 0 where one is no number.
fn between(date: Date, other: Date) -> i128 {
    match (date, other) {
        (Date::At(date), Date::At(other)) => other.saturating_sub(date),
        _ => 0,
    }
}

// The most tokens of a place, and at least 1.
fn most_tokens(net: &Net) -> usize {
    let mut most = 1u32;
    for place in net.places() {
        most = most.max(place.tokens);
    }
    most as usize
}

impl<'n> FoundRows<'n> {
    // No rows of this net.
    pub(crate) fn new(alloc: Global, net: &'n Net) -> FoundRows<'n> {
        FoundRows {
            net,
            count: 0,
            dates: Vec::new(alloc),
        }
    }

    // How many dates a row has.
    fn width(&self) -> usize {
        self.net.transitions().len()
    }

    // Where the date of the firing stands.
    fn cell(&self, index: usize, number: usize) -> usize {
        let row = number.saturating_sub(1).saturating_mul(self.width());
        row.saturating_add(index)
    }

    // The date of the firing, 0 before the first.
    fn date(&self, index: usize, number: usize) -> Date {
        if number == 0 {
            return Date::At(0);
        }
        let cell = self.cell(index, number);
        self.dates.get(cell).copied().unwrap_or(Date::Early)
    }

    // The date from which the firing has what it waits for at the place.
    fn token(&self, place: &Place, number: usize) -> Date {
        let tokens = place.tokens as usize;
        if number <= tokens {
            let ready = place.ready.as_slice().get(number.saturating_sub(1));
            return Date::At(ready.map_or(0, |ready| i128::from(*ready)));
        }
        let upstream = self.date(place.from.index(), number.saturating_sub(tokens));
        moved(upstream, i128::from(place.hold))
    }

    // The date before which the firing is not released.
    fn release(&self, index: usize, number: usize) -> Date {
        let Ok(index) = u32::try_from(index) else {
            return Date::At(0);
        };
        let (input, number) = (TransitionId::new(index), number as u64);
        if !self.net.is_input(input) || number < 1 || number > 1_000_000 {
            return Date::At(0);
        }
        match self.net.input_date(input, number) {
            Some(date) => Date::At(date as i128),
            None => Date::Never,
        }
    }

    // Raises the dates of a row to what its firings wait for at places, and tells whether one rose.
    fn raise(&mut self, number: usize) -> bool {
        let net = self.net;
        let mut rose = false;
        for place in net.places() {
            let index = place.to.index();
            let before = self.date(index, number);
            let date = before.later(self.token(place, number));
            let cell = self.cell(index, number);
            if date != before && cell < self.dates.len() {
                self.dates[cell] = date;
                rose = true;
            }
        }
        rose
    }

    // Appends rows up to this number.
    pub(crate) fn go_to(&mut self, last: usize) -> Result<(), AllocError> {
        let first = self.count;
        for before in first..last {
            let number = before.saturating_add(1);
            for index in 0..self.width() {
                let earlier = self.date(index, before);
                let release = self.release(index, number);
                self.dates.push(earlier.later(release))?;
            }
            for _ in 0..self.width() {
                if !self.raise(number) {
                    break;
                }
            }
        }
        self.count = self.count.max(last);
        Ok(())
    }

    // Whether the row so many numbers on is this one moved by the steps.
    fn moves_at(&self, steps: &[i128], period: usize, number: usize) -> bool {
        for (index, step) in steps.iter().enumerate() {
            let later = self.date(index, number.saturating_add(period));
            if later != moved(self.date(index, number), *step) {
                return false;
            }
        }
        true
    }

    // The number past which the rows go on by the steps.
    fn start(&self, steps: &[i128], period: usize) -> usize {
        let last = self.count.saturating_sub(period);
        for passed in 0..last {
            let number = last.saturating_sub(passed);
            if !self.moves_at(steps, period, number) {
                return number;
            }
        }
        0
    }

    // The form with this period, if the rows show one.
    fn form_by(&self, alloc: Global, period: usize) -> Result<Option<FoundForm>, AllocError> {
        let mut steps = Vec::new(alloc);
        for index in 0..self.width() {
            let before = self.date(index, self.count.saturating_sub(period));
            steps.push(between(before, self.date(index, self.count)))?;
        }
        let after = self.start(&steps, period);
        let room = period
            .saturating_mul(2)
            .saturating_add(most_tokens(self.net));
        if after.saturating_add(room) >= self.count {
            return Ok(None);
        }
        Ok(Some(FoundForm {
            after: after as u64,
            period: period as u64,
            steps,
        }))
    }

    // The form of the least period that the rows show.
    pub(crate) fn form(&self, alloc: Global) -> Result<Option<FoundForm>, AllocError> {
        for before in 0..self.count / 3 {
            if let Some(form) = self.form_by(alloc, before.saturating_add(1))? {
                return Ok(Some(form));
            }
        }
        Ok(None)
    }
}
