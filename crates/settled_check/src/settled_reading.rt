//! The settled form that a text of `teg dates` tells. Nothing rests on it: what is read is checked.
use dioid::Date;
use std::alloc::{AllocError, Global};
use teg_net::Net;
use witness_check::settled_in_line;

// A number, a period, rows of dates, one after another from number 1 on with one date for each
// transition in order, and a step for each transition.
#[derive(Drop)]
pub(crate) struct SettledTold {
    pub(crate) after: u64,
    pub(crate) period: u64,
    pub(crate) dates: Vec<Date>,
    pub(crate) steps: Vec<i128>,
}

// A date that is told.
fn date_in(word: &str) -> Option<Date> {
    match word {
        "epsilon" => Some(Date::Early),
        "never" => Some(Date::Never),
        number => Some(Date::At(number.parse::<i128>().ok()?)),
    }
}

// The date moved by the step.
fn moved(date: Date, step: i128) -> Date {
    match date {
        Date::At(date) => Date::At(date.saturating_add(step)),
        other => other,
    }
}

// The most tokens of a place, and at least 1.
fn most_tokens(net: &Net) -> usize {
    let mut most = 1u32;
    for place in net.places() {
        most = most.max(place.tokens);
    }
    most as usize
}

// How many dates of each transition a form tells, and to how many rows they are to go on: past the
// number by two periods and the most tokens of a place.
fn sizes_of(net: &Net, after: u64, period: u64) -> Option<(usize, usize)> {
    let after = usize::try_from(after).ok()?;
    let period = usize::try_from(period).ok()?;
    let told = after.checked_add(period)?;
    let rows = told.checked_add(period)?.checked_add(most_tokens(net))?;
    Some((told, rows))
}

impl SettledTold {
    // Writes the date of this number, counted from 0, of the transition.
    fn put(&mut self, width: usize, index: usize, number: usize, date: Date) {
        let cell = number
            .checked_mul(width)
            .and_then(|start| start.checked_add(index));
        if let Some(cell) = cell {
            if cell < self.dates.len() {
                self.dates[cell] = date;
            }
        }
    }

    // Reads the line of the transition of this number, and tells whether it is one with so many
    // dates.
    fn line(
        &mut self,
        alloc: Global,
        told: usize,
        index: usize,
        line: &str,
    ) -> Result<bool, AllocError> {
        let words: Vec<&str> = line.split_whitespace().collect(alloc)?;
        let [_, _, dates @ .., "step", step] = words.as_slice() else {
            return Ok(false);
        };
        let width = self.steps.len();
        let Ok(step) = step.parse::<i128>() else {
            return Ok(false);
        };
        if dates.len() != told || index >= width {
            return Ok(false);
        }
        self.steps[index] = step;
        for (number, word) in dates.iter().enumerate() {
            match date_in(word) {
                Some(date) => self.put(width, index, number, date),
                None => return Ok(false),
            }
        }
        Ok(true)
    }

    // Goes on with the dates of so many rows: each is that of a period before, moved by the step.
    fn go_on(&mut self, told: usize, period: usize) {
        let width = self.steps.len();
        for cell in told.saturating_mul(width)..self.dates.len() {
            let before = cell.saturating_sub(period.saturating_mul(width));
            if width > 0 && before < self.dates.len() {
                self.dates[cell] = moved(self.dates[before], self.steps[cell % width]);
            }
        }
    }
}

// Whether the line has just so many words.
fn has_words(line: &str, count: usize) -> bool {
    line.split_whitespace().count() == count
}

// The form that the text tells, its dates as far on as they have to be looked at; none where a line
// is none of its lines.
pub(crate) fn settled_in(
    alloc: Global,
    net: &Net,
    text: &str,
) -> Result<Option<SettledTold>, AllocError> {
    let (first, rest) = text.split_once('\n').unwrap_or((text, ""));
    let Some((after, period)) = settled_in_line(alloc, first)? else {
        return Ok(None);
    };
    let Some((told, rows)) = sizes_of(net, after, period) else {
        return Ok(None);
    };
    // A number that no line has dates for takes no memory.
    let one = rest.lines().next().unwrap_or("");
    if !has_words(one, told.saturating_add(4)) {
        return Ok(None);
    }
    let width = net.transitions().len();
    let Some(cells) = rows.checked_mul(width) else {
        return Ok(None);
    };
    let mut form = SettledTold {
        after,
        period,
        dates: vec![in alloc; Date::Early; cells]?,
        steps: vec![in alloc; 0i128; width]?,
    };
    for (index, line) in rest.lines().enumerate() {
        if !form.line(alloc, told, index, line)? {
            return Ok(None);
        }
    }
    form.go_on(told, period as usize);
    Ok(Some(form))
}
