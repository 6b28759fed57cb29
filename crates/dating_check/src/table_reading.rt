//! The table that a text of `teg jit` tells. Nothing rests on it: what is read is checked.
use dioid::Date;
use std::alloc::{AllocError, Global};
use teg_due::{Due, DueRow};
use teg_net::{Names, Net, Step};

// Rows of dates from number 1 up to a number, one after another with one date for each transition
// in order, and so for each date the first step of a walk by which it is attained, if there is one,
// and where the row of its firing stands in the due list.
#[derive(Drop)]
pub(crate) struct TableTold {
    pub(crate) numbers: u32,
    pub(crate) dates: Vec<Date>,
    pub(crate) ways: Vec<Option<Step>>,
    pub(crate) due_places: Vec<usize>,
}

// The number of the first line.
fn numbers_in(alloc: Global, line: &str) -> Result<Option<u32>, AllocError> {
    let words: Vec<&str> = line.split_whitespace().collect(alloc)?;
    let ["latest", "inputs", "for", numbers, "firings"] = words.as_slice() else {
        return Ok(None);
    };
    Ok(numbers.parse::<u32>().ok())
}

// The date and the step of a line.
fn cell_in(
    alloc: Global,
    names: &Names,
    line: &str,
) -> Result<Option<(Date, Option<Step>)>, AllocError> {
    let words: Vec<&str> = line.split_whitespace().collect(alloc)?;
    let (date, way) = match words.as_slice() {
        [_, _, _, "free"] => return Ok(Some((Date::Never, None))),
        [_, _, _, date, "due"] => (date, None),
        [_, _, _, date, "next"] => (date, Some(Step::Next)),
        [_, _, _, date, "by", name] => match names.place(name) {
            Some(place) => (date, Some(Step::By(place))),
            None => return Ok(None),
        },
        _ => return Ok(None),
    };
    match date.parse::<i128>() {
        Ok(date) => Ok(Some((Date::At(date), way))),
        Err(_) => Ok(None),
    }
}

impl TableTold {
    // Writes the date and the step of the line of this number, counted from 0 behind the first: the
    // lines of a transition stand together.
    fn put(&mut self, width: usize, line: usize, date: Date, way: Option<Step>) {
        let numbers = self.numbers as usize;
        if numbers == 0 {
            return;
        }
        let start = (line % numbers).checked_mul(width);
        if let Some(cell) = start.and_then(|start| start.checked_add(line / numbers)) {
            if cell < self.dates.len() && cell < self.ways.len() {
                self.dates[cell] = date;
                self.ways[cell] = way;
            }
        }
    }
}

// For each firing up to a number, number by number, where its row stands in the list.
fn places_of(
    alloc: Global,
    width: usize,
    cells: usize,
    rows: &[DueRow],
) -> Result<Vec<usize>, AllocError> {
    let mut places = vec![in alloc; rows.len(); cells]?;
    for (place, row) in rows.iter().enumerate() {
        let start = (row.number as usize).saturating_sub(1).checked_mul(width);
        let cell = start.and_then(|start| start.checked_add(row.transition.index()));
        if let Some(cell) = cell {
            if cell < places.len() {
                places[cell] = place;
            }
        }
    }
    Ok(places)
}

// The table that the text tells; none where a line is none of its lines.
pub(crate) fn table_in(
    alloc: Global,
    net: &Net,
    due: &Due,
    text: &str,
) -> Result<Option<TableTold>, AllocError> {
    let (first, rest) = text.split_once('\n').unwrap_or((text, ""));
    let Some(numbers) = numbers_in(alloc, first)? else {
        return Ok(None);
    };
    let width = net.transitions().len();
    let cells = rest.lines().count();
    if (numbers as usize).checked_mul(width) != Some(cells) {
        return Ok(None);
    }
    let Ok(names) = Names::of(alloc, net) else {
        return Err(AllocError);
    };
    let mut table = TableTold {
        numbers,
        dates: vec![in alloc; Date::Never; cells]?,
        ways: vec![in alloc; None; cells]?,
        due_places: places_of(alloc, width, cells, &due.rows)?,
    };
    for (index, line) in rest.lines().enumerate() {
        let Some((date, way)) = cell_in(alloc, &names, line)? else {
            return Ok(None);
        };
        table.put(width, index, date, way);
    }
    Ok(Some(table))
}
