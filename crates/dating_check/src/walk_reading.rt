//! Walks that the lines of an answer tell. Nothing rests on them: what is read is checked.
use std::alloc::{AllocError, Global};
use teg_net::{Net, Step, TransitionId, Walk};

// The lines of a table of latest dates of so many numbers, with the line before them.
#[derive(Drop)]
struct TableLines<'t> {
    lines: Vec<&'t str>,
    numbers: usize,
}

impl<'t> TableLines<'t> {
    // The line of a firing.
    fn line(&self, transition: TransitionId, number: u64) -> Option<&'t str> {
        let number = usize::try_from(number).ok()?;
        let start = transition.index().checked_mul(self.numbers)?;
        self.lines.get(start.checked_add(number)?).copied()
    }

    // The walk that begins at the firing and goes from line to line to one that is due.
    fn walk_along(
        &self,
        alloc: Global,
        net: &Net,
        start: TransitionId,
        number: u64,
    ) -> Result<Option<Walk>, AllocError> {
        let mut steps = Vec::new(alloc);
        let (mut at, mut count) = (start, number);
        for _ in 0..self.lines.len() {
            let Some(line) = self.line(at, count) else {
                return Ok(None);
            };
            let words: Vec<&str> = line.split_whitespace().collect(alloc)?;
            match words.as_slice() {
                [_, _, _, _, "next"] => {
                    steps.push(Step::Next)?;
                    count = count.saturating_add(1);
                }
                [_, _, _, _, "by", name] => {
                    let Some(id) = net.find_place(name) else {
                        return Ok(None);
                    };
                    let Some(place) = net.places().get(id.index()) else {
                        return Ok(None);
                    };
                    steps.push(Step::By(id))?;
                    at = place.to;
                    count = count.saturating_add(u64::from(place.tokens));
                }
                _ => break,
            }
        }
        Ok(Some(Walk {
            start,
            number,
            steps,
        }))
    }
}

// The walk that the text of `teg jit` tells from this firing on.
pub(crate) fn walk_in(
    alloc: Global,
    net: &Net,
    text: &str,
    start: TransitionId,
    number: u64,
) -> Result<Option<Walk>, AllocError> {
    let lines: Vec<&str> = text.lines().collect(alloc)?;
    let count = net.transitions().len();
    if count == 0 || lines.len() == 0 {
        return Ok(None);
    }
    let numbers = (lines.len() - 1) / count;
    let table = TableLines { lines, numbers };
    table.walk_along(alloc, net, start, number)
}

// The steps of a path, of which each names a place or `next`, and the firing to which it leads.
fn steps_in(alloc: Global, net: &Net, words: &[&str]) -> Result<Option<Vec<Step>>, AllocError> {
    let mut steps = Vec::new(alloc);
    let mut rest = words;
    for _ in 0..words.len() {
        match rest {
            [] => break,
            ["by", name, _, _, tail @ ..] => {
                let Some(id) = net.find_place(name) else {
                    return Ok(None);
                };
                steps.push(Step::By(id))?;
                rest = tail;
            }
            ["next", _, _, tail @ ..] => {
                steps.push(Step::Next)?;
                rest = tail;
            }
            _ => return Ok(None),
        }
    }
    Ok(Some(steps))
}

// The walk of the line `path`.
pub(crate) fn path_in(alloc: Global, net: &Net, line: &str) -> Result<Option<Walk>, AllocError> {
    let words: Vec<&str> = line.split_whitespace().collect(alloc)?;
    let ["path", name, number, rest @ ..] = words.as_slice() else {
        return Ok(None);
    };
    let Some(start) = net.find(name) else {
        return Ok(None);
    };
    let Ok(number) = number.parse::<u64>() else {
        return Ok(None);
    };
    let Some(steps) = steps_in(alloc, net, rest)? else {
        return Ok(None);
    };
    Ok(Some(Walk {
        start,
        number,
        steps,
    }))
}
