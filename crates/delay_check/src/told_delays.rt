//! The delays that a text of `teg timetable` tells. Nothing rests on them: what is read is checked.
use delay_laws::Timetable;
use dioid::Date;
use release_nets::Planned;
use std::alloc::{AllocError, Global};
use teg_net::{Circuit, Net};
use witness_check::{places_named, settled_in_line};

// A number, a period, and the delays of each transition up to the end of the first period, one
// transition after another.
#[derive(Drop)]
pub(crate) struct ToldDelays {
    pub(crate) after: u64,
    pub(crate) turn: u64,
    delays: Vec<u64>,
}

// Delays that a circuit keeps.
#[derive(Drop)]
pub(crate) struct ToldKept {
    pub(crate) circuit: Circuit,
    pub(crate) spread: ToldDelays,
}

// Delays that are over past a number.
#[derive(Drop)]
pub(crate) struct ToldRecovered {
    pub(crate) last: u64,
    pub(crate) spread: ToldDelays,
}

// The delays of a line of so many.
fn push_delays(
    alloc: Global,
    delays: &mut Vec<u64>,
    line: &str,
    count: usize,
) -> Result<bool, AllocError> {
    let words: Vec<&str> = line.split_whitespace().collect(alloc)?;
    let ["delays", _, told @ ..] = words.as_slice() else {
        return Ok(false);
    };
    if told.len() != count {
        return Ok(false);
    }
    for word in told {
        let Ok(delay) = word.parse::<u64>() else {
            return Ok(false);
        };
        delays.push(delay)?;
    }
    Ok(true)
}

// The delays that these lines tell behind the first one of the text; none where a line is none of
// its lines.
fn delays_in(
    alloc: Global,
    net: &Net,
    first: &str,
    lines: &[&str],
) -> Result<Option<ToldDelays>, AllocError> {
    let Some((after, turn)) = settled_in_line(alloc, first)? else {
        return Ok(None);
    };
    let count = after.saturating_add(turn) as usize;
    let mut delays = Vec::new(alloc);
    for line in lines {
        if !push_delays(alloc, &mut delays, line, count)? {
            return Ok(None);
        }
    }
    if Some(delays.len()) != count.checked_mul(net.transitions().len()) {
        return Ok(None);
    }
    Ok(Some(ToldDelays {
        after,
        turn,
        delays,
    }))
}

// What the text tells of delays that are kept; none where a line is none of its lines.
pub(crate) fn kept_in(
    alloc: Global,
    net: &Net,
    text: &str,
) -> Result<Option<ToldKept>, AllocError> {
    let lines: Vec<&str> = text.lines().collect(alloc)?;
    let [first, "kept", circuit, told @ ..] = lines.as_slice() else {
        return Ok(None);
    };
    let Some(words) = circuit.strip_prefix("circuit") else {
        return Ok(None);
    };
    let Some(places) = places_named(alloc, net, words)? else {
        return Ok(None);
    };
    let Some(spread) = delays_in(alloc, net, first, told)? else {
        return Ok(None);
    };
    Ok(Some(ToldKept {
        circuit: Circuit { places },
        spread,
    }))
}

// What the text tells of delays that are over; none where a line is none of its lines.
pub(crate) fn recovered_in(
    alloc: Global,
    net: &Net,
    text: &str,
) -> Result<Option<ToldRecovered>, AllocError> {
    let lines: Vec<&str> = text.lines().collect(alloc)?;
    let [first, second, told @ ..] = lines.as_slice() else {
        return Ok(None);
    };
    let Some(number) = second.strip_prefix("recovered after ") else {
        return Ok(None);
    };
    let Ok(last) = number.parse::<u64>() else {
        return Ok(None);
    };
    let Some(spread) = delays_in(alloc, net, first, told)? else {
        return Ok(None);
    };
    Ok(Some(ToldRecovered { last, spread }))
}

// The most tokens of a place, and at least 1.
fn most_tokens(net: &Net) -> u64 {
    let mut most = 1u64;
    for place in net.places() {
        most = most.max(u64::from(place.tokens));
    }
    most
}

impl ToldDelays {
    // How many delays of each transition are told.
    fn count(&self) -> usize {
        self.after.saturating_add(self.turn) as usize
    }

    // Up to which number dates are looked at: past the number by two periods and the most tokens of
    // a place.
    fn numbers(&self, net: &Net) -> usize {
        let told = self.after.saturating_add(self.turn);
        let rows = told
            .saturating_add(self.turn)
            .saturating_add(most_tokens(net));
        rows as usize
    }

    // The delay at this number, counted from 0: past those that are told that of a period before.
    fn delay(&self, index: usize, number: usize) -> u64 {
        let count = self.count();
        let mut at = number;
        if at >= count && self.turn > 0 {
            let turn = self.turn as usize;
            let past = at.saturating_sub(count) / turn;
            at = at.saturating_sub(past.saturating_add(1).saturating_mul(turn));
        }
        let cell = index.saturating_mul(count).saturating_add(at);
        self.delays.get(cell).copied().unwrap_or(0)
    }

    // Appends the date of each transition at this number, counted from 0: the plan and its delay.
    fn push_dates(
        &self,
        dates: &mut Vec<Date>,
        releases: &ReleaseRows<'_>,
        number: usize,
    ) -> Result<(), AllocError> {
        for index in 0..releases.last.len() {
            let delay = i128::from(self.delay(index, number));
            let planned = releases.planned(index, number);
            dates.push(Date::At(planned.saturating_add(delay)))?;
        }
        Ok(())
    }

    // The step of each of so many rows: a planned period for each number of the told one.
    pub(crate) fn steps(
        &self,
        alloc: Global,
        period: u64,
        width: usize,
    ) -> Result<Vec<i128>, AllocError> {
        let step = i128::from(period).saturating_mul(i128::from(self.turn));
        let steps = vec![in alloc; step; width]?;
        Ok(steps)
    }

    // The dates, row after row: those of the transitions, and their releases.
    pub(crate) fn dates(
        &self,
        alloc: Global,
        planned: &Planned<'_>,
    ) -> Result<Vec<Date>, AllocError> {
        let numbers = self.numbers(planned.net);
        let width = planned.net.transitions().len();
        let mut releases = ReleaseRows::new(alloc, width, numbers, planned)?;
        let mut dates = Vec::new(alloc);
        for number in 0..numbers {
            self.push_dates(&mut dates, &releases, number)?;
            releases.go_to(number);
            releases.push_releases(&mut dates)?;
        }
        Ok(dates)
    }
}

// The delays that are given, row after row, and the release of each transition at one number.
#[derive(Drop)]
struct ReleaseRows<'t> {
    period: u64,
    table: &'t Timetable,
    given: Vec<u64>,
    last: Vec<i128>,
}

impl<'t> ReleaseRows<'t> {
    // Those before the first of so many numbers.
    fn new(
        alloc: Global,
        width: usize,
        numbers: usize,
        planned: &Planned<'t>,
    ) -> Result<ReleaseRows<'t>, AllocError> {
        let table = planned.table;
        let mut given = vec![in alloc; 0u64; numbers.saturating_mul(width)]?;
        for delay in &table.delays {
            let before = (delay.number as usize).saturating_sub(1);
            let row = before.saturating_mul(width);
            let cell = row.saturating_add(delay.transition.index as usize);
            if cell < given.len() {
                given[cell] = delay.by;
            }
        }
        Ok(ReleaseRows {
            period: planned.period,
            table,
            given,
            last: vec![in alloc; 0i128; width]?,
        })
    }

    // The planned date of the transition at this number, counted from 0.
    fn planned(&self, index: usize, number: usize) -> i128 {
        let first = self.table.firsts.get(index).copied().unwrap_or(0);
        let periods = i128::from(self.period).saturating_mul(i128::from(number as u64));
        i128::from(first).saturating_add(periods)
    }

    // Goes on to this number, counted from 0.
    fn go_to(&mut self, number: usize) {
        let width = self.last.len();
        for index in 0..width {
            let cell = number.saturating_mul(width).saturating_add(index);
            let by = self.given.get(cell).copied().unwrap_or(0);
            let date = self.planned(index, number).saturating_add(i128::from(by));
            self.last[index] = self.last[index].max(date);
        }
    }

    // Appends the release of each transition.
    fn push_releases(&self, dates: &mut Vec<Date>) -> Result<(), AllocError> {
        for date in &self.last {
            dates.push(Date::At(*date))?;
        }
        Ok(())
    }
}
