//! From which number on no date comes after it is due, past a number from which dates and due dates
//! repeat, each after its own firings: by one look at each of them, and not along their common
//! period.
//!
//! The dates of a cycle lie under a line that rises as they do in the long run, and the due dates
//! of one turn lie over a line that rises as those do. Where the first line begins no higher than
//! the second, and rises no faster, no date is late; where it begins higher and rises more slowly,
//! none is late from where the lines cross on. Lines are drawn for each class of numbers: those of
//! one rest by the greatest common divisor of the two periods, since a date of one class is never
//! due by a due date of another. Within a class each date meets each due date, so where both rise
//! alike and the first line begins higher one of them is late.
ghost use Rattle.std.specs.Prelude.{◌≡◌, ◌≤◌, ◌<◌, ◌+◌, ◌*◌, ◌/◌, IfSome};
ghost use Rattle.std.specs.Int.{◌∣◌, IsGcd};
ghost use Rattle.teg_net.specs.Limits.{greatest_every, greatest_firing_number, greatest_input_date, most_rows};
ghost use Rattle.forever_laws.specs.teg_model.DateBounds.{greatest_least_date};
ghost use Rattle.endless_due.specs.EndlessRows.{most_endless_dates};
ghost use Rattle.forever_laws.specs.settled_laws.SettledForms.{settled_date};
ghost use Rattle.teg_forever.specs.LateFirings.{AreApartAfter, AreDatesUnder, AreDuesOver, IsClassOf, IsCycleOf, IsGoingRow, NoneLateInClass, NoneLatePast, GoesOnPast, greatest_row_number, member, most_cycle};

use crate::dues::due_at;
use crate::settled_row::{Cycle, SettledRow};
use endless_due::EndlessRow;

// The longest cycle that is looked at, so that all products are small.
const MOST_CYCLE: u64 = 100_000;

// A class of places: those of one rest, divided by a number.
#[derive(Clone, Copy)]
struct Class {
    divisor: u64,
    rest: u64,
}

// The greatest common divisor, by Euclid's rule.
fn common_divisor(first: u64, second: u64) -> u64
    ensures { IsGcd first second result }
{
    let (mut divisor, mut rest) = (first, second);
    while rest != 0 {
        let next = divisor % rest;
        divisor = rest;
        rest = next;
    }
    divisor
}

// A place of the class among `count` places, by its number in the class.
fn place_in(class: Class, count: u64, number: u64) -> u64
    requires class { class.rest < class.divisor }
    requires number { number < count / class.divisor }
    ensures value { result ≡ member class number }
    ensures within { result < count }
{
    number * class.divisor + class.rest
}

// Where a line has to begin at least, the rise for each firing of the cycle added, so that this
// date, at this place of the cycle, is not above it.
fn start_under(cycle: Cycle, date: u128, place: u64) -> u128
    requires firings { cycle.firings ≤ most_cycle }
    requires rise { cycle.rise ≤ greatest_least_date }
    requires date { date ≤ greatest_least_date }
    requires place { place < cycle.firings }
    ensures { cycle.firings * date + cycle.rise * cycle.firings ≤ result + cycle.rise * place }
{
    let height = u128::from(cycle.firings) * date;
    height + cycle.rise * u128::from(cycle.firings - place)
}

// Where a line begins, the rise for each firing of the cycle added, that no date of the class past
// the number is above.
fn line_under(row: &SettledRow<'_>, past: u64, cycle: Cycle, class: Class) -> u128
    requires past { past ≤ most_rows + most_endless_dates }
    requires firings { cycle.firings ≤ most_cycle }
    requires rise { cycle.rise ≤ greatest_least_date }
    requires class { class.rest < class.divisor }
    ensures { AreDatesUnder row.now.settled row.now.row.transition.index past cycle class result }
{
    let mut start: u128 = 0;
    for number in 0..cycle.firings / class.divisor {
        let place = place_in(class, cycle.firings, number);
        let date = row.least(past + 1 + place);
        start = start.max(start_under(cycle, date, place));
    }
    start
}

// Where a line may begin at most, a gap for each firing of a turn added, so that this due date, at
// this place of the turn, is not below it.
fn start_over(row: &EndlessRow, due: u128, place: u64) -> u128
    requires every { row.now.every ≤ greatest_every }
    requires gap { row.now.gap ≤ greatest_input_date }
    requires due { due ≤ greatest_input_date * greatest_row_number }
    requires place { place < row.now.every }
    ensures { result + row.now.gap * place ≤ row.now.every * due + row.now.gap * row.now.every }
{
    let height = u128::from(row.every) * due;
    height + u128::from(row.gap) * u128::from(u64::from(row.every) - place)
}

// Where a line begins, a gap for each firing of a turn added, that no due date of the class past
// the number is below.
fn line_over(row: &EndlessRow, past: u64, class: Class) -> u128
    requires row { IsGoingRow row.now }
    requires past { past ≤ most_rows + most_endless_dates }
    requires class { class.rest < class.divisor }
    ensures { AreDuesOver row.now past class result }
{
    let every = row.every as u64;
    let mut start = u128::MAX;
    for number in 0..every / class.divisor {
        let place = place_in(class, every, number);
        let due = due_at(row, past + 1 + place);
        start = start.min(start_over(row, due, place));
    }
    start
}

// So many times a height, and more, if it can be held.
fn scaled(times: u128, height: u128, more: u128) -> Option<u128>
    ensures { IfSome result (λ sum. sum ≡ times * height + more) }
{
    match times.checked_mul(height) {
        Some(product) => product.checked_add(more),
        None => None,
    }
}

// How many times a gain makes up for what is missing, if so many are enough.
fn times_to_gain(missing: u128, gain: u128, most: u64) -> Option<u64>
    ensures enough { IfSome result (λ times. missing ≤ times * gain) }
    ensures most { IfSome result (λ times. times ≤ most) }
{
    if missing == 0 {
        return Some(0);
    }
    if gain == 0 {
        return None;
    }
    let times = missing.div_ceil(gain);
    if times <= u128::from(most) {
        Some(times as u64)
    } else {
        None
    }
}

// After how many places the line under the dates is no higher than that over the due dates, and
// rises no faster, if it is so after so many.
fn places_apart(row: &EndlessRow, cycle: Cycle, under: u128, over: u128, most: u64) -> Option<u64>
    requires row { IsGoingRow row.now }
    requires firings { cycle.firings ≤ most_cycle }
    requires rise { cycle.rise ≤ greatest_least_date }
    ensures apart { IfSome result (AreApartAfter row.now cycle under over) }
    ensures most { IfSome result (λ places. places ≤ most) }
{
    let every = u128::from(row.every);
    let firings = u128::from(cycle.firings);
    let gap = u128::from(row.gap);
    let dates = scaled(every, under, firings * (gap * every))?;
    let dues = scaled(firings, over, cycle.rise * firings * every)?;
    let (steep, fast) = (cycle.rise * every, firings * gap);
    if fast < steep {
        return None;
    }
    times_to_gain(dates.saturating_sub(dues), fast - steep, most)
}

// After how many places past the number no date of the class comes after it is due, where two lines
// show that, within one common period.
fn none_late_in(row: &SettledRow<'_>, past: u64, cycle: Cycle, class: Class) -> Option<u64>
    requires past { GoesOnPast row.now past }
    requires cycle { IsCycleOf row.now cycle }
    requires firings { cycle.firings ≤ most_cycle }
    requires class { IsClassOf cycle.firings row.now.row.every class }
    ensures none { IfSome result (λ places. NoneLateInClass (settled_date row.now.settled)
        row.now.row past places class) }
    ensures few { IfSome result (λ places. places ≤ most_cycle * greatest_every) }
{
    let under = line_under(row, past, cycle, class);
    let over = line_over(row.row(), past, class);
    let most = cycle.firings / class.divisor * u64::from(row.row().every);
    places_apart(row.row(), cycle, under, over, most)
}

// A number past which no date comes after it is due, where two lines for each class show that.
pub(crate) fn none_late_past(row: &SettledRow<'_>, past: u64, cycle: Cycle) -> Option<u64>
    requires past { GoesOnPast row.now past }
    requires cycle { IsCycleOf row.now cycle }
    ensures none { IfSome result (NoneLatePast (settled_date row.now.settled) row.now.row) }
    ensures few { IfSome result (λ last. last ≤ greatest_firing_number) }
{
    if cycle.firings > MOST_CYCLE {
        return None;
    }
    let divisor = common_divisor(cycle.firings, row.row().every as u64);
    let mut places: u64 = 0;
    for rest in 0..divisor {
        let more = none_late_in(row, past, cycle, Class { divisor, rest })?;
        places = places.max(more);
    }
    Some(past + places)
}
