//! The greatest lead of a series over one of a greater slope, without a walk over the common
//! period.
//!
//! From where both repeat the first gains on the second in each common period, so the greatest lead
//! on one is the greatest of all. The leads at a place and whole periods of the first past it
//! differ by the second's values and by the steps of the first: back along a cycle of such places
//! the greatest of them is known from the place after it. Twice round each cycle meets all of them.
ghost use Rattle.std.specs.Prelude.{◌≡◌, ◌≤◌, ◌<◌, ◌+◌, ◌-◌, ◌*◌, ◌/◌, ◌%◌, ◌-ℤ◌, ◌≤ℤ◌, cond, ltb};
ghost use Rattle.std.specs.Int.{int_max};
ghost use Rattle.std.specs.Int.RustNames.{unsigned_abs};
ghost use Rattle.series_laws.specs.SeriesForms.{value_at};
ghost use Rattle.series_laws.specs.Needs.{later_start, lead_of};
ghost use Rattle.series_form.specs.NumberBounds.{IsSeries};
ghost use Rattle.series_form.specs.Leads.{NoGreaterLead, IsGaining, IsReach, climb_of, cover_of, gain_from_before, lead_past, integer_of_date, place_before, width_of};
ghost use Rattle.series_form.specs.SeriesLimits.{greatest_gain, greatest_moderate};

use crate::forms::Series;
use crate::plans::{common_start, turns_between};
use crate::values::gap_of;
use dioid::Date;

// A place of the second series, in shifts past where both repeat, and the greatest of its numbers
// there and whole periods of the first later, less what the first gains till then.
#[derive(Clone, Copy)]
struct Reach {
    place: usize,
    height: i128,
}

// The greater of two numbers.
fn greater(first: i128, second: i128) -> i128
    ensures { result ≡ int_max first second }
{
    if first < second { second } else { first }
}

// The number of a series at a shift, 0 where it has none.
fn number_at(series: &Series, shift: usize) -> i128
    requires { shift ≤ 100000 }
    ensures value { result ≡ integer_of_date (value_at series.now shift) }
    ensures bound { unsigned_abs result ≤ greatest_moderate }
{
    match series.at(shift as u64) {
        Date::At(number) => number,
        _ => 0,
    }
}

// The least number of periods of the second series that are no shorter than one of the first.
fn cover(first: &Series, second: &Series) -> usize
    ensures value { result ≡ cover_of first.now second.now }
    ensures bound { result ≤ 20000 }
    ensures left { IsSeries first.now }
{
    (first.period() + (second.period() - 1)) / second.period()
}

// The shifts of these periods.
fn width(first: &Series, second: &Series) -> usize
    ensures value { result ≡ width_of first.now second.now }
    ensures bound { result ≤ 40000 }
    ensures covers { first.now.period ≤ result }
    ensures right { IsSeries second.now }
{
    cover(first, second) * second.period()
}

// What the second series gains in them.
fn climb(first: &Series, second: &Series) -> i128
    ensures value { result ≡ climb_of first.now second.now }
    ensures bound { unsigned_abs result ≤ greatest_gain }
{
    cover(first, second) as i128 * second.step()
}

// The place a period of the first series before.
fn before(first: &Series, second: &Series, place: usize) -> usize
    requires { place < width_of first.now second.now }
    ensures value { result ≡ place_before first.now second.now place }
    ensures within { result < width_of first.now second.now }
    ensures bound { result ≤ 40000 }
{
    let width = width(first, second);
    let period = first.period();
    if place < period {
        return place + width - period;
    }
    place - period
}

// What the second series gains on the first from there to the place.
fn gain(first: &Series, second: &Series, place: usize) -> i128
    ensures value { result ≡ gain_from_before first.now second.now place }
    ensures bound { unsigned_abs result ≤ greatest_moderate }
{
    if place < first.period() {
        return climb(first, second) - first.step();
    }
    -first.step()
}

// One place back.
fn step_back(first: &Series, second: &Series, reach: Reach, periods: usize) -> Reach
    requires gaining { IsGaining first.now second.now }
    requires periods { periods ≤ 100000 }
    requires reach { IsReach first.now second.now periods reach.place reach.height }
    requires bound { unsigned_abs reach.height ≤ (periods + 1) * greatest_moderate }
    ensures place { result.place ≡ place_before first.now second.now reach.place }
    ensures reach { IsReach first.now second.now (periods + 1) result.place result.height }
    ensures bound { unsigned_abs result.height ≤ (periods + 2) * greatest_moderate }
{
    let place = before(first, second, reach.place);
    let here = number_at(second, common_start(first, second) + place);
    let later = reach.height + gain(first, second, reach.place);
    Reach {
        place,
        height: greater(here, later),
    }
}

// The greater of a lead and the greatest one from a place.
fn better(first: &Series, second: &Series, reach: Reach, best: i128) -> i128
    requires place { reach.place ≤ 40000 }
    requires bound { unsigned_abs reach.height ≤ 100000 * greatest_moderate }
    ensures { result ≡ cond (ltb reach.place first.now.period)
        (int_max best (reach.height -ℤ integer_of_date
        (value_at first.now (later_start first.now second.now + reach.place)))) best }
{
    if reach.place < first.period() {
        let here = number_at(first, common_start(first, second) + reach.place);
        return greater(best, reach.height - here);
    }
    best
}

// The greatest of a known lead and those of a cycle, twice round it.
fn best_on_cycle(first: &Series, second: &Series, start: usize, turns: usize, known: i128) -> i128
    requires gaining { IsGaining first.now second.now }
    requires start { start < width_of first.now second.now }
    requires turns { turns ≤ 40000 }
    requires known { known ≤ℤ lead_of first.now second.now }
    ensures no_more { result ≤ℤ lead_of first.now second.now }
    ensures kept { known ≤ℤ result }
    ensures led { NoGreaterLead first.now second.now start (2 * turns) result }
{
    let mut best = known;
    let mut reach = Reach {
        place: start,
        height: number_at(second, common_start(first, second) + start),
    };
    for periods in 0..2 * turns {
        reach = step_back(first, second, reach, periods);
        best = better(first, second, reach, best);
    }
    best
}

// The lead of the second series over the first from where both repeat.
fn first_lead(first: &Series, second: &Series) -> i128
    ensures value { result ≡ lead_past first.now second.now 0 }
{
    let shift = common_start(first, second) as u64;
    gap_of(first.at(shift), second.at(shift))
}

// The greatest lead of the second series over the first, of the greater slope, on the common
// period. The work is of the order of the two periods.
pub(crate) fn greatest_lead(first: &Series, second: &Series) -> i128
    requires { IsGaining first.now second.now }
    ensures value { result ≡ lead_of first.now second.now }
    ensures bound { unsigned_abs result ≤ greatest_moderate }
{
    let width = width(first, second);
    let turns = turns_between(first.period(), width);
    let mut best = first_lead(first, second);
    for start in 0..width / turns {
        best = best_on_cycle(first, second, start, turns, best);
    }
    best
}
