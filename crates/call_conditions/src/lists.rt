//! What is asked of the list of a series.
ghost use Rattle.std.specs.Prelude.{◌↔◌, ◌+◌, ◌-◌, ◌<◌, ◌≤◌, ℕ, IsTrue, length, get_or};
ghost use Rattle.dioid.specs.declared.dates.Date.TheVariants.{Early};
ghost use Rattle.dioid.specs.Dates.{IsAtMostDate, move};
ghost use Rattle.series_laws.specs.Periodic.{Rising};
ghost use Rattle.series_laws.specs.SeriesForms.{form_with, value_at};

use dioid::Date;

// Whether a date is at most another one.
fn is_at_most(date: Date, other: Date) -> bool
    ensures { IsTrue result ↔ IsAtMostDate date other }
{
    match (date, other) {
        (Date::Early, _) | (_, Date::Never) => true,
        (Date::At(first), Date::At(second)) => first <= second,
        _ => false,
    }
}

// Whether no value of the list is later than the one after it.
fn rises(values: &[Date]) -> bool
    ensures { IsTrue result ↔ ((k : ℕ) → k + 1 < length values.now
        → IsAtMostDate (get_or values.now k Early) (get_or values.now (k + 1) Early)) }
{
    for index in 1..values.len() {
        if !is_at_most(values[index - 1], values[index]) {
            return false;
        }
    }
    true
}

// Whether a date is at most another one, moved by a step of any size.
fn is_at_most_moved(date: Date, start: Date, step: i128) -> bool
    ensures { IsTrue result ↔ IsAtMostDate date (move step start) }
{
    match (date, start) {
        (Date::Early, _) | (_, Date::Never) => true,
        (Date::At(number), Date::At(from)) => match from.checked_add(step) {
            Some(moved) => number <= moved,
            None => step > 0,
        },
        _ => false,
    }
}

// Whether the last value is at most the first of the period, moved by the step.
fn goes_on(values: &[Date], period: usize, step: i128) -> bool
    requires positive { 0 < period }
    requires fits { period ≤ length values.now }
    ensures { IsTrue result ↔ IsAtMostDate (get_or values.now (length values.now - 1) Early)
        (move step (get_or values.now (length values.now - period) Early)) }
{
    let last = values[values.len() - 1];
    let start = values[values.len() - period];
    is_at_most_moved(last, start, step)
}

/// Whether the function that a list gives never falls: its values, of which the last `period` go on
/// by `step`, with numbers of any size (chapter 5). `Series::from_list` asks for it. It takes no
/// memory, and a step a value.
pub fn is_rising(values: &[Date], period: usize, step: i128) -> bool
    requires positive { 0 < period }
    requires fits { period ≤ length values.now }
    ensures { IsTrue result ↔ Rising (value_at (form_with values.now period step)) }
{
    rises(values) && goes_on(values, period, step)
}
