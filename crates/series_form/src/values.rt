//! Values of a form, far out too.
ghost use Rattle.std.specs.Prelude.{◌≡◌, ◌≤◌, ◌<◌, ◌↔◌, ◌*◌, IsTrue, length, FitsSigned};
ghost use Rattle.std.specs.Int.{w128};
ghost use Rattle.std.specs.Int.RustNames.{unsigned_abs};
ghost use Rattle.dioid.specs.declared.dates.Date.{Date};
ghost use Rattle.series_laws.specs.SeriesForms.{value_at, form_with, date_eqb, gap};
ghost use Rattle.series_form.specs.NumberBounds.{IsModerate, IsModerateDate};
ghost use Rattle.dioid.specs.Dates.{move};
ghost use Rattle.series_laws.specs.Periodic.{times};
ghost use Rattle.series_form.specs.SeriesLimits.{greatest_value, greatest_moderate, greatest_reach};

use dioid::Date;

// Whether two lists of dates are equal.
pub(crate) fn same_values(values: &[Date], other: &[Date]) -> bool
    ensures { IsTrue result ↔ (values.now ≡ other.now) }
{
    if values.len() != other.len() {
        return false;
    }
    for index in 0..values.len() {
        if values[index] != other[index] {
            return false;
        }
    }
    true
}

// The value of the form at a shift.
pub(crate) fn value_of(values: &[Date], period: usize, step: i128, shift: u64) -> Date
    requires positive { 0 < period }
    requires fits { period ≤ length values.now }
    requires moderate { IsModerate (form_with values.now period step) }
    requires within { shift ≤ greatest_value }
    requires reach { shift * unsigned_abs step ≤ greatest_reach }
    ensures { result ≡ value_at (form_with values.now period step) shift }
{
    let shift = shift as usize;
    if shift < values.len() {
        return values[shift];
    }
    let start = values.len() - period;
    let turns = (shift - start) / period;
    later_by(values[start + (shift - start) % period], turns, step)
}

// The date moved by a number of steps.
fn later_by(date: Date, turns: usize, step: i128) -> Date
    requires date { IsModerateDate date }
    requires turns { turns ≤ greatest_value }
    requires step { unsigned_abs step ≤ greatest_moderate }
    requires reach { turns * unsigned_abs step ≤ greatest_reach }
    ensures { result ≡ move (times turns step) date }
{
    match date {
        Date::At(time) => Date::At(time + turns as i128 * step),
        Date::Early => Date::Early,
        Date::Never => Date::Never,
    }
}

// Whether the second date is the first, moved by `jump`.
pub(crate) fn is_moved(here: Date, there: Date, jump: i128) -> bool
    ensures { result ≡ date_eqb there (move jump here) }
{
    match (here, there) {
        (Date::Early, Date::Early) => true,
        (Date::Never, Date::Never) => true,
        (Date::At(first), Date::At(second)) => match first.checked_add(jump) {
            Some(sum) => second == sum,
            None => false,
        },
        _ => false,
    }
}

// What the second date is above the first, 0 unless both are numbers.
pub(crate) fn gap_of(first: Date, second: Date) -> i128
    requires { FitsSigned w128 (gap first second) }
    ensures { result ≡ gap first second }
{
    match (first, second) {
        (Date::At(first), Date::At(second)) => second - first,
        _ => 0,
    }
}
