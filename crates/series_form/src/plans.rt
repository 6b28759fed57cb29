//! Periods, starts and slopes of two series, and what they gain.
ghost use Rattle.std.specs.Prelude.{◌≡◌, ◌≤◌, ◌<◌, ◌+◌, ◌-◌, ◌*◌, ◌/◌, pos, ◌<ℤ◌, ◌-ℤ◌};
ghost use Rattle.std.specs.Int.RustNames.{unsigned_abs};
ghost use Rattle.series_laws.specs.Periodic.{times};
ghost use Rattle.series_laws.specs.SeriesForms.{repeat_start};
ghost use Rattle.series_form.specs.NumberBounds.{IsSeries};
ghost use Rattle.series_laws.specs.Needs.{turns_of, common, ceiling, later_start, period_with, rise_of, fall_of, tail_of, slopes_of, by_sign};
ghost use Rattle.series_form.specs.SeriesLimits.{most_common_shifts, greatest_gain, greatest_reach, greatest_gain_gap};

use crate::forms::Series;
use dioid::Date;
use series_laws::Slopes;

// The least number of turns of the first, one or more, that the second divides.
pub(crate) fn turns_between(first: usize, second: usize) -> usize
    requires first { 0 < first }
    requires second { 0 < second }
    requires first_bound { first ≤ 20000 }
    requires second_bound { second ≤ 40000 }
    ensures value { result ≡ turns_of first second }
    ensures positive { 0 < result }
    ensures bound { result ≤ second }
{
    for turns in 1..second {
        if turns * first % second == 0 {
            return turns;
        }
    }
    second
}

/// The least common multiple of the two periods, in shifts. Takes no memory, and time of the order
/// of the second period. For the operations of `series_ops`.
pub fn common_period(first: &Series, second: &Series) -> usize
    ensures value { result ≡ period_with first.now second.now }
    ensures bound { result ≤ most_common_shifts }
    ensures positive { 0 < result }
    ensures left { IsSeries first.now }
    ensures right { IsSeries second.now }
{
    turns_between(first.period(), second.period()) * first.period()
}

/// The shift from which the list repeats: its length less the period. Takes no memory. For the
/// operations of `series_ops`.
pub fn start(series: &Series) -> usize
    ensures value { result ≡ repeat_start series.now }
    ensures bound { result < 20000 }
    ensures series { IsSeries series.now }
{
    series.values().len() - series.period()
}

/// The greater of the two shifts from which the series repeat. Takes no memory. For the operations
/// of `series_ops`.
pub fn common_start(first: &Series, second: &Series) -> usize
    ensures value { result ≡ later_start first.now second.now }
    ensures bound { result < 20000 }
    ensures left { IsSeries first.now }
    ensures right { IsSeries second.now }
{
    let first = start(first);
    let second = start(second);
    if first < second { second } else { first }
}

/// The value at which the list begins to repeat: a number, or what the series is from there on
/// everywhere. Takes no memory. For the operations of `series_ops`.
pub fn tail(series: &Series) -> Date
    ensures value { result ≡ tail_of series.now }
    ensures series { IsSeries series.now }
{
    series.at(start(series) as u64)
}

/// What a series gains over a number of its periods, given in shifts: as many steps, in the user's
/// unit. Takes no memory. For the operations of `series_ops`.
pub fn gain_over(series: &Series, shifts: usize) -> i128
    requires { shifts ≤ most_common_shifts }
    ensures value { result ≡ times (shifts / series.now.period) series.now.step }
    ensures bound { unsigned_abs result ≤ greatest_gain }
    ensures series { IsSeries series.now }
{
    (shifts / series.period()) as i128 * series.step()
}

// The greater slope by the sign of the difference of two gains.
fn sign_of(difference: i128) -> Slopes
    ensures { result ≡ by_sign difference }
{
    if difference == 0 {
        return Slopes::Equal;
    }
    if difference > 0 {
        Slopes::First
    } else {
        Slopes::Second
    }
}

/// What the first series gains on the second over the common period, in the user's unit, below 0
/// where it loses. Takes no memory, and time of the order of the second period. For the operations
/// of `series_ops`.
pub fn lead_gain(first: &Series, second: &Series) -> i128
    ensures value { result ≡ rise_of first.now second.now -ℤ fall_of first.now second.now }
    ensures bound { unsigned_abs result ≤ greatest_gain_gap }
    ensures left { IsSeries first.now }
    ensures right { IsSeries second.now }
{
    let shifts = common_period(first, second);
    gain_over(first, shifts) - gain_over(second, shifts)
}

/// Which series has the greater slope. A tail of Never has a slope above every number, and the
/// series that is Early everywhere one below every number. Takes no memory, and time of the order
/// of the second period. For the operations of `series_ops`. (Chapter 5.)
pub fn compare_slopes(first: &Series, second: &Series) -> Slopes
    ensures value { result ≡ slopes_of first.now second.now }
    ensures left { IsSeries first.now }
    ensures right { IsSeries second.now }
{
    let difference = lead_gain(first, second);
    match (tail(first), tail(second)) {
        (Date::At(_), Date::At(_)) => sign_of(difference),
        (Date::Never, Date::Never) | (Date::Early, Date::Early) => Slopes::Equal,
        (Date::Never, _) | (_, Date::Early) => Slopes::First,
        _ => Slopes::Second,
    }
}

/// The least number of gains, each above 0, that cover a lead; 0 for a lead below 0. Takes no
/// memory. For the operations of `series_ops`.
pub fn gains_for(lead: i128, gain: i128) -> u128
    requires gain { pos 0 <ℤ gain }
    requires lead_bound { unsigned_abs lead ≤ greatest_reach }
    requires gain_bound { unsigned_abs gain ≤ greatest_reach }
    ensures value { result ≡ ceiling lead gain }
    ensures bound { result ≤ unsigned_abs lead + unsigned_abs gain }
{
    if lead < 0 {
        return 0;
    }
    let lead = lead as u128;
    let gain = gain as u128;
    (lead + (gain - 1)) / gain
}
