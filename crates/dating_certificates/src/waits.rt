//! What a firing waits for, by rows of dates that are told.
ghost use Rattle.std.specs.Prelude.{◌+◌, ◌-◌, ◌*◌, ◌<◌, ◌≤◌, ◌≡◌, All, length};
ghost use Rattle.dioid.specs.declared.dates.Date.TheVariants.{Early};
ghost use Rattle.dioid.specs.Dates.{delayed};
ghost use Rattle.teg_net.specs.Circuits.{place_at};
ghost use Rattle.teg_net.specs.Limits.{greatest_firing_number, greatest_hold};
ghost use Rattle.teg_model.specs.DateBounds.{IsDateWithin, greatest_least_date};
ghost use Rattle.teg_model.specs.Datings.{at_input, available_at, implicit_place, listed_releases};
ghost use Rattle.dating_certificates.specs.CheckedRows.{date_in_rows};

use dioid::Date;
use teg_net::{Net, PlaceId, Role, TransitionId};

// The date of this firing of the transition, numbered from 1, in rows of this many dates.
pub(crate) fn date_in_rows(dates: &[Date], width: usize, transition: usize, number: u64) -> Date
    requires number { 1 ≤ number }
    requires in_rows { (number - 1) * width + transition < length dates.now }
    ensures { result ≡ date_in_rows width dates.now transition number }
{
    dates[(number as usize - 1) * width + transition]
}

// The date so many units later.
fn delayed(date: Date, hold: u64) -> Date
    requires within { IsDateWithin greatest_least_date date }
    requires hold { hold ≤ greatest_hold }
    ensures { result ≡ delayed hold date }
{
    match date {
        Date::At(date) => Date::At(date + i128::from(hold)),
        other => other,
    }
}

// The date from which the token is available that the place has for firing `number` of its
// downstream transition.
pub(crate) fn available(net: &Net, dates: &[Date], place: PlaceId, number: u64) -> Date
    requires place { place.index < length net.now.places }
    requires number { 1 ≤ number }
    requires rows { number * length net.now.transitions ≤ length dates.now }
    requires within { All (IsDateWithin greatest_least_date) dates.now }
    ensures { result ≡ available_at (date_in_rows (length net.now.transitions) dates.now)
        (place_at net.now place) number }
{
    let width = net.transitions().len();
    let own = &net.places()[place.index()];
    let tokens = u64::from(own.tokens);
    if tokens < number {
        let upstream = date_in_rows(dates, width, own.from.index(), number - tokens);
        delayed(upstream, own.hold)
    } else {
        Date::At(i128::from(net.ready(place, number as u32)))
    }
}

// The date of the firing before this one, and 0 for the first.
pub(crate) fn date_before(net: &Net, dates: &[Date], transition: TransitionId, number: u64) -> Date
    requires transition { transition.index < length net.now.transitions }
    requires number { 1 ≤ number }
    requires rows { number * length net.now.transitions ≤ length dates.now }
    ensures { result ≡ available_at (date_in_rows (length net.now.transitions) dates.now)
        (implicit_place transition.index) number }
{
    if number == 1 {
        Date::At(0)
    } else {
        date_in_rows(
            dates,
            net.transitions().len(),
            transition.index(),
            number - 1,
        )
    }
}

/// The date before which this firing is not released, which only an input waits for: `Early` for one
/// that is no input, and `Never` for one that its list does not release.
pub fn release(net: &Net, transition: TransitionId, number: u64) -> Date
    requires transition { transition.index < length net.now.transitions }
    requires first { 1 ≤ number }
    requires last { number ≤ greatest_firing_number }
    ensures { result ≡ at_input net.now transition.index
        (listed_releases net.now transition.index number) Early }
{
    match net.transitions()[transition.index()].role {
        Role::Internal | Role::Output => Date::Early,
        Role::Input => match net.input_date(transition, number) {
            Some(date) => Date::At(date as i128),
            None => Date::Never,
        },
    }
}
