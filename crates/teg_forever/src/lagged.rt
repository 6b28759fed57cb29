//! Inputs from which all places are held longer than from one before, or shorter, by one lag: walks
//! from such an input take so much longer, and its release comes so much earlier.
ghost use Rattle.std.specs.Prelude.{◌<◌, ◌≤◌, IfOk, IfSome, length};
ghost use Rattle.std.specs.Int.RustNames.{unsigned_abs};
ghost use Rattle.teg_net.specs.Limits.{greatest_hold};
ghost use Rattle.teg_lags.specs.Lags.{AreLeaving};
ghost use Rattle.teg_forever.specs.Lagged.{IsEarlierBy, IsEarlierSeries, IsLaggedAt};

use crate::releases::Release;
use dioid::Date;
use series_form::{Series, SeriesRefused};
use series_ops::left;
use std::alloc::Global;
use teg_due::is_input;
use teg_lags::lag_between;
use teg_net::{Net, OutOfMemory, PlacesOf, TransitionId};

// An input before another one, by its place among the inputs, and by how much longer all places are
// held from the other one.
#[derive(Clone, Copy)]
pub(crate) struct InputBefore {
    pub(crate) place: usize,
    pub(crate) lag: i128,
}

// The first input before this one whose places lead on as its own but for a lag, if there is one.
pub(crate) fn input_before(
    net: &Net,
    leaving: &PlacesOf,
    input: TransitionId,
) -> Option<InputBefore>
    requires leaving { AreLeaving net.now leaving.now }
    requires input { input.index < length net.now.transitions }
    ensures { IfSome result (IsLaggedAt net.now input.index) }
{
    let mut place = 0;
    for index in 0..input.index {
        let other = TransitionId { index };
        if is_input(net, other) {
            if let Some(lag) = lag_between(net, leaving, other, input) {
                return Some(InputBefore { place, lag });
            }
            place += 1;
        }
    }
    None
}

// The series with each date so much earlier: its residual by the series of that date alone.
fn earlier_series(alloc: Global, series: &Series, lag: i128) -> Result<Series, SeriesRefused>
    requires { unsigned_abs lag ≤ greatest_hold }
    ensures { IfOk result (IsEarlierSeries lag series.now) }
{
    let delay = Series::constant(alloc, Date::At(lag))?;
    left(alloc, &delay, series)
}

// The release so much earlier, if its series fits.
pub(crate) fn earlier_release(
    alloc: Global,
    release: &Release,
    lag: i128,
) -> Result<Option<Release>, OutOfMemory>
    requires { unsigned_abs lag ≤ greatest_hold }
    ensures { IfOk result (λ earlier. IfSome earlier (IsEarlierBy lag release.now)) }
{
    let series = match release {
        Release::Free => return Ok(Some(Release::Free)),
        Release::Latest { series } => series,
    };
    match earlier_series(alloc, series, lag) {
        Ok(series) => Ok(Some(Release::Latest { series })),
        Err(SeriesRefused::OutOfMemory) => Err(OutOfMemory),
        Err(_) => Ok(None),
    }
}
