//! The latest releases of the inputs, one by one.
ghost use Rattle.std.specs.Prelude.{◌<◌, length, IfOk, IfErr, IfSome, OnOk};
ghost use Rattle.teg_net.specs.Nets.{IsInput};
ghost use Rattle.walks_by_ends.specs.EndForms.{AreEndsOf};
ghost use Rattle.teg_forever.specs.Asked.{AreMetAtZero};
ghost use Rattle.teg_forever.specs.InputAnswers.{AreReleasesBelow, IsFineRelease, IsReleaseBy, IsStopped};
ghost use Rattle.teg_forever.specs.Divisions.{AreDivisions};
ghost use Rattle.teg_forever.specs.LatestReleases.{ForeverRefused};

use crate::asked::{DueRows, InputRows};
use crate::divisions::Divisions;
use crate::lagged::{earlier_release, input_before};
use crate::releases::{ForeverRefusal, Release};
use crate::residuals::meet_of;
use dioid::Date;
use forever_laws::{columns_exist, residuals_are_latest_dates};
use series_form::Series;
use std::alloc::Global;
use teg_due::is_input;
use teg_net::{OutOfMemory, TransitionId};
use teg_settle::{SettleRefusal, walk_times_settle};
use walks_by_ends::{Ends, walk_times_of};

// The longest settled form of walk times that is taken.
const LONGEST_FORM: u32 = 20_000;

// The release by the series of the latest dates: free where they are never.
fn release_by(alloc: Global, latest: &Series) -> Result<Release, OutOfMemory>
    ensures { IfOk result (IsReleaseBy latest.now) }
{
    if latest.at(0) == Date::Never {
        return Ok(Release::Free);
    }
    let series = latest.duplicate(alloc)?;
    Ok(Release::Latest { series })
}

// The release of an input. Without rows it is free.
fn release_of(
    alloc: Global,
    due: &DueRows<'_>,
    input: TransitionId,
    ends: &Ends,
    divisions: &mut Divisions,
) -> Result<Release, ForeverRefusal>
    requires ends { AreEndsOf due.now.net ends.now }
    requires meet { AreMetAtZero due.now }
    requires input { IsInput due.now.net input.index }
    requires divisions { AreDivisions due.now.rows divisions.old }
    ensures divisions { OnOk result (AreDivisions due.now.rows divisions.new) }
    ensures release { IfOk result (IsFineRelease due.now.net due.now.rows input.index) }
    ensures stopped { IfErr result (IsStopped due.now.net due.now.rows input) }
{
    let (net, rows) = (due.net(), due.rows());
    let settled = match walk_times_of(
        alloc,
        net,
        due.live(),
        due.leaving(),
        ends,
        input,
        LONGEST_FORM,
    ) {
        Ok(settled) => settled,
        Err(SettleRefusal::TooLong { .. }) => return Err(ForeverRefusal::TooLong { input }),
        Err(SettleRefusal::OutOfMemory) => return Err(ForeverRefusal::OutOfMemory),
    };
    if rows.is_empty() {
        return Ok(Release::Free);
    }
    columns_exist();
    residuals_are_latest_dates();
    let asked = InputRows::new(net, &settled, input, rows);
    let latest = meet_of(alloc, &asked, divisions)?;
    Ok(release_by(alloc, &latest.series)?)
}

// The release of the next input by that of one before it whose places lead on alike but for a lag,
// if there is one and its series fits.
fn release_by_another(
    alloc: Global,
    due: &DueRows<'_>,
    input: TransitionId,
    releases: &[Release],
) -> Result<Option<Release>, OutOfMemory>
    requires input { IsInput due.now.net input.index }
    requires releases { AreReleasesBelow due.now.net due.now.rows input.index releases.now }
    ensures { IfOk result (λ found. IfSome found (IsFineRelease due.now.net due.now.rows
        input.index)) }
{
    walk_times_settle();
    match input_before(due.net(), due.leaving(), input) {
        Some(before) => earlier_release(alloc, &releases[before.place], before.lag),
        None => Ok(None),
    }
}

// The releases of the inputs in order, each by that of one before it, moved, if there is such a
// one; or why the first that has none has none.
pub(crate) fn releases_of(alloc: Global, due: &DueRows<'_>) -> Result<Vec<Release>, ForeverRefusal>
    requires { AreMetAtZero due.now }
    ensures releases { IfOk result (λ releases. AreReleasesBelow due.now.net due.now.rows
        (length due.now.net.transitions) releases.items) }
    ensures stopped { IfErr result (ForeverRefused due.now.net due.now.rows) }
{
    let mut divisions = Divisions::new(alloc, due.rows())?;
    let mut ends = Ends::new(alloc, due.net())?;
    let mut releases = Vec::new(alloc);
    for index in 0..due.net().transitions().len() as u32 {
        let input = TransitionId { index };
        if !is_input(due.net(), input) {
            continue;
        }
        let another = release_by_another(alloc, due, input, releases.as_slice())?;
        let release = match another {
            Some(release) => release,
            None => {
                ends.settle_input(alloc, due.net(), due.live(), due.leaving(), input)?;
                release_of(alloc, due, input, &ends, &mut divisions)?
            }
        };
        if releases.push(release).is_err() {
            return Err(ForeverRefusal::OutOfMemory);
        }
    }
    Ok(releases)
}
