//! One date of a net's least dating: by its rows where they go so far, and by the form past them.
ghost use Rattle.std.specs.Prelude.{◌<◌, ◌≤◌, IfOk, length};
ghost use Rattle.date_rows.specs.KeptRows.{AreLeastRows};
ghost use Rattle.periodic_laws.specs.teg_model.Datings.{listed_releases, system_of};
ghost use Rattle.teg_check.specs.Ranks.{IsRanking};
ghost use Rattle.teg_net.specs.Limits.{greatest_firing_number};
ghost use Rattle.teg_settle.specs.ComparedRows.{most_window};
ghost use Rattle.teg_settle.specs.LeastDates.{IsDateOrRows, IsLeastDate};

use crate::asked::{Asked, ready_tokens};
use crate::releases::Releases;
use crate::search::{Found, MOST_ROWS, search};
use crate::shown::SettledDates;
use date_rows::Rows;
use dioid::Date;
use std::alloc::Global;
use teg_check::Live;
use teg_net::{Net, OutOfMemory, TransitionId};

/// A date, or the rows that were made and do not tell it.
#[derive(Debug, Drop)]
pub enum DateOrRows {
    /// The date that was asked for.
    Known(Date),
    /// Rows of the least dating below the number that was asked for, which show no settled form.
    Made(Rows),
}

/// The date of [`date_of`], or so many rows of the least dating, at most 10^14, that do not tell
/// it: they end before the number and show no settled form. The search goes on from rows that are
/// given, fewer than these; none at first.
pub fn date_within(
    alloc: Global,
    net: &Net,
    live: &Live,
    transition: TransitionId,
    number: u64,
    rows: Rows,
    count: u64,
) -> Result<DateOrRows, OutOfMemory>
    requires stands { IsRanking net.now live.now }
    requires transition { transition.index < length net.now.transitions }
    requires first { 1 ≤ number }
    requires last { number ≤ greatest_firing_number }
    requires rows { AreLeastRows net.now (system_of net.now (listed_releases net.now)) rows }
    requires more { rows.count < count }
    requires few { count ≤ most_window }
    ensures { IfOk result (IsDateOrRows net.now transition.index number count) }
{
    let releases = Releases::of_net(alloc, net)?;
    let most = ready_tokens(net, live, &releases);
    let asked = Asked {
        net,
        live,
        releases: &releases,
        most,
    };
    // The rows keep their limits.
    let _start = rows.count();
    let searched = search(alloc, &asked, rows, number.min(count))?;
    let rows = searched.rows;
    match searched.form {
        Some(form) => {
            let dates = SettledDates::of_found(alloc, net, &releases, Found { rows, form })?;
            Ok(DateOrRows::Known(dates.date(transition, number)))
        }
        None => {
            if number > rows.count() {
                return Ok(DateOrRows::Made(rows));
            }
            Ok(DateOrRows::Known(rows.date(transition, number)))
        }
    }
}

/// The date of the firing of this number, from 1 to 10^18, of a transition of a live net, by its
/// least dating, with its ready dates and its input lists (chapters 2 and 3). It is that of a row
/// where no fewer rows show the settled form, and else that which the form tells: so it makes at
/// most as many rows as the number, and at most six more than twice as many as the form needs, each
/// in time of order `n + p` for n transitions and p places, and keeps them, eight bytes a date
/// where dates are below 2^63 - 1; and it tries periods as [`settle_within`](crate::settle_within)
/// does. `OutOfMemory` comes where no memory is found, and past 20,000,000,000,000 rows, which no
/// memory holds.
pub fn date_of(
    alloc: Global,
    net: &Net,
    live: &Live,
    transition: TransitionId,
    number: u64,
) -> Result<Date, OutOfMemory>
    requires stands { IsRanking net.now live.now }
    requires transition { transition.index < length net.now.transitions }
    requires first { 1 ≤ number }
    requires last { number ≤ greatest_firing_number }
    ensures { IfOk result (IsLeastDate net.now transition.index number) }
{
    let rows = Rows::new(alloc, net);
    match date_within(alloc, net, live, transition, number, rows, MOST_ROWS)? {
        DateOrRows::Known(date) => Ok(date),
        DateOrRows::Made(_rows) => Err(OutOfMemory),
    }
}
