//! The step of a search of one's own: what rows of a net show.
ghost use Rattle.std.specs.Prelude.{◌≤◌, IfNone, IfOk, IfSome, IsSome};
ghost use Rattle.teg_check.specs.Ranks.{IsRanking};
ghost use Rattle.date_rows.specs.KeptRows.{AreLeastRows};
ghost use Rattle.periodic_laws.specs.teg_model.Datings.{listed_releases, system_of};
ghost use Rattle.teg_settle.specs.Steps.{AreOwnReleases, ShowsForm, ShowsNoForm, showing_rows};
ghost use Rattle.teg_settle.specs.ComparedRows.{most_window};

use crate::asked::{Asked, ready_tokens};
use crate::releases::{Releases, Repetition};
use crate::search::seen_one_by_one;
use date_rows::Rows;
use periodic_laws::least_datings_repeat;
use std::alloc::Global;
use teg_check::Live;
use teg_net::{Net, OutOfMemory};

/// The ready dates and the input lists of the net, each list found once. `OutOfMemory` comes only
/// where no memory is found. It takes time of order `n l` for n transitions and l lists.
pub fn own_releases(alloc: Global, net: &Net) -> Result<Releases, OutOfMemory>
    ensures { IfOk result (AreOwnReleases net.now) }
{
    let releases = Releases::of_net(alloc, net)?;
    Ok(releases)
}

/// The number and the period of the shortest settled form of a live net, where these rows of its
/// least dating show them: so many rows as two periods past the number and as a place may have
/// tokens, 1,000, are enough, and the lists of the net tell a number of rows (`showing_rows`) that
/// always show a form. There are at most 10^14 rows. It is the step of [`settle`](crate::settle),
/// which makes rows until this finds a form. It takes no memory, so it strikes off no periods as
/// [`settle_within`](crate::settle_within) does: for each of order `l` periods of l rows it takes
/// time of at most the order of all these dates and of those of the input lists, and mostly that of
/// what refuted one of the last two.
pub fn shown_form(net: &Net, _live: &Live, releases: &Releases, rows: &Rows) -> Option<Repetition>
    requires stands { IsRanking net.now _live.now }
    requires releases { AreOwnReleases net.now releases.now }
    requires rows { AreLeastRows net.now (system_of net.now (listed_releases net.now)) rows.now }
    requires few { rows.now.count ≤ most_window }
    ensures form { IfSome result (ShowsForm net.now rows.now) }
    ensures none { IfNone result (ShowsNoForm net.now rows.now.count) }
    ensures enough { showing_rows net.now ≤ rows.now.count → IsSome result }
{
    least_datings_repeat();
    // The rows keep their limits.
    let _count = rows.count();
    let most = ready_tokens(net, _live, releases);
    let asked = Asked {
        net,
        live: _live,
        releases,
        most,
    };
    seen_one_by_one(&asked, rows)
}
