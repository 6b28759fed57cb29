//! The search for the settled form without a limit.
ghost use Rattle.std.specs.Prelude.{IfOk};
ghost use Rattle.periodic_laws.specs.settled_laws.SettledForms.{IsSettledFormOf};
ghost use Rattle.teg_check.specs.Ranks.{IsRanking};
ghost use Rattle.teg_settle.specs.ShortestForms.{IsFound};
ghost use Rattle.teg_settle.specs.SlopesOfNets.{HasSlopes};
ghost use Rattle.teg_settle.specs.Steps.{AreOwnReleases};

use crate::asked::{Asked, ready_tokens};
use crate::releases::Releases;
use crate::search::{Found, MOST_ROWS, grow, seen};
use crate::settled::settled_of;
use crate::shown::SettledDates;
use date_rows::{PlaceOrder, Rows};
use periodic_laws::least_datings_repeat;
use settled_forms::Settled;
use std::alloc::Global;
use teg_check::Live;
use teg_net::{Net, OutOfMemory};

// Rows that show the shortest form of the net's least dating, which every live net has: they are
// doubled until they show it.
fn found(alloc: Global, net: &Net, live: &Live, releases: &Releases) -> Result<Found, OutOfMemory>
    requires stands { IsRanking net.now live.now }
    requires own { AreOwnReleases net.now releases.now }
    ensures { IfOk result (IsFound net.now releases.now) }
{
    least_datings_repeat();
    let most = ready_tokens(net, live, releases);
    let asked = Asked {
        net,
        live,
        releases,
        most,
    };
    let order = PlaceOrder::new(alloc, net, live)?;
    let mut rows = Rows::new(alloc, net);
    let mut stage = most + 8;
    'search: loop {
        rows = grow(&asked, &order, rows, stage)?;
        match seen(alloc, &asked, &rows)? {
            Some(form) => return Ok(Found { rows, form }),
            None => {}
        }
        if stage > MOST_ROWS {
            return Err(OutOfMemory);
        }
        stage = 2 * stage;
    }
}

/// The shortest settled form of the least dates of a live net, with its ready dates and its input
/// lists (chapter 3, cyclicity): the one of `settle_within`, whatever its length. Each live net has
/// one, and so many rows as its lists tell show it ([`shown_form`](crate::shown_form)), so the
/// search ends. `OutOfMemory` comes where no memory is found for the table of its lists, the order
/// of its places, the rows or the form, and past 20,000,000,000,000 rows, which no memory holds. It
/// takes the time and the memory of [`settle_within`](crate::settle_within) with no limit.
pub fn settle(alloc: Global, net: &Net, live: &Live) -> Result<Settled, OutOfMemory>
    requires stands { IsRanking net.now live.now }
    ensures form { IfOk result (IsSettledFormOf net.now) }
    ensures slopes { IfOk result (HasSlopes net.now) }
{
    let releases = Releases::of_net(alloc, net)?;
    let found = found(alloc, net, live, &releases)?;
    Ok(settled_of(alloc, net, &releases, &found)?)
}

/// The form of [`settle`], for callers that ask for some of its dates: it keeps the rows of the
/// search and makes no other table of them (chapter 3).
pub fn settle_dates(alloc: Global, net: &Net, live: &Live) -> Result<SettledDates, OutOfMemory>
    requires stands { IsRanking net.now live.now }
    ensures form { IfOk result (IsSettledFormOf net.now) }
{
    let releases = Releases::of_net(alloc, net)?;
    let found = found(alloc, net, live, &releases)?;
    Ok(SettledDates::of_found(alloc, net, &releases, found)?)
}
