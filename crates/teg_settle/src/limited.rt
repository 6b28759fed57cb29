//! The settled form of the least dating of a net, and that of the times of walks from an input.
ghost use Rattle.std.specs.Prelude.{◌+◌, ◌≤◌, IfErr, IfOk};
ghost use Rattle.periodic_laws.specs.settled_laws.SettledForms.{IsSettledFormOf, NetSettlesPast, settled_length};
ghost use Rattle.teg_check.specs.Ranks.{IsRanking};
ghost use Rattle.teg_net.specs.Nets.{IsInput};
ghost use Rattle.teg_settle.specs.Asked.{IsAsked};
ghost use Rattle.teg_settle.specs.LimitRefusals.{IsRightSettleRefusal, greatest_limit};
ghost use Rattle.teg_settle.specs.ShortestForms.{IsFound};
ghost use Rattle.teg_settle.specs.SlopesOfNets.{HasSlopes};
ghost use Rattle.teg_settle.specs.WalksFound.{AreWalksFound};
ghost use Rattle.walk_times.specs.Transfers.{IsTransferOf, TransferSettlesPast};
ghost use Rattle.teg_settle.specs.ComparedRows.{LeastSettlesPast};

use crate::asked::{Asked, ready_tokens};
use crate::refusals::SettleRefusal;
use crate::releases::Releases;
use crate::search::{Found, search};
use crate::settled::settled_of;
use crate::shown::SettledDates;
use crate::walk_dates::WalkDates;
use date_rows::Rows;
use settled_forms::Settled;
use std::alloc::Global;
use teg_check::{Live, ranks_of};
use teg_net::{Net, OutOfMemory, TransitionId};
use walk_times::{Part, part_from};

// Rows that show the shortest form of the least dating of the net with these releases, if its
// length is within the limit: rows of twice the limit and the tokens of a place show each form of
// such a length.
fn found_within(alloc: Global, asked: &Asked<'_>, limit: u32) -> Result<Found, SettleRefusal>
    requires asked { IsAsked asked.now.net.now asked.now.live.now asked.now.releases.now
        asked.now.most }
    requires few { limit ≤ greatest_limit }
    ensures found { IfOk result (IsFound asked.now.net.now asked.now.releases.now) }
    ensures within { IfOk result (λ found. found.form.after + found.form.period ≤ limit) }
    ensures too_long { IfErr result (IsRightSettleRefusal (LeastSettlesPast asked.now.net.now
        asked.now.releases.now limit) limit) }
{
    let last = 2 * u64::from(limit) + asked.most;
    let searched = search(alloc, asked, Rows::new(alloc, asked.net), last)?;
    match searched.form {
        Some(form) => {
            if form.after + form.period > u64::from(limit) {
                return Err(SettleRefusal::TooLong { limit });
            }
            let rows = searched.rows;
            Ok(Found { rows, form })
        }
        None => Err(SettleRefusal::TooLong { limit }),
    }
}

/// The shortest settled form of the least dates of a live net, with its ready dates and its input
/// lists (chapter 3, cyclicity): its number and its period are both least, and its length, number
/// plus period, is the settling length. `limit` is at most 200,000, and `TooLong` comes exactly
/// where the settling length exceeds it. `OutOfMemory` comes only where no memory is found. For a
/// settling length l, or a limit l below it, it makes rows of order l for all transitions, each in
/// time of order `n + p` for n transitions and p places, and keeps them, eight bytes a date where
/// dates are below 2^63 - 1. Of order l periods are looked at, in five bytes a row: the first
/// transition whose dates do not go on in one strikes off all in which they do not, at once in time
/// of order l. What refuted one of those that are left mostly refutes the next, and each other one
/// takes time of at most the order of all these dates and of those of the input lists.
pub fn settle_within(
    alloc: Global,
    net: &Net,
    live: &Live,
    limit: u32,
) -> Result<Settled, SettleRefusal>
    requires stands { IsRanking net.now live.now }
    requires few { limit ≤ greatest_limit }
    ensures form { IfOk result (IsSettledFormOf net.now) }
    ensures within { IfOk result (λ form. settled_length form ≤ limit) }
    ensures too_long { IfErr result (IsRightSettleRefusal (NetSettlesPast net.now limit) limit) }
    ensures slopes { IfOk result (HasSlopes net.now) }
{
    let releases = Releases::of_net(alloc, net)?;
    let most = ready_tokens(net, live, &releases);
    let asked = Asked {
        net,
        live,
        releases: &releases,
        most,
    };
    let found = found_within(alloc, &asked, limit)?;
    Ok(settled_of(alloc, net, &releases, &found)?)
}

/// The form of [`settle_within`], for callers that ask for some of its dates: it keeps the rows of
/// the search, eight bytes a date where dates are below 2^63 - 1, and makes no other table of them.
pub fn settle_dates_within(
    alloc: Global,
    net: &Net,
    live: &Live,
    limit: u32,
) -> Result<SettledDates, SettleRefusal>
    requires stands { IsRanking net.now live.now }
    requires few { limit ≤ greatest_limit }
    ensures form { IfOk result (IsSettledFormOf net.now) }
    ensures within { IfOk result (λ form. settled_length form ≤ limit) }
    ensures too_long { IfErr result (IsRightSettleRefusal (NetSettlesPast net.now limit) limit) }
{
    let releases = Releases::of_net(alloc, net)?;
    let most = ready_tokens(net, live, &releases);
    let asked = Asked {
        net,
        live,
        releases: &releases,
        most,
    };
    let found = found_within(alloc, &asked, limit)?;
    Ok(SettledDates::of_found(alloc, net, &releases, found)?)
}

// The part of a net that the walks from an input reach, the input alone as its releases, and rows
// that show the shortest form of their times there.
#[derive(Drop)]
struct WalksFound {
    part: Part,
    releases: Releases,
    found: Found,
}

// Rows that show the shortest form of the times of walks from the input, if its length is within
// the limit.
fn walks_found(
    alloc: Global,
    net: &Net,
    _live: &Live,
    input: TransitionId,
    limit: u32,
) -> Result<WalksFound, SettleRefusal>
    requires stands { IsRanking net.now _live.now }
    requires input { IsInput net.now input.index }
    requires few { limit ≤ greatest_limit }
    ensures walks { IfOk result (AreWalksFound net.now input.index) }
    ensures within { IfOk result (λ w. w.found.form.after + w.found.form.period ≤ limit) }
    ensures too_long { IfErr result (IsRightSettleRefusal (TransferSettlesPast net.now input.index
        limit)
        limit) }
{
    let part = part_from(alloc, net, input)?;
    let own = TransitionId {
        index: part.new[input.index as usize],
    };
    let live = ranks_of(alloc, &part.net)?;
    let releases = Releases::of_input(alloc, &part.net, own)?;
    let most = ready_tokens(&part.net, &live, &releases);
    let asked = Asked {
        net: &part.net,
        live: &live,
        releases: &releases,
        most,
    };
    let found = found_within(alloc, &asked, limit)?;
    Ok(WalksFound {
        part,
        releases,
        found,
    })
}

/// The shortest settled form of the greatest times of walks from the first firing of this input to
/// each firing of each transition (chapters 2 and 3); a firing to which no such walk leads has the
/// date `Early`. Its number and its period are both least over all transitions. `limit` is at most
/// 200,000, and `TooLong` comes exactly where the length of that form exceeds it. `OutOfMemory`
/// comes only where no memory is found. It takes the time of [`settle_within`] for the transitions
/// and the places that such walks come to alone: those that they do not reach are left out once, in
/// time of order `n (n + p)` at most.
pub fn transfer(
    alloc: Global,
    net: &Net,
    _live: &Live,
    input: TransitionId,
    limit: u32,
) -> Result<Settled, SettleRefusal>
    requires stands { IsRanking net.now _live.now }
    requires input { IsInput net.now input.index }
    requires few { limit ≤ greatest_limit }
    ensures form { IfOk result (IsTransferOf net.now input.index) }
    ensures within { IfOk result (λ form. settled_length form ≤ limit) }
    ensures too_long { IfErr result (IsRightSettleRefusal (TransferSettlesPast net.now input.index
        limit)
        limit) }
{
    let walks = walks_found(alloc, net, _live, input, limit)?;
    let part = walks.part;
    let form = settled_of(alloc, &part.net, &walks.releases, &walks.found)?;
    Ok(form.spread(alloc, &part.marks, &part.new)?)
}

/// The form of [`transfer`], for callers that ask for the dates of some transitions: it keeps the
/// rows of the search in the part that is reached, eight bytes a date where dates are below 2^63 -
/// 1, and makes no other table of them.
pub fn transfer_dates(
    alloc: Global,
    net: &Net,
    _live: &Live,
    input: TransitionId,
    limit: u32,
) -> Result<WalkDates, SettleRefusal>
    requires stands { IsRanking net.now _live.now }
    requires input { IsInput net.now input.index }
    requires few { limit ≤ greatest_limit }
    ensures form { IfOk result (IsTransferOf net.now input.index) }
    ensures within { IfOk result (λ form. settled_length form ≤ limit) }
    ensures too_long { IfErr result (IsRightSettleRefusal (TransferSettlesPast net.now input.index
        limit)
        limit) }
{
    let walks = walks_found(alloc, net, _live, input, limit)?;
    let found = walks.found;
    let part = walks.part;
    let dates = SettledDates::of_found(alloc, &part.net, &walks.releases, found)?;
    Ok(WalkDates::new(dates, part.marks, part.new))
}
