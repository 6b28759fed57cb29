//! The growing search for the shortest form: rows are made until they show one.
ghost use Rattle.std.specs.Prelude.{◌≡◌, ◌+◌, ◌-◌, ◌<◌, ◌≤◌, IfOk, MatchOption, MatchResult, ℕ};
ghost use Rattle.date_rows.specs.PlaceOrder.{OrdersPlaces};
ghost use Rattle.teg_settle.specs.Asked.{IsAsked};
ghost use Rattle.teg_settle.specs.ShortestForms.{IsSearched};
ghost use Rattle.teg_settle.specs.ComparedRows.{AreRowsOf, IsReady, IsRefuted, IsSeen, IsSeenFrom, IsTrial, most_window};

use crate::asked::Asked;
use crate::releases::Repetition;
use crate::struck::strike_by;
use crate::witness::{PeriodTest, Witness, Witnesses};
use date_rows::{PlaceOrder, Rows};
use std::alloc::{AllocError, Global};
use teg_net::OutOfMemory;

// Where more rows than this show no form, no further ones are made: the dates of so many fill more
// than 47 bits of addresses tell apart.
pub(crate) const MOST_ROWS: u64 = 20_000_000_000_000;

// Rows of dates, and past which of their numbers they go on in each period.
#[derive(Drop)]
pub(crate) struct Found {
    pub(crate) rows: Rows,
    pub(crate) form: Repetition,
}

// Rows of dates, and past which of their numbers they go on in each period, if they show it.
#[derive(Drop)]
pub(crate) struct Searched {
    pub(crate) rows: Rows,
    pub(crate) form: Option<Repetition>,
}

// The number from which this period is seen, or what refutes it, if that is none of the witnesses.
fn tried(
    asked: &Asked<'_>,
    rows: &Rows,
    period: u64,
    witnesses: Witnesses,
) -> Result<u64, Option<Witness>>
    requires { IsTrial asked.now.net.now asked.now.releases.now rows.now asked.now.most period }
    ensures { MatchResult result (IsSeenFrom asked.now.net.now asked.now.releases.now rows.now
        asked.now.most period) (λ _. IsRefuted asked.now.net.now asked.now.releases.now
        asked.now.most rows.now.count period) }
{
    let latest = rows.count() - asked.most - period - period;
    let test = PeriodTest::new(asked.net, asked.releases, rows, period, latest);
    if witnesses.refute(&test) {
        return Err(None);
    }
    test.tested()
}

// The least number and the least period by which the dates go on, if the rows are enough to see
// them: the periods are tried one after another, in no memory.
pub(crate) fn seen_one_by_one(asked: &Asked<'_>, rows: &Rows) -> Option<Repetition>
    requires ready { IsReady asked.now.net.now asked.now.releases.now asked.now.most }
    requires rows { AreRowsOf asked.now.net.now asked.now.releases.now rows.now }
    ensures { MatchOption result ((period : ℕ) → IsRefuted asked.now.net.now asked.now.releases.now
        asked.now.most rows.now.count period) (IsSeen asked.now.net.now asked.now.releases.now
        rows.now) }
{
    let count = rows.count();
    if count < asked.most {
        return None;
    }
    let mut witnesses = Witnesses::nothing();
    for period in 1..(count - asked.most) / 2 + 1 {
        match tried(asked, rows, period, witnesses) {
            Ok(after) => return Some(Repetition { after, period }),
            Err(witness) => {
                witnesses = witnesses.joined(witness);
            }
        }
    }
    None
}

// The same, in a flag for each period: the first transition whose dates do not go on in a period
// strikes off all in which they do not. So few periods are tried, of those in which dates go on.
pub(crate) fn seen(
    alloc: Global,
    asked: &Asked<'_>,
    rows: &Rows,
) -> Result<Option<Repetition>, AllocError>
    requires ready { IsReady asked.now.net.now asked.now.releases.now asked.now.most }
    requires rows { AreRowsOf asked.now.net.now asked.now.releases.now rows.now }
    ensures { IfOk result (λ form. MatchOption form ((period : ℕ)
        → IsRefuted asked.now.net.now asked.now.releases.now asked.now.most rows.now.count period)
        (IsSeen asked.now.net.now asked.now.releases.now rows.now)) }
{
    let count = rows.count();
    if count < asked.most {
        return Ok(None);
    }
    let periods = (count - asked.most) as usize / 2 + 1;
    let mut struck = vec![in alloc; false; periods]?;
    let mut witnesses = Witnesses::nothing();
    for index in 1..periods {
        if struck[index] {
            continue;
        }
        let period = index as u64;
        match tried(asked, rows, period, witnesses) {
            Ok(after) => return Ok(Some(Repetition { after, period })),
            Err(witness) => {
                strike_by(alloc, asked, rows, witness, &mut struck)?;
                witnesses = witnesses.joined(witness);
            }
        }
    }
    Ok(None)
}

// As many rows as asked, from fewer on.
pub(crate) fn grow(
    asked: &Asked<'_>,
    order: &PlaceOrder,
    rows: Rows,
    count: u64,
) -> Result<Rows, OutOfMemory>
    requires order { OrdersPlaces asked.now.net.now order.now }
    requires rows { AreRowsOf asked.now.net.now asked.now.releases.now rows }
    requires more { rows.count ≤ count }
    requires few { count ≤ most_window }
    ensures rows { IfOk result (AreRowsOf asked.now.net.now asked.now.releases.now) }
    ensures count { IfOk result (λ rows. rows.count ≡ count) }
{
    // The net keeps its rules.
    asked.net.rules();
    let mut rows = rows;
    for _number in rows.count()..count {
        rows = rows.with_next_in_cells(asked.net, order, asked.releases)?;
    }
    Ok(rows)
}

// From these rows on, rows that show the shortest form, or at least `last` rows, which show none
// where they are more: the rows are doubled until they show one, so that it takes few more rows
// than the form needs.
pub(crate) fn search(
    alloc: Global,
    asked: &Asked<'_>,
    rows: Rows,
    last: u64,
) -> Result<Searched, OutOfMemory>
    requires asked { IsAsked asked.now.net.now asked.now.live.now asked.now.releases.now
        asked.now.most }
    requires rows { AreRowsOf asked.now.net.now asked.now.releases.now rows }
    requires few { last ≤ most_window }
    ensures { IfOk result (IsSearched asked.now.net.now asked.now.releases.now asked.now.most
        rows.count last) }
{
    let order = PlaceOrder::new(alloc, asked.net, asked.live)?;
    let start = rows.count();
    let mut rows = rows;
    let mut stage = (2 * start).max(asked.most + 8).min(last);
    'search: while rows.count() < last {
        rows = grow(asked, &order, rows, stage)?;
        match seen(alloc, asked, &rows)? {
            Some(form) => {
                let form = Some(form);
                return Ok(Searched { rows, form });
            }
            None => {}
        }
        stage = (2 * stage).min(last);
    }
    Ok(Searched { rows, form: None })
}
