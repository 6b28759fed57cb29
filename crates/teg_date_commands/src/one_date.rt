//! One date without a limit: rows are made in stages, and of each stage the settled form is asked,
//! and whether its last rows jump.
ghost use Rattle.std.specs.Prelude.{◌*◌, ◌<◌, ◌≤◌, IfOk, length};
ghost use Rattle.teg_check.specs.Ranks.{IsRanking};
ghost use Rattle.teg_net.specs.Limits.{greatest_firing_number};
ghost use Rattle.teg_settle.specs.LeastDates.{IsLeastDate};

use date_rows::Rows;
use dioid::Date;
use periodic_laws::live_nets_settle;
use run_rows::date_past_rows;
use std::alloc::Global;
use teg_check::Live;
use teg_net::{Net, OutOfMemory, TransitionId};
use teg_settle::{DateOrRows, date_within};
use teg_upstream::part_to;

// How often a transition or a place is looked at in the first stage.
const FIRST_LOOKS: u64 = 250_000;

// How many times the rows of the first stage are made at most before the form alone is asked.
const STAGES: u64 = 32;

// No more rows than so many are made: no memory holds them.
const MOST_ROWS: u64 = 20_000_000_000_000;

// How many rows are made at first: some more than there may be for a jump to be seen, and fewer
// where a row takes longer.
fn first_rows(net: &Net) -> u64
    ensures some { 1 ≤ result }
    ensures few { result ≤ 300000 }
{
    let looks = (net.transitions().len() + net.places().len()) as u64;
    FIRST_LOOKS / (looks + 1) + 32
}

// The date of this firing by the least dating: told by rows, by the settled form that they show, or
// by jumps from them on. Where few rows tell none of these, the form is asked of all that it needs.
fn date_by_both(
    alloc: Global,
    net: &Net,
    live: &Live,
    transition: TransitionId,
    number: u64,
) -> Result<Date, OutOfMemory>
    requires stands { IsRanking net.now live.now }
    requires transition { transition.index < length net.now.transitions }
    requires first { 1 ≤ number }
    requires last { number ≤ greatest_firing_number }
    ensures { IfOk result (IsLeastDate net.now transition.index number) }
{
    let mut count = first_rows(net);
    let most = STAGES * count;
    let mut rows = Rows::new(alloc, net);
    'stages: while count <= most {
        match date_within(alloc, net, live, transition, number, rows, count)? {
            DateOrRows::Known(date) => return Ok(date),
            DateOrRows::Made(made) => {
                match date_past_rows(alloc, net, live, &made, transition, number)? {
                    Some(date) => return Ok(date),
                    None => {}
                }
                rows = made;
            }
        }
        count = 2 * count;
    }
    match date_within(alloc, net, live, transition, number, rows, MOST_ROWS)? {
        DateOrRows::Known(date) => Ok(date),
        DateOrRows::Made(_rows) => Err(OutOfMemory),
    }
}

// The same of the part of the net that the transition waits for: nothing else delays it.
pub(crate) fn date_of_part(
    alloc: Global,
    net: &Net,
    live: &Live,
    transition: TransitionId,
    number: u64,
) -> Result<Date, OutOfMemory>
    requires stands { IsRanking net.now live.now }
    requires transition { transition.index < length net.now.transitions }
    requires first { 1 ≤ number }
    requires last { number ≤ greatest_firing_number }
    ensures { IfOk result (IsLeastDate net.now transition.index number) }
{
    // That the least dating of a live net has a settled form.
    live_nets_settle();
    net.rules();
    let part = part_to(alloc, net, transition)?;
    let date = date_by_both(alloc, &part, live, transition, number)?;
    Ok(date)
}
