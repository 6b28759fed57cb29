//! How the delays of a timetable spread, or why they are not followed.
ghost use Rattle.std.specs.Prelude.{ℕ, ◌≡◌, ◌≤◌, Option, Some, IfOk, IfErr, IfSome};
ghost use Rattle.delay_laws.specs.PlannedTimetables.{IsTableOf};
ghost use Rattle.delay_laws.specs.declared.table.Timetable.{Timetable};
ghost use Rattle.release_nets.specs.PlannedNets.{IsUnplanned, greatest_period};
ghost use Rattle.teg_net.specs.Nets.{NetLists};
ghost use Rattle.teg_settle.specs.settled_laws.SettledForms.{IsSettledFormOf, settled_length};
ghost use Rattle.teg_check.specs.Ranks.{IsRanking};
ghost use Rattle.teg_net.specs.Circuits.{IsLive};
ghost use Rattle.teg_settle.specs.LimitRefusals.{greatest_limit};
ghost use Rattle.teg_timetable.specs.DelayAnswers.{IsDelayRefusal, IsOutcomeIn, IsSettlingRefusal, IsSpread, IsLengthWithinLimit};

use crate::delayed::Delayed;
use crate::left::Left;
use crate::outcomes::outcome;
use crate::refusals::DelayRefusal;
use delay_laws::Timetable;
use release_nets::{Planned, Unplanned, release_net};
use std::alloc::Global;
use teg_check::{Live, ranks_of};
use teg_net::{Net, OutOfMemory};
use teg_settle::{SettleRefusal, SettledDates, settle_dates, settle_dates_within};

// The settled form of a live net, within the limit if there is one.
fn settled_in(alloc: Global, net: &Net, limit: Option<u32>) -> Result<SettledDates, DelayRefusal>
    requires live { IsLive net.now }
    requires few { IfSome limit (λ l. l ≤ greatest_limit) }
    ensures form { IfOk result (IsSettledFormOf net.now) }
    ensures within { IfOk result (λ form. IsLengthWithinLimit limit (settled_length form)) }
    ensures refused { IfErr result (IsSettlingRefusal net.now limit) }
{
    let live = ranks_of(alloc, net)?;
    match limit {
        None => Ok(settle_dates(alloc, net, &live)?),
        Some(limit) => match settle_dates_within(alloc, net, &live, limit) {
            Ok(settled) => Ok(settled),
            Err(SettleRefusal::TooLong { limit }) => Err(DelayRefusal::TooLong { limit }),
            Err(SettleRefusal::OutOfMemory) => Err(DelayRefusal::OutOfMemory),
        },
    }
}

// The first departures once more.
fn firsts_of(alloc: Global, table: &Timetable) -> Result<Vec<u64>, OutOfMemory>
    ensures { IfOk result (λ firsts. firsts.items ≡ table.now.firsts.items) }
{
    Ok(Vec::from_slice(alloc, &table.firsts)?)
}

// Why the delays of a timetable are not followed.
fn refusal_of(why: Unplanned) -> DelayRefusal
    ensures { (net : NetLists) (period : ℕ) (table : Timetable) (limit : Option ℕ)
        → IsUnplanned net period table why → IsDelayRefusal net period table limit result }
{
    match why {
        Unplanned::TooLarge {
            transitions,
            places,
        } => DelayRefusal::TooLarge {
            transitions,
            places,
        },
        Unplanned::Unworkable { place } => DelayRefusal::Unworkable { place },
    }
}

// How the delays of a timetable spread that the net can keep, by the settled form of the net with
// the releases as inputs.
fn followed(
    alloc: Global,
    planned: &Planned<'_>,
    limit: Option<u32>,
) -> Result<Delayed, DelayRefusal>
    requires { IfSome limit (λ l. l ≤ greatest_limit) }
    ensures spread { IfOk result (IsSpread planned.now.net.now planned.now.period
        planned.now.table.now limit) }
    ensures about { IfOk result (λ delayed. IsOutcomeIn planned.now.net.now delayed.outcome) }
    ensures refused { IfErr result (IsDelayRefusal planned.now.net.now planned.now.period
        planned.now.table.now limit) }
{
    let derived = release_net(alloc, planned)?;
    let settled = settled_in(alloc, &derived, limit)?;
    let firsts = firsts_of(alloc, planned.table)?;
    // That the form is short, and its period at least 1.
    settled.period();
    let left = Left::new(firsts, planned.period, settled);
    let outcome = outcome(alloc, planned, &left)?;
    Ok(Delayed::new(left, outcome))
}

/// How the delays of a timetable spread through a live net that departs again every `period`, in
/// the user's unit and from 1 to 10^6 (chapters 2 and 3).
///
/// Each departure is released at its planned date with its delay, and not before an earlier one of
/// its transition; the delayed dates are the least that the releases, the places and their ready
/// dates allow. The net's input lists and the roles of its transitions play no part. Number and
/// period are those of the shortest settled form of delayed dates and releases together. `TooLarge`
/// comes exactly where the net has more than 200 transitions, or more than 4,000 transitions and
/// places together; `Unworkable` exactly where the plan does not leave some place its time, with
/// the lowest numbered such place; `TooLong` exactly where there is a limit, of at most 200,000,
/// that the settling length exceeds. `OutOfMemory` comes where no memory is found and, without a
/// limit, past 20,000,000,000,000 rows, which no memory holds. For n transitions, p places, r
/// delays and a settling length l it takes time of order `n^2 + n r + (n + p) l`, and what the
/// periods that are tried take beside the rows, as in [`settle_within`](teg_settle::settle_within);
/// the rows are kept, eight bytes a date where dates are below 2^63 - 1.
pub fn spread(
    alloc: Global,
    net: &Net,
    live: &Live,
    period: u64,
    table: &Timetable,
    limit: Option<u32>,
) -> Result<Delayed, DelayRefusal>
    requires stands { IsRanking net.now live.now }
    requires some { 1 ≤ period }
    requires period { period ≤ greatest_period }
    requires table { IsTableOf net.now table.now }
    requires limit { IfSome limit (λ l. l ≤ greatest_limit) }
    ensures spread { IfOk result (IsSpread net.now period table.now limit) }
    ensures about { IfOk result (λ delayed. IsOutcomeIn net.now delayed.outcome) }
    ensures refused { IfErr result (IsDelayRefusal net.now period table.now limit) }
{
    match Planned::checked(net, period, table) {
        Ok(planned) => followed(alloc, &planned, limit),
        Err(why) => Err(refusal_of(why)),
    }
}
