//! The earliest timetable of a period.
ghost use Rattle.std.specs.Prelude.{◌≡◌, ◌≤◌, ◌<◌, ◌*◌, true, false, IfOk, IfErr, IfNone, IfSome};
ghost use Rattle.teg_check.specs.Ranks.{IsRanking};
ghost use Rattle.teg_net.specs.Limits.{most_target_tokens};
ghost use Rattle.timetable_calls.specs.Earliest.{AreEarliest, IsPeriodRefused};
ghost use Rattle.timetable_calls.specs.FractionPeriods.{AreEarliestAt, IsRefusedAt, IsTooShortAt, LeavesCircuitsTimeAt, whole_date};

use crate::longest::greatest_circuit;
use crate::refusal::PeriodRefused;
use crate::rounds::earliest_firsts;
use std::alloc::Global;
use teg_check::Live;
use teg_net::{Circuit, Net, OutOfMemory, Ratio};

// Whether the period, in parts of the unit of which so many make one, gives a ratio its time.
fn gives_time(scale: u64, period: u64, ratio: &Ratio) -> bool
    ensures yes { result ≡ true → scale * ratio.now.time ≤ period * ratio.now.tokens }
    ensures no { result ≡ false → period * ratio.now.tokens < scale * ratio.now.time }
{
    let taken = u128::from(scale) * u128::from(ratio.time());
    taken <= u128::from(period) * u128::from(ratio.tokens())
}

// A circuit to which the period does not give its time; none where each has it.
fn longer_circuit(
    alloc: Global,
    net: &Net,
    live: &Live,
    scale: u64,
    period: u64,
) -> Result<Option<Circuit>, OutOfMemory>
    requires { IsRanking net.now live.now }
    ensures none { IfOk result (λ found. IfNone found (LeavesCircuitsTimeAt net.now scale period)) }
    ensures some { IfOk result (λ found. IfSome found (λ c. IsTooShortAt net.now scale period
        c.places.items)) }
{
    let Some(best) = greatest_circuit(alloc, net, live)? else {
        return Ok(None);
    };
    if gives_time(scale, period, &best.ratio) {
        return Ok(None);
    }
    Ok(Some(best.circuit))
}

// The least first departures at a period, both in parts of the unit, of which so many make one.
fn firsts_at(
    alloc: Global,
    net: &Net,
    live: &Live,
    scale: u64,
    period: u64,
) -> Result<Vec<u64>, PeriodRefused>
    requires live { IsRanking net.now live.now }
    requires parts { scale ≤ most_target_tokens }
    ensures earliest { IfOk result (λ firsts. AreEarliestAt net.now scale period firsts.items) }
    ensures refused { IfErr result (IsRefusedAt net.now scale period) }
{
    if let Some(circuit) = longer_circuit(alloc, net, live, scale, period)? {
        return Err(PeriodRefused::TooShort { circuit });
    }
    Ok(earliest_firsts(alloc, net, scale, period)?)
}

/// The earliest timetable that a live net can keep at a period: for each transition the least date
/// of its first departure, in the user's unit, where each departs again every `period` (chapters 2
/// and 3).
///
/// These dates leave each place its time and wait for its ready dates (`AreWorkableFirsts`), and
/// each other timetable of that period departs nowhere earlier. So they are the first departures of
/// a [`Timetable`](delay_laws::Timetable) that the net can keep, where none is past 10^9. Input
/// lists and roles play no part. `TooShort` comes exactly where there is no such timetable, with a
/// circuit that takes longer than the period gives it for its tokens; `OutOfMemory` comes only where
/// no memory is found. It takes the time of `split` and of `cycle`, and of order n p for n
/// transitions and p places.
pub fn earliest_timetable(
    alloc: Global,
    net: &Net,
    live: &Live,
    period: u64,
) -> Result<Vec<u64>, PeriodRefused>
    requires { IsRanking net.now live.now }
    ensures earliest { IfOk result (λ firsts. AreEarliest net.now period firsts.items) }
    ensures refused { IfErr result (IsPeriodRefused net.now period) }
{
    firsts_at(alloc, net, live, 1, period)
}

/// The earliest timetable that a live net can keep at a period that is a fraction, of at most
/// 1,000,000 tokens: at `a / b` each transition departs again every `b` firings, `a` units later.
/// Told is for each transition the least date of its first departure, in parts of the user's unit,
/// of which `b` make one, where each firing comes `a` parts after the one before; [`whole_date`]
/// tells the whole date of each firing (chapters 2 and 3).
///
/// These dates leave each place its time and wait for its ready dates (`AreFirstsAt`), and no other
/// dates in parts that do, come anywhere earlier. The whole dates leave each place its time too,
/// and repeat ([`whole_dates_keep_places`](crate::whole_dates_keep_places)). Input lists and roles
/// play no part. `TooShort` comes exactly where there is no such timetable, with a circuit that
/// takes longer than the period gives it for its tokens; `OutOfMemory` comes only where no memory
/// is found. It takes the time of [`earliest_timetable`].
pub fn earliest_timetable_at(
    alloc: Global,
    net: &Net,
    live: &Live,
    period: Ratio,
) -> Result<Vec<u64>, PeriodRefused>
    requires live { IsRanking net.now live.now }
    requires tokens { period.tokens ≤ most_target_tokens }
    ensures earliest { IfOk result (λ firsts. AreEarliestAt net.now period.tokens period.time
        firsts.items) }
    ensures refused { IfErr result (IsRefusedAt net.now period.tokens period.time) }
{
    firsts_at(alloc, net, live, period.tokens(), period.time())
}

/// The whole date of a firing, in the user's unit and rounded down, of a transition whose first one
/// [`earliest_timetable_at`] tells in parts of it. The number of the firing counts from 1. It takes
/// no memory.
pub fn whole_date(period: Ratio, first: u64, number: u64) -> u128
    requires { 1 ≤ number }
    ensures { result ≡ whole_date period.tokens period.time first number }
{
    let parts = u128::from(first) + u128::from(period.time()) * u128::from(number - 1);
    parts / u128::from(period.tokens())
}
