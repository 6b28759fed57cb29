//! Rounds over the places, each of which moves departures that come too early after those of the
//! round before. Dates are in parts of the unit, of which `scale` make one.
ghost use Rattle.std.specs.Prelude.{◌≡◌, ◌≤◌, ◌<◌, ◌+◌, ◌-◌, ◌*◌, length, IfOk};
ghost use Rattle.teg_net.specs.Limits.{most_target_tokens};
ghost use Rattle.timetable_calls.specs.Departures.{AreUpTo, IsRoundUpTo};
ghost use Rattle.timetable_calls.specs.FractionPeriods.{AreEarliestAt, LeavesCircuitsTimeAt};

use crate::starts::{move_to, periods_before, starts};
use std::alloc::{AllocError, Global};
use teg_net::{Net, Place};

// The least departure after such a place, where its start departs at this date; 0 where that is
// below it.
fn after_place(scale: u64, period: u64, from: u64, place: &Place) -> u64
    requires { from + scale * place.now.hold < 18446744073709551616 }
    ensures { result ≡ (from + scale * place.now.hold) - period * place.now.tokens }
{
    periods_before(from + scale * place.hold, period, u64::from(place.tokens))
}

// Moves each departure that the places make later, by the departures of the round before.
fn round(
    alloc: Global,
    net: &Net,
    scale: u64,
    period: u64,
    before: &[u64],
) -> Result<Vec<u64>, AllocError>
    requires parts { scale ≤ most_target_tokens }
    requires count { length before.now ≡ length net.now.transitions }
    requires small { AreUpTo (scale * 10000000000000) before.now }
    ensures { IfOk result (λ after. IsRoundUpTo net.now scale period before.now (length
        net.now.places) after.items) }
{
    let mut after = Vec::from_slice(alloc, before)?;
    for (index, place) in net.places().iter().enumerate() {
        let _index = index;
        let date = after_place(scale, period, before[place.from.index as usize], place);
        move_to(&mut after, place.to.index as usize, date);
    }
    Ok(after)
}

// The least departures that leave each place its time.
pub(crate) fn earliest_firsts(
    alloc: Global,
    net: &Net,
    scale: u64,
    period: u64,
) -> Result<Vec<u64>, AllocError>
    requires parts { scale ≤ most_target_tokens }
    requires time { LeavesCircuitsTimeAt net.now scale period }
    ensures { IfOk result (λ firsts. AreEarliestAt net.now scale period firsts.items) }
{
    let mut firsts = starts(alloc, net, scale, period)?;
    for _number in 0..net.transitions().len() {
        firsts = round(alloc, net, scale, period, &firsts)?;
    }
    Ok(firsts)
}
