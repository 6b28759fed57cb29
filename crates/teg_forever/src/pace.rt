//! Whether the due dates of a row rise as fast as each circuit that leads to its transition (the
//! algorithm of Bellman and Ford).
ghost use Rattle.std.specs.Prelude.{◌≡◌, ◌<◌, All, length, IfOk, IsTrue};
ghost use Rattle.teg_net.specs.ReducedTimes.{reduced_time_of_place};
ghost use Rattle.forever_laws.specs.PacedRows.{KeepsPace};
ghost use Rattle.teg_forever.specs.Paces.{IsKept, IsWeighable, row_ratio};

use crate::plain_row::PlainRow;
use endless_due::EndlessRow;
use std::alloc::{AllocError, Global};
use teg_net::{OutOfMemory, Place};

// What a place adds to the reduced time of a walk: its holding time for each firing of a turn, less
// the gap for each of its tokens.
fn reduced_time(row: &EndlessRow, place: &Place) -> i128
    requires { IsWeighable row.now place.now }
    ensures { result ≡ reduced_time_of_place (row_ratio row.now) place.now }
{
    let time = i128::from(row.every) * i128::from(place.hold);
    let given = i128::from(row.gap) * i128::from(place.tokens);
    time - given
}

// Takes over the time of the walk that begins with each place, where that is more. Whether some is.
fn raise_all(plain: &PlainRow<'_>, times: &mut [Option<i128>]) -> bool
    requires { length times.old ≡ length plain.now.net.transitions }
    ensures { length times.new ≡ length times.old }
{
    let (net, row) = (plain.net(), plain.row());
    let mut more = false;
    for place in net.places() {
        let Some(onward) = times[place.to.index as usize] else {
            continue;
        };
        let Some(time) = onward.checked_add(reduced_time(row, place)) else {
            continue;
        };
        let from = place.from.index as usize;
        let told = match times[from] {
            Some(told) => told,
            None => i128::MIN,
        };
        if time <= told {
            continue;
        }
        times[from] = Some(time);
        more = true;
    }
    more
}

// The greatest reduced times of the walks to the row's transition that pass so many places, none
// where there is no such walk.
fn times_to(alloc: Global, plain: &PlainRow<'_>) -> Result<Vec<Option<i128>>, AllocError>
    ensures { IfOk result (λ times. length times.items ≡ length plain.now.net.transitions) }
{
    let count = plain.net().transitions().len();
    let mut times = vec![in alloc; None; count]?;
    times[plain.row().transition.index as usize] = Some(0);
    for _round in 0..count {
        if !raise_all(plain, times.as_mut_slice()) {
            break;
        }
    }
    Ok(times)
}

// Whether the walk that begins with the place takes no more than what is told of its start.
fn is_kept(row: &EndlessRow, place: &Place, times: &[Option<i128>]) -> bool
    requires place { IsWeighable row.now place.now }
    requires from { place.now.from.index < length times.now }
    requires to { place.now.to.index < length times.now }
    ensures { IsTrue result → IsKept row.now times.now place.now }
{
    let onward = match times[place.to.index as usize] {
        Some(onward) => onward,
        None => return true,
    };
    match onward.checked_add(reduced_time(row, place)) {
        Some(time) => match times[place.from.index as usize] {
            Some(told) => time <= told,
            None => false,
        },
        None => false,
    }
}

// Whether that holds of each place.
fn are_kept(plain: &PlainRow<'_>, times: &[Option<i128>]) -> bool
    requires { length times.now ≡ length plain.now.net.transitions }
    ensures { IsTrue result → All (IsKept plain.now.row times.now) plain.now.net.places }
{
    let (net, row) = (plain.net(), plain.row());
    for place in net.places() {
        if !is_kept(row, place, times) {
            return false;
        }
    }
    true
}

// Whether no circuit from which a walk leads to the row's transition has a greater ratio of time to
// tokens than the row of gap to firings: each walk to its transition has at most the time that is
// told of its start.
pub(crate) fn keeps_pace(alloc: Global, plain: &PlainRow<'_>) -> Result<bool, OutOfMemory>
    ensures { IfOk result (λ paced. IsTrue paced → KeepsPace plain.now.net plain.now.row) }
{
    let times = times_to(alloc, plain)?;
    let told = times.as_slice();
    match told[plain.row().transition.index as usize] {
        Some(_) => Ok(are_kept(plain, told)),
        None => Ok(false),
    }
}
