//! Whether rows of dates show how the least dating of a live net settles (chapter 3).
ghost use Rattle.std.specs.Prelude.{◌+◌, ◌≡◌, ◌≤◌, ◌<◌, ◌↔◌, IfOk, IsTrue};
ghost use Rattle.teg_net.specs.Circuits.{IsLive};
ghost use Rattle.settled_certificates.specs.SettledRows.{AreSettledRows, SettlesAs};

use crate::told_form::FormTest;
use dating_certificates::{ToldRows, check_rows, rows_of};
use dioid::Date;
use std::alloc::Global;
use teg_net::{Net, OutOfMemory};

// Rows of more numbers are not looked at: no memory holds them.
const MOST_NUMBERS: u64 = 100_000_000_000_000_000;

// Whether so many rows go on past the number by two periods and one number more, and are no more
// than memory may hold.
fn has_room(rows: u64, after: u64, period: u64) -> bool
    ensures { IsTrue result ↔ (rows ≤ 100000000000000000) × (1 ≤ period)
        × (after + period + period < rows) }
{
    if rows > MOST_NUMBERS || after > rows || period > rows || period == 0 {
        return false;
    }
    after + period + period < rows
}

/// Whether the dates, in the user's unit, are whole rows that show that past a number the least
/// dating of the net goes on by these steps in each period (chapter 3): the dates are tight, as
/// [`check_rows`](dating_certificates::check_rows) tells; past the number, as far as they go, each date has moved
/// by the step of its transition a period later; no step falls along a place, unless to a date that
/// is never or from one that is early; and the releases of the inputs move by the steps too. The
/// rows stand one after another from number 1 on, each with one date for each transition in order.
/// They have to go on past the number by two periods and one number more, and by two periods and
/// the tokens of each place. The steps stand one for each transition in order, 0 where the dates
/// are never.
///
/// It says yes just where all this is so (`exact`), and no of rows that go past number 10^17, which
/// no memory holds. In a live net, where it says yes, the dates are the first rows of the least
/// dating, and the form that they tell with the period and the steps stands for it: the date of
/// each transition at each number is that of the form (`settled`). That no shorter period and no
/// less number would do, it does not tell. It takes memory for one row, and time of order `n + p` a
/// row for n transitions and p places, and of the length of the input lists.
pub fn check_settled(
    alloc: Global,
    net: &Net,
    after: u64,
    period: u64,
    dates: &[Date],
    steps: &[i128],
) -> Result<bool, OutOfMemory>
    ensures exact { IfOk result (λ yes. IsTrue yes ↔ AreSettledRows net.now after period dates.now
        steps.now) }
    ensures settled { IsLive net.now → IfOk result (λ yes. IsTrue yes → SettlesAs net.now after
        period dates.now steps.now) }
{
    let width = net.transitions().len();
    let Some(rows) = rows_of(net, dates) else {
        return Ok(false);
    };
    if !has_room(rows, after, period) || steps.len() != width {
        return Ok(false);
    }
    let are_first = check_rows(alloc, net, dates)?;
    if !are_first {
        return Ok(false);
    }
    let told = ToldRows::new(net, rows, dates);
    let test = FormTest::new(&told, after, period, steps);
    Ok(test.holds())
}
