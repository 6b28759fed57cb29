//! Whether due dates without end keep the rules of a net's rows, tested when the program runs.
ghost use Rattle.std.specs.Prelude.{◌≡◌, ◌≢◌, ◌↔◌, ◌≤◌, All, AllPairs, Any, IsTrue};
ghost use Rattle.std.specs.List.Sorted.{IsNonDecreasing};
ghost use Rattle.teg_net.specs.Limits.{greatest_input_date};
ghost use Rattle.teg_net.specs.Nets.{ListGoesOn};
ghost use Rattle.endless_due.specs.EndlessRows.{IsEndlessOf, IsEndlessRow, again_of_row};

use crate::numbers::{MOST_DATES, MOST_EVERY};
use crate::row::EndlessRow;
use teg_net::{GREATEST_INPUT_DATE, Net, TransitionId};

// Whether each date keeps the limit of dates.
fn are_dates(dates: &[u64]) -> bool
    ensures { IsTrue result ↔ All (λ d. d ≤ greatest_input_date) dates.now }
{
    dates.iter().all(|date| *date <= GREATEST_INPUT_DATE)
}

// Whether the dates never fall.
fn never_fall(dates: &[u64]) -> bool
    ensures { IsTrue result ↔ IsNonDecreasing dates.now }
{
    dates.is_sorted()
}

// Whether the dates of the row go on past the end as they may.
fn goes_on(row: &EndlessRow) -> bool
    ensures { IsTrue result ↔ ListGoesOn row.now.dates (again_of_row row.now) }
{
    let dates = row.dates.as_slice();
    let every = row.every as usize;
    if every < 1
        || MOST_EVERY < u64::from(row.every)
        || GREATEST_INPUT_DATE < row.gap
        || dates.len() < every
    {
        return false;
    }
    let last = u128::from(dates[dates.len() - 1]);
    let first = u128::from(dates[dates.len() - every]);
    last <= first + u128::from(row.gap)
}

// Whether the row keeps the rules of one row.
fn is_endless_row(net: &Net, row: &EndlessRow) -> bool
    ensures { IsTrue result ↔ IsEndlessRow net.now row.now }
{
    let dates = row.dates.as_slice();
    net.contains_transition(row.transition)
        && !net.is_input(row.transition)
        && dates.len() <= MOST_DATES
        && are_dates(dates)
        && never_fall(dates)
        && goes_on(row)
}

// Whether one of the rows is of the transition.
fn any_row_of(rows: &[EndlessRow], transition: TransitionId) -> bool
    ensures { IsTrue result ↔ Any (λ r. r.transition.index ≡ transition.index) rows.now }
{
    rows.iter()
        .any(|row| row.transition.index == transition.index)
}

// Whether no two rows are of one transition.
fn are_apart(rows: &[EndlessRow]) -> bool
    ensures { IsTrue result ↔ AllPairs (λ r s. r.transition.index ≢ s.transition.index) rows.now }
{
    for (index, row) in rows.iter().enumerate() {
        if any_row_of(&rows[index + 1..], row.transition) {
            return false;
        }
    }
    true
}

/// Whether the rows keep the rules of due dates without end of this net, as
/// [`forever`](crate::forever) asks it: each is of a transition of the net that is no input, and no
/// two of one; each has 1 to 10,000 dates in the user's unit, from 0 to 10^12, which never fall,
/// and goes on after 1 to 1,000 of them by a gap of at most 10^12 so that none falls there (chapter
/// 5). It takes no memory, and as many steps as there are dates, and as the square of the number of
/// rows.
pub fn is_endless_of(net: &Net, rows: &[EndlessRow]) -> bool
    ensures { IsTrue result ↔ IsEndlessOf net.now rows.now }
{
    rows.iter().all(|row| is_endless_row(net, row)) && are_apart(rows)
}
