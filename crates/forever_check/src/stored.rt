//! A settled form in memory, of rows of dates that show it.
ghost use Rattle.std.specs.Prelude.{◌≡◌, ◌≤◌, ◌<◌, ◌+◌, ◌*◌, IfOk, length, map, slice_index_or};
ghost use Rattle.dioid.specs.declared.dates.Date.TheVariants.{Early};
ghost use Rattle.std.specs.List.{range_with_len};
ghost use Rattle.teg_net.specs.Limits.{most_rows, most_transitions};
ghost use Rattle.settled_laws.specs.SettledForms.{IsSettledFormOf};
ghost use Rattle.dating_certificates.specs.CheckedRows.{date_in_rows};
ghost use Rattle.settled_certificates.specs.SettledRows.{form_by_rows};
ghost use Rattle.teg_net.specs.Circuits.{IsLive};

use dioid::Date;
use settled_forms::Settled;
use std::alloc::{AllocError, Global};
use teg_net::Net;

// The date of the transition at the number behind so many others.
fn date_at(dates: &[Date], width: usize, transition: usize, before: u64) -> Date
    requires { before * width + transition < length dates.now }
    ensures { result ≡ slice_index_or dates.now (before * width + transition) Early }
{
    dates[before as usize * width + transition]
}

// The first dates of a transition in rows of this width.
fn row_of(
    alloc: Global,
    dates: &[Date],
    width: usize,
    transition: usize,
    count: u64,
) -> Result<Vec<Date>, AllocError>
    requires transition { transition < width }
    requires width { width ≤ most_transitions }
    requires few { count ≤ most_rows }
    requires room { count * width ≤ length dates.now }
    ensures { IfOk result (λ row. row.items
        ≡ map (date_in_rows width dates.now transition) (range_with_len 1 count)) }
{
    let mut row = Vec::new(alloc);
    for before in 0..count {
        row.push(date_at(dates, width, transition, before))?;
    }
    Ok(row)
}

// Those of each transition.
fn rows_of(
    alloc: Global,
    dates: &[Date],
    width: usize,
    count: u64,
) -> Result<Vec<Vec<Date>>, AllocError>
    requires width { width ≤ most_transitions }
    requires few { count ≤ most_rows }
    requires room { count * width ≤ length dates.now }
    ensures { IfOk result (λ rows. map (λ r. r.items) rows.items
        ≡ map (λ t. map (date_in_rows width dates.now t) (range_with_len 1 count))
        (range_with_len 0 width)) }
{
    let mut rows = Vec::new(alloc);
    for transition in 0..width {
        let row = row_of(alloc, dates, width, transition, count)?;
        rows.push(row)?;
    }
    Ok(rows)
}

// The numbers below this one.
fn numbers_below(alloc: Global, count: usize) -> Result<Vec<usize>, AllocError>
    ensures { IfOk result (λ numbers. numbers.items ≡ range_with_len 0 count) }
{
    let mut numbers = Vec::new(alloc);
    for number in 0..count {
        numbers.push(number)?;
    }
    Ok(numbers)
}

// The form that the rows tell, which is that of the net.
pub(crate) fn stored(
    alloc: Global,
    net: &Net,
    after: u64,
    period: u64,
    dates: &[Date],
    steps: &[i128],
) -> Result<Settled, AllocError>
    requires live { IsLive net.now }
    requires few { after + period ≤ most_rows }
    requires room { (after + period) * length net.now.transitions ≤ length dates.now }
    requires steps { length steps.now ≡ length net.now.transitions }
    requires form { IsSettledFormOf net.now (form_by_rows (length net.now.transitions) dates.now
        after period steps.now) }
    ensures { IfOk result (IsSettledFormOf net.now) }
{
    net.rules();
    let width = net.transitions().len();
    let rows = rows_of(alloc, dates, width, after + period)?;
    let own = numbers_below(alloc, width)?;
    let steps = Vec::from_slice(alloc, steps)?;
    Ok(Settled::stored(after, period, rows, steps, own))
}
