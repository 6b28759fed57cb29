//! The earliest dates from here on, and what they miss.
ghost use Rattle.std.specs.Prelude.{◌≡◌, ◌<◌, ◌≤◌, ◌^◌, All, IfOk, length};
ghost use Rattle.std.specs.List.{filter};
ghost use Rattle.teg_net.specs.Limits.{most_rows};
ghost use Rattle.date_rows.specs.KeptRows.{AreLeastRows};
ghost use Rattle.teg_due.specs.RowRules.{IsDueOf};
ghost use Rattle.state_laws.specs.NetsLeft.{system_after};
ghost use Rattle.dispatch.specs.Outlooks.{is_after, is_missed};

use crate::happened::Happened;
use date_rows::{PlaceOrder, Rows};
use dioid::Date;
use run_laws::Fired;
use std::alloc::{AllocError, Global};
use teg_check::LiveNet;
use teg_due::{Due, DueRow};
use teg_net::OutOfMemory;

/// The dates of the first `count` firings of each transition of a live net, in the user's unit: the
/// least ones by which each place holds its tokens as long as it has to, no firing of the run comes
/// before it happened, and no other one before now, nor at an input before its list says (chapter
/// 2). A firing that happened sooner than the holding times allow is told at the date that they
/// allow.
///
/// The dates of the run and now are at most 10^18. `OutOfMemory` comes only where no memory is
/// found. A row takes time of order n + p for n transitions and p places, and for each transition a
/// walk along the run.
#[tactic(auto, using(crate::proofs::Bounds::keeps_bounds))]
pub fn outlook(
    alloc: Global,
    held: &LiveNet,
    run: &[Fired],
    now: u64,
    count: u64,
) -> Result<Rows, OutOfMemory>
    requires dates { All (λ f. f.date ≤ 10 ^ 18) run.now }
    requires now { now ≤ 10 ^ 18 }
    requires few { count ≤ most_rows }
    ensures count { IfOk result (λ rows. rows.count ≡ count) }
    ensures rows { IfOk result (AreLeastRows held.now (system_after held.now run.now now)) }
{
    held.net().rules();
    let order = PlaceOrder::new(alloc, held.net(), held.live())?;
    let happened = Happened { run, now };
    let mut rows = Rows::new(alloc, held.net());
    for _number in 0..count {
        rows = rows.with_next(held.net(), &order, &happened)?;
    }
    Ok(rows)
}

/// Whether the date is after this one, in the user's unit: a firing that never comes is, and one
/// that waits for nothing is not (chapter 5). It takes no memory.
pub fn is_after(date: Date, due: u64) -> bool
    ensures { result ≡ is_after date due }
{
    match date {
        Date::Early => false,
        Date::At(date) => i128::from(due) < date,
        Date::Never => true,
    }
}

// Whether the table has the firing of the row, and at a date after it is due.
fn is_missed(rows: &Rows, row: DueRow) -> bool
    requires width { row.transition.index < rows.now.width }
    requires number { 1 ≤ row.number }
    ensures { result ≡ is_missed rows.now row }
{
    let number = u64::from(row.number);
    number <= rows.count() && is_after(rows.date(row.transition, number), row.date)
}

/// The due rows, in their order, whose firing these rows tell at a later date than it is due; a
/// firing past their last number is not told (chapter 5). `AllocError` comes only where no memory
/// is found. It takes a step for each due row.
pub fn missed(
    alloc: Global,
    held: &LiveNet,
    rows: &Rows,
    due: &Due,
) -> Result<Vec<DueRow>, AllocError>
    requires width { rows.now.width ≡ length held.now.transitions }
    requires due { IsDueOf held.now due.now.rows.items }
    ensures { IfOk result (λ missed. missed.items
        ≡ filter (is_missed rows.now) due.now.rows.items) }
{
    due.rows
        .iter()
        .copied()
        .filter(|row| is_missed(rows, *row))
        .collect(alloc)
}
