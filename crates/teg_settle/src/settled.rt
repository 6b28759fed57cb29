//! A settled form that is copied from rows of dates.
ghost use Rattle.std.specs.Prelude.{ℕ, ◌≡◌, ◌<◌, ◌≤◌, ◌+◌, IfOk, OnOk, length, map, slice_index, slice_index_or, []};
ghost use Rattle.periodic_laws.specs.settled_laws.SettledForms.{settled_length};
ghost use Rattle.teg_settle.specs.Copies.{AreShownDates, IsTableTo};
ghost use Rattle.teg_settle.specs.ComparedRows.{IsLeastForm};
ghost use Rattle.teg_settle.specs.ShortestForms.{IsFound};

use crate::releases::Releases;
use crate::search::Found;
use crate::window::steps_of;
use date_rows::Rows;
use dioid::Date;
use settled_forms::Settled;
use std::alloc::{AllocError, Global};
use teg_net::{Net, TransitionId};

// In how many numbers the dates of one transition after another are copied: so each part of the
// rows is read while it is near.
const COPIED_AT_ONCE: u64 = 64;

// No dates of so many transitions, with room for so many of each.
fn no_dates(alloc: Global, width: usize, count: u64) -> Result<Vec<Vec<Date>>, AllocError>
    ensures width { IfOk result (λ table. length table.items ≡ width) }
    ensures none { IfOk result (λ table. (t : ℕ) → t < width
        → slice_index_or (map (λ r. r.items) table.items) t [] ≡ []) }
{
    let mut table = Vec::new(alloc);
    for _transition in 0..width {
        let none = Vec::with_capacity(alloc, count as usize)?;
        table.push(none)?;
    }
    Ok(table)
}

// Adds the dates of the transition after these, up to number `count`.
pub(crate) fn add_dates(
    dates: &mut Vec<Date>,
    rows: &Rows,
    transition: TransitionId,
    count: u64,
) -> Result<(), AllocError>
    requires transition { transition.index < rows.now.width }
    requires fewer { length dates.old.items ≤ count }
    requires few { count ≤ rows.now.count }
    requires shown { AreShownDates rows.now transition.index (length dates.old.items)
        dates.old.items }
    ensures { IfOk result (λ _. AreShownDates rows.now transition.index count dates.new.items) }
{
    for number in dates.len() as u64..count {
        dates.push(rows.date(transition, number + 1))?;
    }
    Ok(())
}

// The same of each transition.
fn add_all(table: &mut [Vec<Date>], rows: &Rows, shown: u64, count: u64) -> Result<(), AllocError>
    requires table { IsTableTo rows.now shown table.old }
    requires fewer { shown ≤ count }
    requires few { count ≤ rows.now.count }
    ensures { OnOk result (IsTableTo rows.now count table.new) }
{
    // The rows keep their limits.
    let _count = rows.count();
    for index in 0..table.len() {
        let id = TransitionId {
            index: index as u32,
        };
        add_dates(&mut table[index], rows, id, count)?;
    }
    Ok(())
}

// The first `count` dates of each transition.
fn table_of(alloc: Global, net: &Net, rows: &Rows, count: u64) -> Result<Vec<Vec<Date>>, AllocError>
    requires width { rows.now.width ≡ length net.now.transitions }
    requires few { count ≤ rows.now.count }
    ensures count { IfOk result (λ table. length table.items ≡ length net.now.transitions) }
    ensures rows { IfOk result (λ table. (t : ℕ) → t < length net.now.transitions
        → AreShownDates rows.now t count (slice_index_or (map (λ r. r.items) table.items) t [])) }
{
    let mut table = no_dates(alloc, net.transitions().len(), count)?;
    let mut shown = 0;
    while shown < count {
        let next = shown + COPIED_AT_ONCE.min(count - shown);
        add_all(&mut table, rows, shown, next)?;
        shown = next;
    }
    Ok(table)
}

// The numbers below this one, in order.
fn numbers_below(alloc: Global, count: usize) -> Result<Vec<usize>, AllocError>
    ensures count { IfOk result (λ numbers. length numbers.items ≡ count) }
    ensures each { IfOk result (λ numbers. (i : ℕ) → i < count → slice_index numbers.items i ≡ i) }
{
    let mut numbers = Vec::new(alloc);
    for index in 0..count {
        numbers.push(index)?;
    }
    Ok(numbers)
}

// The form that the rows show, with the dates that it needs of them.
pub(crate) fn settled_of(
    alloc: Global,
    net: &Net,
    _releases: &Releases,
    found: &Found,
) -> Result<Settled, AllocError>
    requires found { IsFound net.now _releases.now found.now }
    ensures form { IfOk result (IsLeastForm net.now _releases.now) }
    ensures length { IfOk result (λ form. settled_length form
        ≡ found.now.form.after + found.now.form.period) }
{
    let form = found.form;
    let table = table_of(alloc, net, &found.rows, form.after + form.period)?;
    let steps = steps_of(alloc, net, &found.rows, form.period)?;
    let own = numbers_below(alloc, net.transitions().len())?;
    Ok(Settled::stored(form.after, form.period, table, steps, own))
}
