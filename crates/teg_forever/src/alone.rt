//! Late numbers looked for in the rows of the least dating, one after another, of which only the
//! last are kept: for nets whose dates settle late, or have a form that is too long.
ghost use Rattle.std.specs.Prelude.{◌≡◌, ◌<◌, ◌≤◌, ◌+◌, All, ℕ, length, pos, IfOk, IfNone, IfSome};
ghost use Rattle.dioid.specs.declared.dates.Date.TheVariants.{At};
ghost use Rattle.teg_net.specs.Limits.{greatest_firing_number, most_place_tokens};
ghost use Rattle.teg_net.specs.Nets.{without_inputs};
ghost use Rattle.date_rows.specs.Streams.{IsStreamOf, rows_given};
ghost use Rattle.forever_laws.specs.Late.{IsLeastLate, NoneLateTo};
ghost use Rattle.forever_laws.specs.PacedRows.{paced_bound};
ghost use Rattle.teg_forever.specs.LateFirings.{InLeastAtZero, TellsWhetherLate};

use crate::dues::due_at;
use crate::late::LateFiring;
use crate::pace::keeps_pace;
use crate::plain_row::PlainRow;
use date_rows::LeastRows;
use dioid::Date;
use forever_laws::{paced_late_is_soon, zero_inputs_are_no_lists};
use std::alloc::Global;
use teg_net::{Net, OutOfMemory};

// The dates and places of the rows that are looked through, at most: some seconds.
const MOST_STEPS: u64 = 400_000_000;

// As how many of them a row counts beside its own, so that a small net has few rows.
const STEPS_OF_ROW: u64 = 200;

// The number of a date that is one.
pub(crate) fn number_of(date: Date) -> u128
    requires { (m : ℕ) × (date ≡ At (pos m)) }
    ensures { date ≡ At (pos result) }
{
    match date {
        Date::At(number) => number as u128,
        _ => 0,
    }
}

// Writes the next row of the net without its inputs. The date of the row's transition in it.
fn next_least(plain: &PlainRow<'_>, stream: &mut LeastRows, dates: &mut [Date]) -> u128
    requires stands { IsStreamOf (without_inputs plain.now.net) stream.old }
    requires few { rows_given stream.old < greatest_firing_number }
    requires full { length dates.old ≡ length plain.now.net.transitions }
    ensures least { InLeastAtZero plain.now.net (λ x. x plain.now.row.transition.index
        (rows_given stream.old + 1) ≡ At (pos result)) }
    ensures stands { IsStreamOf (without_inputs plain.now.net) stream.new }
    ensures given { rows_given stream.new ≡ rows_given stream.old + 1 }
    ensures full { length dates.new ≡ length dates.old }
{
    zero_inputs_are_no_lists();
    stream.write_next(plain.plain(), dates);
    number_of(dates[plain.row().transition.index as usize])
}

// The first late number up to a last one, by the rows of the net without its inputs.
pub(crate) fn late_to(
    alloc: Global,
    plain: &PlainRow<'_>,
    last: u64,
) -> Result<Option<LateFiring>, OutOfMemory>
    requires { last ≤ greatest_firing_number }
    ensures none { IfOk result (λ late. IfNone late (InLeastAtZero plain.now.net (λ x. NoneLateTo x
        plain.now.row last))) }
    ensures some { IfOk result (λ late. IfSome late (λ l. InLeastAtZero plain.now.net (λ x.
        IsLeastLate x plain.now.row l.number l.due l.least))) }
{
    let row = plain.row();
    let mut stream = LeastRows::new(alloc, plain.plain(), plain.live())?;
    let mut list = vec![in alloc; Date::Early; plain.net().transitions().len()]?;
    let dates = list.as_mut_slice();
    for number in 1..last + 1 {
        let least = next_least(plain, &mut stream, dates);
        let due = due_at(row, number);
        if due < least {
            return Ok(Some(LateFiring {
                number: number as u128,
                due,
                least,
            }));
        }
    }
    Ok(None)
}

// The greatest number of tokens in a place, at least 1.
fn most_tokens(net: &Net) -> u64
    ensures some { 1 ≤ result }
    ensures few { result ≤ most_place_tokens }
    ensures most { All (λ p. p.tokens ≤ result) net.now.places }
{
    let mut most = 1;
    for place in net.places() {
        most = most.max(u64::from(place.tokens));
    }
    most
}

// The number up to which a row that keeps pace has a late number, if it has one.
fn last_to_see(plain: &PlainRow<'_>, most: u64) -> u64
    requires { most ≤ most_place_tokens }
    ensures { result ≡ paced_bound plain.now.net most plain.now.row }
{
    let row = plain.row();
    let listed = row.dates.as_slice().len() as u64;
    let count = plain.net().transitions().len() as u64;
    listed + u64::from(row.every) * (count * most) + most
}

// How many rows of the net without its inputs are looked through at most.
pub(crate) fn most_numbers(net: &Net) -> u64
    ensures { result ≤ greatest_firing_number }
{
    let steps = net.transitions().len() as u64 + net.places().len() as u64;
    MOST_STEPS / (steps + STEPS_OF_ROW)
}

// The number up to which a row that keeps pace has a late number, if it has one; none where it does
// not keep pace, or that is further than rows are looked through.
pub(crate) fn last_of(alloc: Global, plain: &PlainRow<'_>) -> Result<Option<u64>, OutOfMemory>
    ensures few { IfOk result (λ last. IfSome last (λ n. n ≤ greatest_firing_number)) }
    ensures tells { IfOk result (λ last. IfSome last (TellsWhetherLate plain.now.net plain.now.row)) }
{
    paced_late_is_soon();
    let net = plain.net();
    let paced = keeps_pace(alloc, plain)?;
    let last = last_to_see(plain, most_tokens(net));
    let most = most_numbers(net);
    if paced && last <= most {
        Ok(Some(last))
    } else {
        Ok(None)
    }
}
