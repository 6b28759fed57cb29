//! The least late number of a row: the firing that comes later than due, whatever the inputs are.
ghost use Rattle.std.specs.Prelude.{◌≡◌, ◌<◌, ◌≤◌, ◌+◌, ◌-◌, ◌*◌, ◌%◌, ◌⊎◌, pos, IfOk, IfNone, IfSome, IsTrue};
ghost use Rattle.dioid.specs.declared.dates.Date.TheVariants.{At};
ghost use Rattle.teg_net.specs.Limits.{greatest_every, greatest_firing_number, most_rows};
ghost use Rattle.forever_laws.specs.teg_model.DateBounds.{greatest_least_date};
ghost use Rattle.forever_laws.specs.settled_laws.SettledForms.{settled_date};
ghost use Rattle.endless_due.specs.EndlessRows.{most_endless_dates, row_due};
ghost use Rattle.forever_laws.specs.Late.{IsLeastLate, NoneLate, NoneLateTo};
ghost use Rattle.forever_laws.specs.LateSearches.{IsCommonPeriodOf, turns_to};
ghost use Rattle.teg_forever.specs.LateFirings.{GainsByTurns, IsCycleOf, IsLateAfter, IsSoonLate, GoesOnPast, RisesIn};

use crate::dues::due_at;
use crate::leads::none_late_past;
use crate::settled_row::{Cycle, SettledRow};
use forever_laws::{late_is_soon, turns_tell_late};
use teg_net::{GREATEST_FIRING_NUMBER, OutOfMemory};

// A late firing of a row: its number, its due date, and its least date.
#[derive(Clone, Copy)]
pub(crate) struct LateFiring {
    pub number: u128,
    pub due: u128,
    pub least: u128,
}

// Past number `past` each turn of firings adds `rise` to the least dates and `fall` to the due
// dates.
#[derive(Clone, Copy)]
struct CommonPeriod {
    past: u64,
    firings: u64,
    rise: u128,
    fall: u128,
}

// Of the numbers past which dates repeat that which is late after the fewest turns.
#[derive(Clone, Copy)]
struct Soonest {
    number: u64,
    due: u128,
    least: u128,
    turns: u128,
}

// The first late number up to a last one.
fn late_listed(row: &SettledRow<'_>, last: u64) -> Option<LateFiring>
    requires { last ≤ greatest_firing_number }
    ensures none { IfNone result (NoneLateTo (settled_date row.now.settled) row.now.row last) }
    ensures some { IfSome result (λ l. IsLeastLate (settled_date row.now.settled) row.now.row
        l.number
        l.due
        l.least) }
{
    for number in 1..last + 1 {
        let due = due_at(row.row(), number);
        let least = row.least(number);
        if due < least {
            return Some(LateFiring {
                number: number as u128,
                due,
                least,
            });
        }
    }
    None
}

// After how many turns, each of which gains on the due dates, a firing of the first turn is late.
fn turns_at(row: &SettledRow<'_>, turn: CommonPeriod, number: u64) -> Soonest
    requires turn { GainsByTurns row.now turn }
    requires past { turn.past < number }
    requires last { number ≤ turn.past + turn.firings }
    ensures number { result.number ≡ number }
    ensures due { row_due row.now.row number ≡ Some result.due }
    ensures least { settled_date row.now.settled row.now.row.transition.index number ≡ At (pos
        result.least) }
    ensures turns { result.turns ≡ turns_to result.due result.least (turn.rise - turn.fall) }
{
    let due = due_at(row.row(), number);
    let least = row.least(number);
    let turns = (due - least) / (turn.rise - turn.fall) + 1;
    Soonest {
        number,
        due,
        least,
        turns,
    }
}

// That which is late after fewer turns, the first where they are as many.
fn sooner(first: Soonest, next: Soonest) -> Soonest
    ensures { ((next.turns < first.turns) × (result ≡ next))
        ⊎ ((first.turns ≤ next.turns) × (result ≡ first)) }
{
    if next.turns < first.turns {
        next
    } else {
        first
    }
}

// Of the numbers past which dates repeat that which is late after the fewest turns, where each turn
// gains on the due dates: so many turns on stands the least late number.
fn soonest_late(row: &SettledRow<'_>, turn: CommonPeriod) -> Soonest
    requires { GainsByTurns row.now turn }
    ensures { IsLateAfter row.now.settled row.now.row turn result }
{
    turns_tell_late();
    late_is_soon();
    row.settled();
    let mut best = turns_at(row, turn, turn.past + 1);
    for number in turn.past + 2..turn.past + turn.firings + 1 {
        best = sooner(best, turns_at(row, turn, number));
    }
    best
}

// Whether past the settling number the least dates of the row's transition rise as in this cycle.
fn rises_in(row: &SettledRow<'_>, cycle: Cycle) -> bool
    requires firings { cycle.firings ≤ most_rows }
    requires rise { cycle.rise ≤ greatest_least_date }
    ensures { IsTrue result → RisesIn row.now.settled row.now.row.transition.index cycle.firings
        cycle.rise }
{
    let settled = row.settled();
    let after = settled.after();
    for number in after + 1..after + settled.period() + 1 {
        let later = row.least(number + cycle.firings);
        if later != row.least(number) + cycle.rise {
            return false;
        }
    }
    true
}

// What a part of a period takes of its step, where it divides the period.
fn part_of(step: u128, period: u64, firings: u64) -> u128
    requires some { 0 < firings }
    requires within { firings ≤ period }
    ensures { result ≤ step }
{
    step / (period / firings) as u128
}

// A period of the transition's own past the settling number, no longer than that of the form, which
// all transitions keep together.
fn own_cycle(row: &SettledRow<'_>) -> Cycle
    ensures rises { RisesIn row.now.settled row.now.row.transition.index result.firings result.rise }
    ensures some { 1 ≤ result.firings }
    ensures firings { result.firings ≤ most_rows }
    ensures rise { result.rise ≤ greatest_least_date }
{
    let settled = row.settled();
    let period = settled.period();
    let step = settled.step(row.row().transition) as u128;
    for firings in 1..period / 2 + 1 {
        let rise = part_of(step, period, firings);
        if period % firings == 0 && rises_in(row, Cycle { firings, rise }) {
            return Cycle { firings, rise };
        }
    }
    Cycle {
        firings: period,
        rise: step,
    }
}

// A number of cycles of so many firings, from 1 to `every`, that take a multiple of `every`
// firings.
fn common_cycles(firings: u64, every: u64) -> u64
    requires some { 1 ≤ every }
    requires every { every ≤ greatest_every }
    requires firings { firings ≤ most_rows }
    ensures from_one { 1 ≤ result }
    ensures within { result ≤ every }
    ensures common { result * firings % every ≡ 0 }
{
    for cycles in 1..every {
        if cycles * firings % every == 0 {
            return cycles;
        }
    }
    every
}

// Past which number the dates of the row's transition and its due dates repeat.
fn past_of(row: &SettledRow<'_>) -> u64
    ensures { GoesOnPast row.now result }
{
    let due = row.row();
    let past_list = due.dates.as_slice().len() as u64 - due.every as u64;
    row.settled().after().max(past_list)
}

// From which number on, and after how many firings, the dates of the row's transition and its due
// dates repeat together, by a cycle of the dates.
fn turn_of(row: &SettledRow<'_>, cycle: Cycle) -> CommonPeriod
    requires { IsCycleOf row.now cycle }
    ensures turn { IsCommonPeriodOf (settled_date row.now.settled) row.now.row result.past
        result.firings
        result.rise
        result.fall }
    ensures past { result.past ≤ most_rows + most_endless_dates }
    ensures firings { result.firings ≤ greatest_firing_number }
{
    let due = row.row();
    let every = due.every as u64;
    let cycles = common_cycles(cycle.firings, every);
    let firings = cycles * cycle.firings;
    CommonPeriod {
        past: past_of(row),
        firings,
        rise: cycles as u128 * cycle.rise,
        fall: (firings / every) as u128 * due.gap as u128,
    }
}

// The least late number of a row, if it has one. A form whose dates and due dates repeat together
// only past the greatest number that it tells has more dates than any memory holds.
pub(crate) fn late_in_row(row: &SettledRow<'_>) -> Result<Option<LateFiring>, OutOfMemory>
    ensures none { IfOk result (λ late. IfNone late (NoneLate (settled_date row.now.settled)
        row.now.row)) }
    ensures some { IfOk result (λ late. IfSome late (λ l. IsSoonLate row.now.settled row.now.row
        l.number
        l.due
        l.least)) }
{
    turns_tell_late();
    late_is_soon();
    row.settled();
    let cycle = own_cycle(row);
    let past = past_of(row);
    if let Some(last) = none_late_past(row, past, cycle) {
        return Ok(late_listed(row, last));
    }
    let turn = turn_of(row, cycle);
    let last = turn.past + turn.firings;
    if last > GREATEST_FIRING_NUMBER {
        return Err(OutOfMemory);
    }
    if let Some(late) = late_listed(row, last) {
        return Ok(Some(late));
    }
    if turn.rise <= turn.fall {
        return Ok(None);
    }
    let best = soonest_late(row, turn);
    Ok(Some(LateFiring {
        number: best.number as u128 + best.turns * turn.firings as u128,
        due: best.due + best.turns * turn.fall,
        least: best.least + best.turns * turn.rise,
    }))
}
