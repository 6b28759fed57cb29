//! How many dates of a settled form come up to a date.
ghost use Rattle.std.specs.Prelude.{ℕ, ◌≡◌, ◌≤◌, ◌<◌, ◌+◌, true, false, length, pos, Option, Some};
ghost use Rattle.dioid.specs.declared.dates.Date.{Date};
ghost use Rattle.dioid.specs.declared.dates.Date.TheVariants.{At};
ghost use Rattle.dioid.specs.Dates.{IsAtMostDate, move};
ghost use Rattle.teg_net.specs.Limits.{greatest_firing_number};
ghost use Rattle.settled_laws.specs.SettledForms.{settled_date, step_of_form, IsSettledFormOf};
ghost use Rattle.teg_model.specs.DateBounds.{IsDateWithin, greatest_least_date};
ghost use Rattle.teg_model.specs.Datings.{IsLeastDating};
ghost use Rattle.counter_laws.specs.Counters.{AreCounters};
ghost use Rattle.date_counts.specs.Counts.{IsCountUpTo, IsCountOf, Rise, AreSteps, IsRounds, IsSteady};

use dioid::Date;
use teg_net::{Net, TransitionId};
use teg_settle::Settled;

// Whether the date is this one or earlier.
fn is_by(date: Date, limit: u64) -> bool
    ensures yes { result ≡ true → IsAtMostDate date (At (pos limit)) }
    ensures no { result ≡ false → IsAtMostDate date (At (pos limit)) → ⊥ }
{
    match date {
        Date::Early => true,
        Date::At(date) => date <= i128::from(limit),
        Date::Never => false,
    }
}

// How many dates of the transition come up to this one, where that of number `end` does not.
fn count_below(settled: &Settled, transition: TransitionId, limit: u64, end: u64) -> u64
    requires transition { transition.index < length settled.now.rows }
    requires some { 1 ≤ end }
    requires few { end ≤ greatest_firing_number }
    requires rise { Rise (settled_date settled.now transition.index) }
    requires later { IsAtMostDate (settled_date settled.now transition.index end) (At (pos limit)) → ⊥ }
    ensures count { IsCountOf (settled_date settled.now transition.index) limit result }
    ensures below { result < end }
{
    let mut count = 0;
    let mut late = end;
    while late - count > 1 {
        let middle = count + (late - count) / 2;
        if is_by(settled.date(transition, middle), limit) {
            count = middle;
        } else {
            late = middle;
        }
    }
    count
}

// A number of steps, and what they leave of a limit.
#[derive(Clone, Copy)]
pub(crate) struct Rounds {
    pub(crate) count: u64,
    pub(crate) rest: u64,
}

// By how many whole steps a number may move and still come up to the limit: 0 where it is past it,
// none where by any number of steps.
fn whole_steps(last: u128, step: u128, limit: u64) -> Option<Rounds>
    ensures { AreSteps last step limit result }
{
    let most = u128::from(limit);
    if last > most {
        return Some(Rounds {
            count: 0,
            rest: limit,
        });
    }
    if step == 0 {
        return None;
    }
    let count = (most - last) / step;
    let used = step * count;
    Some(Rounds {
        count: count as u64,
        rest: (most - used) as u64,
    })
}

// The same of a date that does not fall by the step.
fn whole_periods(last: Date, step: i128, limit: u64) -> Option<Rounds>
    requires within { IsDateWithin greatest_least_date last }
    requires rises { IsAtMostDate last (move step last) }
    ensures { IsRounds last step limit result }
{
    match last {
        Date::Early => None,
        Date::Never => Some(Rounds {
            count: 0,
            rest: limit,
        }),
        Date::At(last) => whole_steps(last as u128, step as u128, limit),
    }
}

// By how many whole periods the last date of the form may move and still come up to the limit.
fn rounds_of(settled: &Settled, transition: TransitionId, limit: u64) -> Option<Rounds>
    requires transition { transition.index < length settled.now.rows }
    requires steady { IsSteady settled.now transition.index }
    ensures { IsRounds (settled_date settled.now transition.index (settled.now.after
        + settled.now.period)) (step_of_form settled.now transition.index) limit result }
{
    let end = settled.after() + settled.period();
    let last = settled.date(transition, end);
    let step = settled.step(transition);
    whole_periods(last, step, limit)
}

// How many dates of the transition come up to the limit, of which so many whole periods come.
fn past_rounds(settled: &Settled, transition: TransitionId, limit: u64, rounds: Rounds) -> u128
    requires transition { transition.index < length settled.now.rows }
    requires steady { IsSteady settled.now transition.index }
    requires rounds { IsRounds (settled_date settled.now transition.index (settled.now.after
        + settled.now.period)) (step_of_form settled.now transition.index) limit (Some rounds) }
    ensures { IsCountUpTo (settled_date settled.now transition.index) limit (Some result) }
{
    let _limit = limit;
    let period = settled.period();
    let end = settled.after() + period;
    let count = count_below(settled, transition, rounds.rest, end + period);
    u128::from(rounds.count) * u128::from(period) + u128::from(count)
}

// How many dates of the transition come up to the limit.
fn count_in(settled: &Settled, transition: TransitionId, limit: u64) -> Option<u128>
    requires transition { transition.index < length settled.now.rows }
    requires steady { IsSteady settled.now transition.index }
    ensures { IsCountUpTo (settled_date settled.now transition.index) limit result }
{
    match rounds_of(settled, transition, limit) {
        None => None,
        Some(rounds) => Some(past_rounds(settled, transition, limit, rounds)),
    }
}

/// How many firings of a transition come up to a date, in the user's unit, by the earliest dates of
/// a net, of which the settled form is given: the firings up to this number come no later than the
/// date, and those after it later (chapter 5, counters). None where all of them come by then, as
/// those of a transition that waits for nothing.
///
/// So it is what each counter of the net has at the date. It takes no memory, and time of the order
/// of the logarithm of the period.
pub fn count_by(net: &Net, settled: &Settled, transition: TransitionId, date: u64) -> Option<u128>
    requires form { IsSettledFormOf net.now settled.now }
    requires transition { transition.index < length net.now.transitions }
    ensures count { (x : ℕ → ℕ → Date) → IsLeastDating net.now x
        → IsCountUpTo (x transition.index) date result }
    ensures counters { (x : ℕ → ℕ → Date) (c : ℕ → ℕ → Option ℕ) → IsLeastDating net.now x
        → AreCounters net.now x c → c transition.index date ≡ result }
{
    let _net = net;
    count_in(settled, transition, date)
}
