//! The input lists that a run leaves.
ghost use Rattle.std.specs.Prelude.{◌≡◌, ◌<◌, ◌≤◌, ◌^◌, All, Decides, IfErr, IfNone, IfOk, IfSome, None, Some, length, max, option_copied};
ghost use Rattle.teg_net.specs.Inputs.{IsInputDates, input_date, list_of_input};
ghost use Rattle.teg_net.specs.Limits.{greatest_firing_number, greatest_input_date};
ghost use Rattle.teg_net.specs.Nets.{IsInput};
ghost use Rattle.teg_state.specs.WhyNotLeft.{HasTokensLeft, IsWhyNotLeft};
ghost use Rattle.teg_state.specs.LeftLists.{AreListsLeft, AreNear, AreWithinLimits, IsFarInput, IsJoined, IsListOf, again_by_list, left_date, left_dates, list_with};

use crate::history::History;
use crate::refusal::NotLeft;
use std::alloc::Global;
use teg_net::{Again, DateList, GREATEST_INPUT_DATE, InputList, Net, TransitionId};

// The dates that one list may hold.
const MOST_DATES: u64 = 100_000;

// The list of the transition, if it has one.
fn list_of(net: &Net, transition: TransitionId) -> Option<&InputList>
    ensures { option_copied result ≡ list_of_input net.now transition.index }
{
    net.inputs()
        .iter()
        .find(|list| list.transition.index == transition.index)
}

// Whether so many dates, of which the last ones so many are not before now, tell all that follow.
fn is_joined(again: Option<Again>, long: u64, next: u64, count: u64, clear: u64) -> bool
    ensures { Decides result (IsJoined again long next count clear) }
{
    if next < long {
        return false;
    }
    match again {
        None => true,
        Some(again) => {
            let every = u64::from(again.every);
            every <= count && (again.gap == 0 || every <= clear)
        }
    }
}

// The date of the firing of an input, where the later of it and now is one that a list may hold.
fn near_date(net: &Net, transition: TransitionId, number: u64, now: u64) -> Option<u64>
    requires input { IsInput net.now transition.index }
    requires first { 1 ≤ number }
    requires last { number ≤ greatest_firing_number }
    ensures date { IfSome result (λ date. Some date ≡ input_date net.now transition.index number) }
    ensures near { IfSome result (λ date. max now date ≤ greatest_input_date) }
    ensures far { IfNone result (IfSome (left_date now
        (input_date net.now transition.index number)) (λ date. greatest_input_date < date)) }
{
    let date = net.input_date(transition, number)?;
    if u128::from(GREATEST_INPUT_DATE) < date || GREATEST_INPUT_DATE < now {
        None
    } else {
        Some(date as u64)
    }
}

// The dates of the input's list from the next firing on, none before now.
fn dates_left(
    alloc: Global,
    net: &Net,
    list: &InputList,
    history: &History,
    now: u64,
) -> Result<Vec<u64>, NotLeft>
    requires own { IsListOf net.now list.now }
    requires width { list.now.transition.index < history.now.width }
    requires few { length history.now.run ≤ 2 ^ 40 }
    requires left { All (HasTokensLeft history.now.run) net.now.places }
    requires near { AreNear net.now history.now.run now list.now.transition.index }
    ensures dates { IfOk result (λ dates. IsInputDates (list_with list.now dates.items)
        (left_dates net.now history.now.run now list.now.transition.index)) }
    ensures limits { IfOk result (λ dates. AreWithinLimits list.now.again dates.items) }
    ensures refusal { IfErr result (IsWhyNotLeft net.now history.now.run now) }
{
    let fired = history.fired(list.transition);
    let long = list.dates.as_slice().len() as u64;
    let mut dates = Vec::new(alloc);
    let mut clear = 0;
    for count in 0..MOST_DATES + 1 {
        if is_joined(list.again, long, fired + count, count, clear) {
            return Ok(dates);
        }
        let Some(date) = near_date(net, list.transition, fired + count + 1, now) else {
            return Err(NotLeft::FarInput {
                transition: list.transition,
            });
        };
        dates.push(now.max(date))?;
        clear = if now <= date { clear + 1 } else { 0 };
    }
    Err(NotLeft::FarInput {
        transition: list.transition,
    })
}

// The list of an input that has none: from now on at any date.
fn free_list(
    alloc: Global,
    net: &Net,
    transition: TransitionId,
    history: &History,
    now: u64,
) -> Result<InputList, NotLeft>
    requires input { IsInput net.now transition.index }
    requires free { list_of_input net.now transition.index ≡ None }
    requires left { All (HasTokensLeft history.now.run) net.now.places }
    requires near { AreNear net.now history.now.run now transition.index }
    ensures transition { IfOk result (λ l. l.transition ≡ transition) }
    ensures again { IfOk result (λ l. l.again ≡ again_by_list None) }
    ensures dates { IfOk result (λ l. IsInputDates l
        (left_dates net.now history.now.run now transition.index)) }
    ensures limits { IfOk result (λ l. AreWithinLimits l.again l.dates) }
    ensures refusal { IfErr result (IsWhyNotLeft net.now history.now.run now) }
{
    if GREATEST_INPUT_DATE < now {
        return Err(NotLeft::FarInput { transition });
    }
    let mut dates = Vec::new(alloc);
    dates.push(now)?;
    Ok(InputList {
        transition,
        dates: DateList::new(dates),
        again: Some(Again { every: 1, gap: 0 }),
    })
}

// The list of an input from the next firing on, none of its dates before now.
fn list_left(
    alloc: Global,
    net: &Net,
    transition: TransitionId,
    history: &History,
    now: u64,
) -> Result<InputList, NotLeft>
    requires input { IsInput net.now transition.index }
    requires width { transition.index < history.now.width }
    requires few { length history.now.run ≤ 2 ^ 40 }
    requires left { All (HasTokensLeft history.now.run) net.now.places }
    requires near { AreNear net.now history.now.run now transition.index }
    ensures transition { IfOk result (λ l. l.transition ≡ transition) }
    ensures dates { IfOk result (λ l. IsInputDates l
        (left_dates net.now history.now.run now transition.index)) }
    ensures near { IfOk result
        (λ _. IsFarInput net.now history.now.run now transition.index → ⊥) }
    ensures refusal { IfErr result (IsWhyNotLeft net.now history.now.run now) }
{
    net.rules();
    match list_of(net, transition) {
        Some(list) => {
            let dates = dates_left(alloc, net, list, history, now)?;
            Ok(InputList {
                transition,
                dates: DateList::new(dates),
                again: list.again,
            })
        }
        None => free_list(alloc, net, transition, history, now),
    }
}

// The lists of all inputs.
pub(crate) fn lists_left(
    alloc: Global,
    net: &Net,
    history: &History,
    now: u64,
) -> Result<Vec<InputList>, NotLeft>
    requires width { history.now.width ≡ length net.now.transitions }
    requires few { length history.now.run ≤ 2 ^ 40 }
    requires left { All (HasTokensLeft history.now.run) net.now.places }
    ensures lists { IfOk result (λ lists. AreListsLeft net.now history.now.run now
        (length net.now.transitions) lists.items) }
    ensures near { IfOk result
        (λ _. AreNear net.now history.now.run now (length net.now.transitions)) }
    ensures refusal { IfErr result (IsWhyNotLeft net.now history.now.run now) }
{
    let mut lists = Vec::new(alloc);
    for index in 0..net.transition_count() {
        let transition = TransitionId::new(index);
        if net.is_input(transition) {
            lists.push(list_left(alloc, net, transition, history, now)?)?;
        }
    }
    Ok(lists)
}
