//! The witness of `teg forever`: releases without end, which are the latest that meet what is due.
ghost use Rattle.std.specs.Prelude.{ℕ, ◌≡◌, ◌≢◌, ◌≤◌, ◌<◌, ◌+◌, All, IfOk, IsTrue, Option, length};
ghost use Rattle.dioid.specs.declared.dates.Date.TheVariants.{Never};
ghost use Rattle.teg_net.specs.Circuits.{IsLive};
ghost use Rattle.teg_net.specs.Nets.{EndsOrGoesOn};
ghost use Rattle.teg_due.specs.RowRules.{IsDueOf};
ghost use Rattle.teg_model.specs.Datings.{as_date};
ghost use Rattle.endless_due.specs.EndlessRows.{IsEndlessOf, due_on};
ghost use Rattle.latest_certificates.specs.LatestRows.{ListsDues};
ghost use Rattle.forever_check.specs.ShownReleases.{EndsAtOnce, IsShownForever};
ghost use Rattle.forever_check.specs.ReleaseWalks.{AreShownBetween, AreShownInTurn, GoesWith, IsReleaseShown, IsToldAt};

use crate::due_rows::{are_dues, are_turning, dues_to, turning_to};
use crate::made_rows::latest_dates;
use crate::met::meeting_net;
use crate::shortest::are_shortest;
use crate::turns::{Turn, goes_with, turn_of};
use dioid::Date;
use endless_due::EndlessRow;
use latest_certificates::check_latest;
use std::alloc::Global;
use teg_due::{Due, is_due_of};
use teg_net::{InputList, Net, OutOfMemory};

// The greatest number that is looked at.
const MOST_NUMBER: usize = 1_000;

// How many dates a table has at most.
const MOST_DATES: usize = 4_000_000;

// How many rows a due list has at most.
const MOST_DUES: usize = 4_000;

// Whether the date is the one that is told.
fn is_date(date: Date, told: Option<u128>) -> bool
    ensures same { IsTrue result → date ≡ as_date told }
    ensures dated { IsTrue result → as_date told ≢ Never }
{
    match (date, told) {
        (Date::At(date), Some(told)) => 0 <= date && date as u128 == told,
        _ => false,
    }
}

// Whether the table, whose rows go up to a number, has the date of the list at the firing.
fn is_told_at(net: &Net, last: u32, dates: &[Date], list: &InputList, number: u32) -> bool
    requires first { 1 ≤ number }
    requires last { number ≤ last }
    requires rule { EndsOrGoesOn list.now.dates list.now.again }
    ensures { IsTrue result → IsToldAt net.now last dates.now list.now number }
{
    net.rules();
    let row = (number as usize - 1) * net.transitions().len();
    match dates.get(row + list.transition.index as usize) {
        Some(date) => is_date(*date, list.date(u64::from(number))),
        None => false,
    }
}

// Whether it has those of all firings past a number and up to another.
fn are_told(net: &Net, last: u32, dates: &[Date], list: &InputList, past: u32, until: u32) -> bool
    requires last { until ≤ last }
    requires rule { EndsOrGoesOn list.now.dates list.now.again }
    ensures { IsTrue result → (k : ℕ) → past < k → k ≤ until
        → IsToldAt net.now last dates.now list.now k }
{
    for before in past..until {
        if !is_told_at(net, last, dates, list, before + 1) {
            return false;
        }
    }
    true
}

// Whether walks to these due firings show the dates of the list past a number and up to another.
fn are_shown_by(
    alloc: Global,
    net: &Net,
    due: &Due,
    last: u32,
    list: &InputList,
    past: u32,
    until: u32,
) -> Result<bool, OutOfMemory>
    requires live { IsLive net.now }
    requires due { IsDueOf net.now due.now.rows.items }
    requires input { list.now.transition.index < length net.now.transitions }
    requires last { until ≤ last }
    requires rule { EndsOrGoesOn list.now.dates list.now.again }
    ensures { IfOk result (λ yes. IsTrue yes → (dues : ℕ → ℕ → Option ℕ)
        → ListsDues due.now.rows.items dues → AreShownBetween net.now dues list.now past until) }
{
    let dates = latest_dates(alloc, net, &due.rows, last)?;
    if !check_latest(alloc, net, due, last, &dates)? {
        return Ok(false);
    }
    Ok(are_told(net, last, &dates, list, past, until))
}

// Whether walks to due firings up to a number show the dates of the list up to the turn.
fn are_firsts_shown(
    alloc: Global,
    net: &Net,
    rows: &[EndlessRow],
    list: &InputList,
    turn: Turn,
    last: u32,
) -> Result<bool, OutOfMemory>
    requires live { IsLive net.now }
    requires due { IsEndlessOf net.now rows.now }
    requires input { list.now.transition.index < length net.now.transitions }
    requires last { turn.past ≤ last }
    requires rule { EndsOrGoesOn list.now.dates list.now.again }
    ensures { IfOk result (λ yes. IsTrue yes
        → AreShownBetween net.now (due_on rows.now) list.now 0 turn.past) }
{
    let due = dues_to(alloc, rows, last)?;
    if !is_due_of(net, &due) {
        return Ok(false);
    }
    if !are_dues(rows, &due.rows) {
        return Ok(false);
    }
    let shown = are_shown_by(alloc, net, &due, last, list, 0, turn.past)?;
    Ok(shown)
}

// Whether walks that turn as the list does show its dates in the first turn.
fn are_turns_shown(
    alloc: Global,
    net: &Net,
    rows: &[EndlessRow],
    list: &InputList,
    turn: Turn,
    last: u32,
) -> Result<bool, OutOfMemory>
    requires live { IsLive net.now }
    requires input { list.now.transition.index < length net.now.transitions }
    requires last { turn.past + turn.firings ≤ last }
    requires rule { EndsOrGoesOn list.now.dates list.now.again }
    ensures { IfOk result (λ yes. IsTrue yes → AreShownInTurn net.now rows.now list.now turn) }
{
    let due = turning_to(alloc, rows, turn, last)?;
    if !is_due_of(net, &due) {
        return Ok(false);
    }
    if !are_turning(turn, rows, &due.rows) {
        return Ok(false);
    }
    let until = turn.past + turn.firings;
    let shown = are_shown_by(alloc, net, &due, last, list, turn.past, until)?;
    Ok(shown)
}

// Whether walks to due firings up to a number show all dates of the list, which goes on with the
// turn.
fn is_shown_to(
    alloc: Global,
    net: &Net,
    rows: &[EndlessRow],
    list: &InputList,
    turn: Turn,
    last: u32,
) -> Result<bool, OutOfMemory>
    requires live { IsLive net.now }
    requires due { IsEndlessOf net.now rows.now }
    requires input { list.now.transition.index < length net.now.transitions }
    requires last { turn.past + turn.firings ≤ last }
    requires rule { EndsOrGoesOn list.now.dates list.now.again }
    requires goes { GoesWith list.now.dates list.now.again turn }
    ensures { IfOk result (λ yes. IsTrue yes → IsReleaseShown net.now rows.now list.now) }
{
    if !are_firsts_shown(alloc, net, rows, list, turn, last)? {
        return Ok(false);
    }
    let shown = are_turns_shown(alloc, net, rows, list, turn, last)?;
    Ok(shown)
}

// The greatest number to which the tables of the net and the due lists of so many rows go.
fn most_number(net: &Net, rows: &[EndlessRow]) -> u32 {
    let width = net.transitions().len().max(1);
    let by_rows = MOST_DUES / rows.len().max(1);
    MOST_NUMBER.min(MOST_DATES / width).min(by_rows) as u32
}

// Whether walks to due firings up to some number show all dates of the list, which goes on with the
// turn.
fn is_shown_in(
    alloc: Global,
    net: &Net,
    rows: &[EndlessRow],
    list: &InputList,
    turn: Turn,
) -> Result<bool, OutOfMemory>
    requires live { IsLive net.now }
    requires due { IsEndlessOf net.now rows.now }
    requires input { list.now.transition.index < length net.now.transitions }
    requires rule { EndsOrGoesOn list.now.dates list.now.again }
    requires goes { GoesWith list.now.dates list.now.again turn }
    ensures { IfOk result (λ yes. IsTrue yes → IsReleaseShown net.now rows.now list.now) }
{
    let most = most_number(net, rows);
    let window = turn.past.saturating_add(turn.firings);
    let mut last = window.saturating_add(16).min(most);
    for _ in 0..16 {
        if u64::from(turn.past) + u64::from(turn.firings) > u64::from(last) {
            return Ok(false);
        }
        if is_shown_to(alloc, net, rows, list, turn, last)? {
            return Ok(true);
        }
        if last >= most {
            return Ok(false);
        }
        last = last.saturating_mul(2).min(most);
    }
    Ok(false)
}

// Whether walks to due firings show all dates of the list, which goes on.
fn is_going_shown(
    alloc: Global,
    net: &Net,
    rows: &[EndlessRow],
    list: &InputList,
) -> Result<bool, OutOfMemory>
    requires live { IsLive net.now }
    requires due { IsEndlessOf net.now rows.now }
    requires rule { EndsOrGoesOn list.now.dates list.now.again }
    ensures { IfOk result (λ yes. IsTrue yes → IsReleaseShown net.now rows.now list.now) }
{
    let Some(turn) = turn_of(list, rows) else {
        return Ok(false);
    };
    if !net.contains_transition(list.transition) || !goes_with(list, turn) {
        return Ok(false);
    }
    is_shown_in(alloc, net, rows, list, turn)
}

// Whether walks to due firings show all dates of the list, which has none if it ends.
fn is_shown(
    alloc: Global,
    net: &Net,
    rows: &[EndlessRow],
    list: &InputList,
) -> Result<bool, OutOfMemory>
    requires live { IsLive net.now }
    requires due { IsEndlessOf net.now rows.now }
    requires rule { EndsOrGoesOn list.now.dates list.now.again }
    requires ends { EndsAtOnce list.now.dates list.now.again }
    ensures { IfOk result (λ yes. IsTrue yes → IsReleaseShown net.now rows.now list.now) }
{
    match list.again {
        None => Ok(true),
        Some(_) => is_going_shown(alloc, net, rows, list),
    }
}

// Whether they show all dates of each list.
fn are_shown(
    alloc: Global,
    net: &Net,
    rows: &[EndlessRow],
    lists: &[InputList],
) -> Result<bool, OutOfMemory>
    requires live { IsLive net.now }
    requires due { IsEndlessOf net.now rows.now }
    requires rules { All (λ l. EndsOrGoesOn l.dates l.again) lists.now }
    requires ends { All (λ l. EndsAtOnce l.dates l.again) lists.now }
    ensures { IfOk result (λ yes. IsTrue yes → All (IsReleaseShown net.now rows.now) lists.now) }
{
    for list in lists {
        if !is_shown(alloc, net, rows, list)? {
            return Ok(false);
        }
    }
    Ok(true)
}

/// Whether the text of `teg forever` that tells releases without end is shown to tell the latest
/// inputs that meet what is due (chapter 5): it is shown to meet it ([`shown_met`](crate::shown_met)),
/// and for every firing of each input a walk leads to a due firing whose date less the time of the
/// walk is the date that the text tells, so that no later one would do; an input that is told to be
/// free leads to no due firing. Of the lists that tell the same dates the text has the shortest:
/// they go on in no fewer firings, and past no smaller number.
///
/// For each input that is not free, the latest dates for what is due up to a number are made and
/// checked, once of all rows and once of those that rise as the input's dates do, where they go on:
/// by the law [`walks_move_on`](endless_laws::walks_move_on) the dates up to one common turn past
/// which the input and these rows go on tell all. No text is shown where walks past number 1,000,
/// due dates past 10^12, more than 4,000 due rows or tables of more than 4,000,000 dates would have
/// to be looked at. It takes memory for such a table, and time of its order times the number of
/// places, besides that of `shown_met`. `OutOfMemory` comes only where no memory is found, or as
/// there.
pub fn shown_forever(
    alloc: Global,
    net: &Net,
    rows: &[EndlessRow],
    text: &str,
) -> Result<bool, OutOfMemory>
    ensures { IfOk result (λ yes. IsTrue yes → IsShownForever net.now rows.now text.now) }
{
    let Some(released) = meeting_net(alloc, net, rows, text)? else {
        return Ok(false);
    };
    net.rules();
    let lists = released.inputs();
    if !are_shortest(lists) {
        return Ok(false);
    }
    let latest = are_shown(alloc, net, rows, lists)?;
    Ok(latest)
}
