//! The witness of `teg date`: the dates of all firings up to the number of the one that is told.
ghost use Rattle.std.specs.Prelude.{◌≡◌, ◌↔◌, ◌+◌, ◌*◌, ◌<◌, ◌≤◌, IfOk, IsTrue, MatchOption, length, slice_index_or};
ghost use Rattle.std.specs.Option.{option_map};
ghost use Rattle.dioid.specs.declared.dates.Date.TheVariants.{Early};
ghost use Rattle.answer_check.specs.DateReading.{ComparesDate, ReadsListed, TellsDate};
ghost use Rattle.answer_check.specs.ShownDates.{IsOtherDate, ShowsDate};

use crate::date_words::date_in;
use crate::firing_reading::{FiringTold, firing_in};
use crate::list_reading::list_in;
use dating_certificates::check_rows;
use dioid::Date;
use std::alloc::{AllocError, Global};
use teg_model::least_datings_exist;
use teg_net::{Net, OutOfMemory, TransitionId};
use witness_check::is_seen_live;

/// What the line of `teg date` shows: the date of a firing, in the user's unit.
#[derive(Clone, Copy, Debug, PartialEq, Eq)]
pub struct ShownDate {
    pub transition: TransitionId,
    /// The number of the firing, from 1.
    pub number: u32,
    pub date: Date,
}

// A firing with the date that a list tells of it, and whether a line tells this date.
#[derive(Clone, Copy)]
struct ComparedDate {
    shown: ShownDate,
    is_told: bool,
}

// The date in a row, by how many rows are before it, of so many of this width.
fn date_of(dates: &[Date], width: usize, count: u32, before: u32, index: usize) -> Date
    requires row { before < count }
    requires index { index < width }
    requires rows { count * width ≤ length dates.now }
    ensures { result ≡ slice_index_or dates.now (before * width + index) Early }
{
    dates[before as usize * width + index]
}

// How many numbers are before this one, where it is one from 1 to the count.
fn row_before(number: u32, count: u32) -> Option<u32>
    ensures { MatchOption result (1 ≤ number → number ≤ count → ⊥)
        (λ before. (before < count) × (number ≡ before + 1)) }
{
    if number < 1 || count < number {
        return None;
    }
    Some(number - 1)
}

// The date that the list tells of the firing, where it is shown to be that of the least dates and has
// the firing.
fn listed_date(
    alloc: Global,
    net: &Net,
    list: &str,
    transition: TransitionId,
    number: u32,
) -> Result<Option<Date>, OutOfMemory>
    requires { transition.index < length net.now.transitions }
    ensures { IfOk result (ReadsListed net.now list.now transition.index number) }
{
    net.rules();
    least_datings_exist();
    let Some(told) = list_in(alloc, net, list)? else {
        return Ok(None);
    };
    let (count, dates) = (told.count, told.dates.as_slice());
    let Some(before) = row_before(number, count) else {
        return Ok(None);
    };
    if !is_seen_live(alloc, net)? {
        return Ok(None);
    }
    if !check_rows(alloc, net, dates)? {
        return Ok(None);
    }
    let width = net.transitions().len();
    Ok(Some(date_of(dates, width, count, before, transition.index as usize)))
}

// Whether the word tells this date, which the least dating gives to a firing.
fn is_told(alloc: Global, word: &str, date: Date) -> Result<bool, AllocError>
    ensures { IfOk result (λ yes. TellsDate word.now date yes) }
{
    let mut buffer = String::new(alloc);
    let told = date_in(&mut buffer, word)?;
    Ok(told == date)
}

// The firing that the text tells with the date that the list tells of it, and whether the text tells
// this date; none where the list does not have the firing or the text tells none.
fn compared(
    alloc: Global,
    net: &Net,
    list: &str,
    text: &str,
) -> Result<Option<ComparedDate>, OutOfMemory>
    ensures { IfOk result (λ found. ComparesDate net.now list.now text.now
        (option_map (λ c. (c.shown, c.is_told)) found)) }
{
    net.rules();
    let Some(firing) = firing_in(alloc, net, text)? else {
        return Ok(None);
    };
    let FiringTold {
        transition,
        number,
        word,
    } = firing;
    let Some(date) = listed_date(alloc, net, list, transition, number)? else {
        return Ok(None);
    };
    let shown = ShownDate {
        transition,
        number,
        date,
    };
    let is_told = is_told(alloc, word, date)?;
    Ok(Some(ComparedDate { shown, is_told }))
}

/// The firing and the date that the text of `teg date` tells, where they are shown by the text of
/// `teg list` for at least so many firings: the net is live, the whole text of `teg date` is the line
/// of the firing, and its date, in the user's unit, is that of the least dating (chapter 2).
///
/// There is none just where the list is not shown ([`shown_list`](crate::shown_list)), or the text
/// is not the line of a firing that the list has, with its date: whether it tells another date,
/// [`refutes_date`] says. It takes memory for the list's lines and its dates, and time of order `n + p`
/// a row for n transitions and p places, and of order `n p` for whether the net is live.
/// `OutOfMemory` comes only where no memory is found.
pub fn shown_date(
    alloc: Global,
    net: &Net,
    list: &str,
    text: &str,
) -> Result<Option<ShownDate>, OutOfMemory>
    ensures { IfOk result (ShowsDate net.now list.now text.now) }
{
    net.rules();
    let Some(found) = compared(alloc, net, list, text)? else {
        return Ok(None);
    };
    let ComparedDate { shown, is_told } = found;
    if !is_told {
        return Ok(None);
    }
    Ok(Some(shown))
}

/// Whether the list is shown ([`shown_list`](crate::shown_list)) and the text of `teg date` is the
/// line of a firing that it has, with some word in the place of its date that is another than the
/// date, in the user's unit, of the least dating (chapter 2). So no date is shown ([`shown_date`]).
/// Memory and time are those of that call. `OutOfMemory` comes only where no memory is found.
pub fn refutes_date(alloc: Global, net: &Net, list: &str, text: &str) -> Result<bool, OutOfMemory>
    ensures { IfOk result (λ yes. IsTrue yes ↔ IsOtherDate net.now list.now text.now) }
{
    net.rules();
    let Some(found) = compared(alloc, net, list, text)? else {
        return Ok(false);
    };
    Ok(!found.is_told)
}
