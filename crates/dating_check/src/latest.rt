//! The witness of a line of `teg jit`: a tight walk from its firing to one that is due.
ghost use Rattle.std.specs.Prelude.{◌≡◌, ◌+◌, ◌<◌, ◌↔◌, ◌++◌, IfOk, IfSome, IsTrue, length, string_bytes};
ghost use Rattle.teg_net.specs.Walks.{EndsAt, IsWalk, walk_time};
ghost use Rattle.dating_check.specs.ShownWalks.{BeginsWith, BoundsByRow, IsShownLatest, TellsLatest, latest_beginning};

use crate::walk_reading::walk_in;
use latest_laws::tight_walks_bound;
use std::alloc::{AllocError, Global};
use teg_due::DueRow;
use teg_net::{Net, OutOfMemory, TransitionId, Walk, is_walk, walk_end, walk_time};

/// What a line of `teg jit` shows: the firing comes at this date at the latest.
#[derive(Clone, Copy, Debug, PartialEq, Eq)]
pub struct ShownLatest {
    pub transition: TransitionId,
    /// The number of the firing, from 1.
    pub number: u64,
    /// The latest date, in the user's unit.
    pub date: u64,
}

// Whether the walk is one of the net that ends at the firing.
pub(crate) fn ends_at(net: &Net, walk: &Walk, transition: TransitionId, number: u64) -> bool
    ensures walk { IsTrue result → IsWalk net.now walk.now }
    ensures ends { IsTrue result → EndsAt net.now walk.now transition.index number }
{
    if !is_walk(net, walk) {
        return false;
    }
    let (at, count) = walk_end(net, walk);
    at.index == transition.index && count == number
}

// Whether the walk leads from the firing to that of the row, and the date and its time make the due
// date.
fn is_tight(net: &Net, walk: &Walk, row: &DueRow, shown: ShownLatest) -> bool
    ensures walk { IsTrue result → IsWalk net.now walk.now }
    ensures start { IsTrue result → walk.now.start.index ≡ shown.transition.index }
    ensures number { IsTrue result → walk.now.number ≡ shown.number }
    ensures ends { IsTrue result → EndsAt net.now walk.now row.now.transition.index
        row.now.number }
    ensures time { IsTrue result → shown.date + walk_time net.now walk.now.steps.items
        ≡ row.now.date }
{
    if walk.start.index != shown.transition.index || walk.number != shown.number {
        return false;
    }
    if !ends_at(net, walk, row.transition, u64::from(row.number)) {
        return false;
    }
    let time = walk_time(net, walk);
    let due = u128::from(row.date);
    time <= due && due - time == u128::from(shown.date)
}

// Whether the walk shows that the firing comes no later than the date where the row is kept.
fn bounds(net: &Net, walk: &Walk, row: &DueRow, shown: ShownLatest) -> bool
    ensures { IsTrue result → BoundsByRow net.now row.now shown.transition.index shown.number
        shown.date }
{
    net.rules();
    tight_walks_bound();
    is_tight(net, walk, row, shown)
}

// Appends the beginning of the line of a latest date.
fn push_beginning(
    text: &mut String,
    net: &Net,
    word: &str,
    shown: ShownLatest,
) -> Result<(), AllocError>
    requires { shown.transition.index < length net.now.transitions }
    ensures { IfOk result (λ _. string_bytes text.new ≡
        string_bytes text.old
        ++ latest_beginning net.now word.now shown.transition shown.number shown.date) }
{
    let name = net.transitions()[shown.transition.index()].name.as_str();
    let number = shown.number;
    let date = shown.date;
    text.push_str(word)?;
    write!(text, " {name} {number} {date} ")
}

// Whether the text begins so.
fn begins_with(text: &str, first: &str) -> bool
    ensures { IsTrue result ↔ BeginsWith text.now first.now }
{
    text.strip_prefix(first).is_some()
}

// Whether the line tells the date of the firing, behind this word.
fn tells_latest(
    alloc: Global,
    net: &Net,
    word: &str,
    line: &str,
    shown: ShownLatest,
) -> Result<bool, AllocError>
    ensures { IfOk result (λ yes. IsTrue yes → TellsLatest net.now line.now shown) }
{
    if !net.contains_transition(shown.transition) {
        return Ok(false);
    }
    let mut beginning = String::new(alloc);
    push_beginning(&mut beginning, net, word, shown)?;
    Ok(begins_with(line, beginning.as_str()))
}

// The firing and the date of a line. Nothing rests on it: what is read is checked.
fn latest_in<'l>(
    alloc: Global,
    net: &Net,
    line: &'l str,
) -> Result<Option<(&'l str, ShownLatest)>, AllocError> {
    let words: Vec<&'l str> = line.split_whitespace().collect(alloc)?;
    let [word, name, number, date, ..] = words.as_slice() else {
        return Ok(None);
    };
    let Some(transition) = net.find(name) else {
        return Ok(None);
    };
    let (Ok(number), Ok(date)) = (number.parse::<u64>(), date.parse::<u64>()) else {
        return Ok(None);
    };
    Ok(Some((
        *word,
        ShownLatest {
            transition,
            number,
            date,
        },
    )))
}

/// What a line of `teg jit` tells, where the text and a row of the due file show it: whatever the
/// inputs are and whatever else is due, no feasible dating that keeps the due date of the row has
/// the firing later than at the date of the line (chapter 5). The text is the whole answer, whose
/// lines lead from firing to firing to that of the row. `OutOfMemory` comes only where no memory is
/// found.
pub fn shown_latest(
    alloc: Global,
    net: &Net,
    row: &DueRow,
    line: &str,
    text: &str,
) -> Result<Option<ShownLatest>, OutOfMemory>
    ensures { IfOk result (λ shown. IfSome shown (IsShownLatest net.now row.now line.now)) }
{
    let Some((word, shown)) = latest_in(alloc, net, line)? else {
        return Ok(None);
    };
    let Some(walk) = walk_in(alloc, net, text, shown.transition, shown.number)? else {
        return Ok(None);
    };
    if !bounds(net, &walk, row, shown) {
        return Ok(None);
    }
    if !tells_latest(alloc, net, word, line, shown)? {
        return Ok(None);
    }
    Ok(Some(shown))
}
