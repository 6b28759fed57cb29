//! The witness of `teg jit` where no inputs meet the due dates: a walk that comes late.
ghost use Rattle.std.specs.Prelude.{◌≡◌, ◌<◌, IfOk, IfSome, IsTrue, length};
ghost use Rattle.due_laws.specs.LatestDates.{IsLateWalk};
ghost use Rattle.teg_text.specs.Lines.{written};
ghost use Rattle.late_lines.specs.LateLines.{IsLateIn, late_by_walk, late_walk_lines};
ghost use Rattle.dating_check.specs.ShownWalks.{ComesNoEarlier, IsShownLate, MeetsNoInputs, TellsLate};

use crate::latest::ends_at;
use crate::walk_reading::path_in;
use late_lines::{LateFiring, late_text};
use latest_laws::late_walks_refuse;
use std::alloc::{AllocError, Global};
use teg_net::{Net, OutOfMemory, Walk, walk_time};

// Whether the walk comes to the firing at the date that is told, after it is due, from the start
// that is told.
fn is_late(net: &Net, walk: &Walk, late: LateFiring) -> bool
    ensures walk { IsTrue result → IsLateWalk net.now late.transition.index late.number late.start
        late.least walk.now }
    ensures late { IsTrue result → late.due < late.least }
{
    if !ends_at(net, walk, late.transition, u64::from(late.number)) {
        return false;
    }
    let start = net.start_date(walk.start, walk.number);
    let time = walk_time(net, walk);
    start == late.start
        && u128::from(late.due) < late.least
        && time <= late.least
        && late.least - time == u128::from(start)
}

// Whether the walk shows that the firing comes no earlier than told, so that no inputs meet what is
// due.
fn refuses(net: &Net, walk: &Walk, late: LateFiring) -> bool
    ensures walk { IsTrue result → IsLateWalk net.now late.transition.index late.number late.start
        late.least walk.now }
    ensures no_earlier { IsTrue result → ComesNoEarlier net.now late.transition.index late.number
        late.least }
    ensures late { IsTrue result → late.due < late.least }
    ensures refused { IsTrue result → MeetsNoInputs net.now late.transition.index late.number
        late.due }
{
    net.rules();
    late_walks_refuse();
    is_late(net, walk, late)
}

// Whether the whole text is that of the firing and the walk.
fn is_text_of(
    alloc: Global,
    net: &Net,
    text: &str,
    walk: &Walk,
    late: LateFiring,
) -> Result<bool, OutOfMemory>
    requires { IsLateIn net.now (late_by_walk late walk.now) }
    ensures { IfOk result (λ yes. IsTrue yes
        → text.now ≡ written (late_walk_lines net.now (late_by_walk late walk.now))) }
{
    let lines = late_text(alloc, net, late, walk)?;
    Ok(text.as_bytes() == lines.as_slice())
}

// Whether the whole text tells the firing with this walk.
fn tells_late(
    alloc: Global,
    net: &Net,
    text: &str,
    walk: &Walk,
    late: LateFiring,
) -> Result<bool, OutOfMemory>
    requires transition { late.transition.index < length net.now.transitions }
    requires walk { IsLateWalk net.now late.transition.index late.number late.start late.least
        walk.now }
    ensures { IfOk result (λ yes. IsTrue yes → TellsLate net.now text.now late) }
{
    let is_told = is_text_of(alloc, net, text, walk, late)?;
    Ok(is_told)
}

// The start that a line tells, 0 where it tells none.
fn start_in(alloc: Global, line: &str) -> Result<Option<u64>, AllocError> {
    let words: Vec<&str> = line.split_whitespace().collect(alloc)?;
    match words.as_slice() {
        ["from", "date", start] => Ok(start.parse::<u64>().ok()),
        _ => Ok(Some(0)),
    }
}

// The firing of a line, with this start. Nothing rests on it: what is read is checked.
fn late_in(
    alloc: Global,
    net: &Net,
    line: &str,
    start: u64,
) -> Result<Option<LateFiring>, AllocError> {
    let words: Vec<&str> = line.split_whitespace().collect(alloc)?;
    let ["late", name, number, "due", due, "least", least] = words.as_slice() else {
        return Ok(None);
    };
    let Some(transition) = net.find(name) else {
        return Ok(None);
    };
    let (Ok(number), Ok(due), Ok(least)) = (
        number.parse::<u32>(),
        due.parse::<u64>(),
        least.parse::<u128>(),
    ) else {
        return Ok(None);
    };
    Ok(Some(LateFiring {
        transition,
        number,
        due,
        least,
        start,
    }))
}

// The firing that the first two lines of the text tell.
fn late_told(alloc: Global, net: &Net, text: &str) -> Result<Option<LateFiring>, AllocError> {
    let mut lines = text.lines();
    let first = lines.next().unwrap_or("");
    let Some(start) = start_in(alloc, lines.next().unwrap_or(""))? else {
        return Ok(None);
    };
    late_in(alloc, net, first, start)
}

// The walk of the last line of the text.
fn walk_told(alloc: Global, net: &Net, text: &str) -> Result<Option<Walk>, AllocError> {
    match text.lines().last() {
        Some(line) => path_in(alloc, net, line),
        None => Ok(None),
    }
}

/// What the text of `teg jit` tells of due dates that cannot be met, where its walk shows it: the
/// firing comes no earlier than at the date that is told as least, whatever the inputs are, and
/// where it is due by its date, no inputs meet what is due (chapter 5). The whole text is looked at.
/// That it can come as early as that, and that it is due, is not shown: [`crate::shown_first_late`]
/// does so. `OutOfMemory` comes only where no memory is found.
pub fn shown_late(alloc: Global, net: &Net, text: &str) -> Result<Option<LateFiring>, OutOfMemory>
    ensures { IfOk result (λ shown. IfSome shown (IsShownLate net.now text.now)) }
{
    let Some(late) = late_told(alloc, net, text)? else {
        return Ok(None);
    };
    let Some(walk) = walk_told(alloc, net, text)? else {
        return Ok(None);
    };
    if !net.contains_transition(late.transition) || !refuses(net, &walk, late) {
        return Ok(None);
    }
    if !tells_late(alloc, net, text, &walk, late)? {
        return Ok(None);
    }
    Ok(Some(late))
}
