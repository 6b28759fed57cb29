//! The times from the inputs of a live net to its outputs.
ghost use Rattle.std.specs.Prelude.{◌≡◌, ◌≤◌, ◌<◌, ◌++◌, ◌∷◌, [], Some, All, IfErr, IfOk, IfSome, OnOk, length, map};
ghost use Rattle.teg_lags.specs.Lags.{AreLeaving};
ghost use Rattle.walks_by_ends.specs.EndForms.{AreEndsOf};
ghost use Rattle.teg_transfer.specs.MovedTimes.{AreMovedFrom, AreMovedFromOne, line_moved, times_moved};
ghost use Rattle.teg_transfer.specs.TimesFromInputs.{AreTimesFrom, IsTimesFrom, TimesSettlePast, has_transition_role, those_of_role, times_in};
ghost use Rattle.teg_net.specs.declared.entries.Role.TheVariants.{Output};
ghost use Rattle.teg_net.specs.Nets.{IsInput};
ghost use Rattle.teg_report.specs.dioid.Dates.{move};
ghost use Rattle.teg_report.specs.AnswerMeanings.{times_from, times_to};
ghost use Rattle.teg_settle.specs.LimitRefusals.{IsRightSettleRefusal, greatest_limit};

use dioid::Date;
use std::alloc::{AllocError, Global};
use teg_check::LiveNet;
use teg_lags::lag_between;
use teg_net::{Net, OutOfMemory, PlaceEnd, PlacesOf, Role, TransitionId};
use teg_report::{TransferFrom, TransferLine};
use teg_settle::{SettleRefusal, walk_times_settle};
use walks_by_ends::{Ends, InputTimes, walk_times_of};

// Puts something at the end of a list.
pub(crate) fn keep<T: Drop>(list: &mut Vec<T>, item: T) -> Result<(), AllocError>
    ensures { OnOk result (list.new.items ≡ list.old.items ++ item ∷ []) }
{
    list.push(item)?;
    Ok(())
}

// Whether the transition has this role.
fn has_role(net: &Net, transition: TransitionId, role: Role) -> bool
    requires { transition.index < length net.now.transitions }
    ensures { result ≡ has_transition_role net.now role transition }
{
    net.transitions()[transition.index as usize].role == role
}

// The transitions of a role, in order.
pub(crate) fn those_of_role(
    alloc: Global,
    net: &Net,
    role: Role,
) -> Result<Vec<TransitionId>, OutOfMemory>
    ensures { IfOk result (λ those. those.items ≡ those_of_role net.now role) }
{
    let mut those = Vec::new(alloc);
    for index in 0..net.transitions().len() as u32 {
        let transition = TransitionId { index };
        if has_role(net, transition, role) {
            keep(&mut those, transition)?;
        }
    }
    Ok(those)
}

// Of a settled form what goes to one transition.
fn times_in(
    alloc: Global,
    settled: &InputTimes<'_>,
    to: TransitionId,
) -> Result<TransferLine, OutOfMemory>
    requires { to.index < length settled.now.rows }
    ensures { IfOk result (λ line. times_to line ≡ times_in settled.now to) }
{
    let dates = settled.row(alloc, to)?;
    let step = settled.step(to);
    Ok(TransferLine { to, dates, step })
}

// Of a settled form what goes to each of these transitions.
fn times_to_all(
    alloc: Global,
    settled: &InputTimes<'_>,
    those: &[TransitionId],
) -> Result<Vec<TransferLine>, OutOfMemory>
    requires { All (λ t. t.index < length settled.now.rows) those.now }
    ensures { IfOk result (λ lines. map times_to lines.items
        ≡ map (times_in settled.now) those.now) }
{
    let mut lines = Vec::new(alloc);
    for to in those {
        keep(&mut lines, times_in(alloc, settled, *to)?)?;
    }
    Ok(lines)
}

// The times from one input.
fn times_from(
    alloc: Global,
    net: &LiveNet,
    asked: &Asked,
    ends: &Ends,
    input: TransitionId,
) -> Result<TransferFrom, SettleRefusal>
    requires input { IsInput net.now input.index }
    requires outputs { asked.now.outputs.items ≡ those_of_role net.now Output }
    requires leaving { AreLeaving net.now asked.now.leaving }
    requires limit { asked.now.limit ≤ greatest_limit }
    requires ends { AreEndsOf net.now ends.now }
    ensures from { IfOk result (λ from. from.from ≡ input) }
    ensures times { IfOk result (λ from. IsTimesFrom net.now asked.now.limit (times_from from)) }
    ensures too_long { IfErr result (IsRightSettleRefusal (TimesSettlePast net.now asked.now.limit)
        asked.now.limit) }
{
    let settled = walk_times_of(
        alloc,
        net.net(),
        net.live(),
        &asked.leaving,
        ends,
        input,
        asked.limit,
    )?;
    let lines = times_to_all(alloc, &settled, asked.outputs.as_slice())?;
    Ok(TransferFrom {
        from: input,
        after: settled.after(),
        period: settled.period(),
        lines,
    })
}

// The date so much later, if it can be held.
fn moved_date(date: Date, lag: i128) -> Option<Date>
    ensures { IfSome result (λ moved. moved ≡ move lag date) }
{
    match date {
        Date::At(at) => match at.checked_add(lag) {
            Some(moved) => Some(Date::At(moved)),
            None => None,
        },
        other => Some(other),
    }
}

// All dates so much later, if they can be held.
fn moved_dates(alloc: Global, dates: &[Date], lag: i128) -> Result<Option<Vec<Date>>, OutOfMemory>
    ensures { IfOk result (λ moved. IfSome moved (λ all. all.items ≡ map (move lag) dates.now)) }
{
    let mut all = Vec::new(alloc);
    for date in dates {
        match moved_date(*date, lag) {
            Some(moved) => keep(&mut all, moved)?,
            None => return Ok(None),
        }
    }
    Ok(Some(all))
}

// The times to an output, all so much longer, if they can be held.
fn moved_line(
    alloc: Global,
    line: &TransferLine,
    lag: i128,
) -> Result<Option<TransferLine>, OutOfMemory>
    ensures { IfOk result (λ moved. IfSome moved (λ later. times_to later
        ≡ line_moved lag (times_to line.now))) }
{
    match moved_dates(alloc, line.dates.as_slice(), lag)? {
        Some(dates) => Ok(Some(TransferLine {
            to: line.to,
            dates,
            step: line.step,
        })),
        None => Ok(None),
    }
}

// The same of each output.
fn moved_lines(
    alloc: Global,
    lines: &[TransferLine],
    lag: i128,
) -> Result<Option<Vec<TransferLine>>, OutOfMemory>
    ensures { IfOk result (λ moved. IfSome moved (λ all. map times_to all.items
        ≡ map (λ line. line_moved lag (times_to line)) lines.now)) }
{
    let mut all = Vec::new(alloc);
    for line in lines {
        match moved_line(alloc, line, lag)? {
            Some(moved) => keep(&mut all, moved)?,
            None => return Ok(None),
        }
    }
    Ok(Some(all))
}

// These times, all so much longer, as those from this input, if they can be held.
fn moved_times(
    alloc: Global,
    input: TransitionId,
    times: &TransferFrom,
    lag: i128,
) -> Result<Option<TransferFrom>, OutOfMemory>
    ensures { IfOk result (λ moved. IfSome moved (λ from. times_from from
        ≡ times_moved lag input (times_from times.now))) }
{
    match moved_lines(alloc, times.lines.as_slice(), lag)? {
        Some(lines) => Ok(Some(TransferFrom {
            from: input,
            after: times.after,
            period: times.period,
            lines,
        })),
        None => Ok(None),
    }
}

// The times from this input by those from one before it, if all is held so much longer from it.
fn times_after(
    alloc: Global,
    net: &Net,
    leaving: &PlacesOf,
    input: TransitionId,
    before: &TransferFrom,
) -> Result<Option<TransferFrom>, OutOfMemory>
    requires leaving { AreLeaving net.now leaving.now }
    requires input { input.index < length net.now.transitions }
    requires before { before.now.from.index < length net.now.transitions }
    ensures { IfOk result (λ moved. IfSome moved (λ from. AreMovedFrom net.now input
        (times_from before.now)
        (times_from from))) }
{
    match lag_between(net, leaving, before.from, input) {
        Some(lag) => moved_times(alloc, input, before, lag),
        None => Ok(None),
    }
}

// The times from this input by those from some input before it, if all is held so much longer from
// it than from that one.
fn times_by_another(
    alloc: Global,
    net: &Net,
    leaving: &PlacesOf,
    input: TransitionId,
    times: &[TransferFrom],
) -> Result<Option<TransferFrom>, OutOfMemory>
    requires leaving { AreLeaving net.now leaving.now }
    requires input { input.index < length net.now.transitions }
    requires times { All (λ from. from.from.index < length net.now.transitions) times.now }
    ensures { IfOk result (λ moved. IfSome moved (λ from. AreMovedFromOne net.now input
        times.now
        (times_from from))) }
{
    for before in times {
        match times_after(alloc, net, leaving, input, before)? {
            Some(from) => return Ok(Some(from)),
            None => {}
        }
    }
    Ok(None)
}

// What is asked of each input: the transitions where its walks end, the places where they begin,
// and how long a form is taken.
#[derive(Drop)]
pub(crate) struct Asked {
    pub(crate) outputs: Vec<TransitionId>,
    pub(crate) leaving: PlacesOf,
    pub(crate) limit: u32,
}

// The times from the next input, and whether they are its own: else they are those from one before
// it, all so much longer.
pub(crate) fn next_times(
    alloc: Global,
    net: &LiveNet,
    asked: &Asked,
    ends: &mut Ends,
    input: TransitionId,
    times: &[TransferFrom],
) -> Result<(TransferFrom, bool), SettleRefusal>
    requires ends { AreEndsOf net.now ends.old }
    requires input { IsInput net.now input.index }
    requires outputs { asked.now.outputs.items ≡ those_of_role net.now Output }
    requires leaving { AreLeaving net.now asked.now.leaving }
    requires limit { asked.now.limit ≤ greatest_limit }
    requires inputs { All (λ from. IsInput net.now from.from.index) times.now }
    requires times { All (λ from. IsTimesFrom net.now asked.now.limit (times_from from)) times.now }
    ensures ends { OnOk result (AreEndsOf net.now ends.new) }
    ensures from { IfOk result (λ next. next.0.from ≡ input) }
    ensures times { IfOk result (λ next. IsTimesFrom net.now asked.now.limit (times_from next.0)) }
    ensures too_long { IfErr result (IsRightSettleRefusal (TimesSettlePast net.now asked.now.limit)
        asked.now.limit) }
{
    walk_times_settle();
    let held = net.net();
    // The net keeps its rules.
    held.rules();
    match times_by_another(alloc, held, &asked.leaving, input, times)? {
        Some(from) => Ok((from, false)),
        None => {
            ends.settle_input(alloc, held, net.live(), &asked.leaving, input)?;
            let from = times_from(alloc, net, asked, ends, input)?;
            Ok((from, true))
        }
    }
}

/// The greatest times of walks from the first firing of each input of a live net to the firings of
/// each output, in the user's unit, by the numbers of the inputs, each as the shortest settled form
/// over all transitions (chapter 5). `TooLong` comes exactly where such a form is longer than the
/// limit, `OutOfMemory` only where no memory is found.
///
/// The rows that show one settled form at a time are held, and those from ends that inputs share. It
/// takes the time of the search for a form for each input but those from which all places are held so
/// much longer than from one before, to the same transitions and with the same tokens: there each date
/// is one of that input, moved; and those whose times the ends of their places tell: there it takes
/// time of the order of the net for each number and place of the input.
pub fn transfer_times(
    alloc: Global,
    net: &LiveNet,
    limit: u32,
) -> Result<Vec<TransferFrom>, SettleRefusal>
    requires { limit ≤ greatest_limit }
    ensures times { IfOk result (λ times. AreTimesFrom net.now limit (map times_from times.items)) }
    ensures too_long { IfErr result (IsRightSettleRefusal (TimesSettlePast net.now limit) limit) }
{
    let inputs = those_of_role(alloc, net.net(), Role::Input)?;
    let outputs = those_of_role(alloc, net.net(), Role::Output)?;
    let leaving = PlacesOf::new(alloc, net.net(), PlaceEnd::From)?;
    let asked = Asked {
        outputs,
        leaving,
        limit,
    };
    let mut ends = Ends::new(alloc, net.net())?;
    let mut times = Vec::new(alloc);
    for input in &inputs {
        let next = next_times(alloc, net, &asked, &mut ends, *input, times.as_slice())?;
        keep(&mut times, next.0)?;
    }
    Ok(times)
}
