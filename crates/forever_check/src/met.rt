//! The witness of `teg forever`: releases without end, which meet what is due.
ghost use Rattle.std.specs.Prelude.{◌≡◌, ◌≤◌, ◌+◌, ◌*◌, IfOk, IfSome, IsTrue, length};
ghost use Rattle.teg_net.specs.Circuits.{IsLive};
ghost use Rattle.teg_net.specs.Limits.{most_rows};
ghost use Rattle.teg_model.specs.Datings.{listed_releases};
ghost use Rattle.settled_laws.specs.SettledForms.{IsSettledFormOf};
ghost use Rattle.due_laws.specs.MeetingDueDates.{InputsMeet};
ghost use Rattle.endless_due.specs.EndlessRows.{IsEndlessOf, due_on};
ghost use Rattle.forever_check.specs.ReleaseWalks.{IsMeetingNet};
ghost use Rattle.forever_check.specs.ShownReleases.{AreReleases, IsShownMet, released_lines};
ghost use Rattle.teg_text.specs.Lines.{written};

use crate::found_rows::{FoundForm, FoundRows};
use crate::stored::stored;
use crate::texts::releases_text;
use crate::told_lists::lists_in;
use crate::with_lists::{are_releases, net_with};
use dioid::Date;
use endless_due::{EndlessRow, is_endless_of};
use endless_laws::keeps_due_rows;
use settled_certificates::check_shortest;
use settled_forms::Settled;
use std::alloc::Global;
use teg_net::{InputList, Net, OutOfMemory};
use witness_check::is_seen_live;

// How many dates are found at most.
const MOST_DATES: usize = 4_000_000;

// The greatest number and the greatest period of a form that is found.
const MOST_NUMBER: u64 = 1_000_000;

// The rows that are looked at first.
const FIRST_ROWS: usize = 64;

// Whether the rows are enough for the form, and keep the limit of a form in memory.
fn has_room(net: &Net, dates: &[Date], form: &FoundForm) -> bool
    ensures few { IsTrue result → form.now.after + form.now.period ≤ most_rows }
    ensures room { IsTrue result → (form.now.after + form.now.period)
        * length net.now.transitions ≤ length dates.now }
    ensures steps { IsTrue result → length form.now.steps.items ≡ length net.now.transitions }
{
    let width = net.transitions().len();
    form.after <= MOST_NUMBER
        && form.period <= MOST_NUMBER
        && form.steps.len() == width
        && (form.after + form.period) as usize * width <= dates.len()
}

// The settled form of the net, where these rows show that it is.
fn form_by(
    alloc: Global,
    net: &Net,
    dates: &[Date],
    form: &FoundForm,
) -> Result<Option<Settled>, OutOfMemory>
    requires { IsLive net.now }
    ensures { IfOk result (λ some. IfSome some (IsSettledFormOf net.now)) }
{
    let (after, period) = (form.after, form.period);
    if !has_room(net, dates, form) {
        return Ok(None);
    }
    if !check_shortest(alloc, net, after, period, dates, &form.steps)? {
        return Ok(None);
    }
    let settled = stored(alloc, net, after, period, dates, &form.steps)?;
    Ok(Some(settled))
}

// The settled form of the net, where so many rows show it.
fn form_in(alloc: Global, net: &Net, rows: &FoundRows<'_>) -> Result<Option<Settled>, OutOfMemory>
    requires { IsLive net.now }
    ensures { IfOk result (λ some. IfSome some (IsSettledFormOf net.now)) }
{
    match rows.form(alloc)? {
        Some(form) => form_by(alloc, net, &rows.dates, &form),
        None => Ok(None),
    }
}

// The settled form of the net, where rows that are found show it.
pub(crate) fn found_form(alloc: Global, net: &Net) -> Result<Option<Settled>, OutOfMemory>
    requires { IsLive net.now }
    ensures { IfOk result (λ some. IfSome some (IsSettledFormOf net.now)) }
{
    let mut rows = FoundRows::new(alloc, net);
    let mut last = FIRST_ROWS;
    let most = MOST_DATES / net.transitions().len().max(1);
    for _ in 0..16 {
        if last > most {
            return Ok(None);
        }
        rows.go_to(last)?;
        if let Some(form) = form_in(alloc, net, &rows)? {
            return Ok(Some(form));
        }
        last = last.saturating_mul(2);
    }
    Ok(None)
}

// Whether the net, by its input lists, is seen to keep the due dates for every firing.
fn is_seen_kept(alloc: Global, net: &Net, rows: &[EndlessRow]) -> Result<bool, OutOfMemory>
    requires { IsEndlessOf net.now rows.now }
    ensures { IfOk result (λ yes. IsTrue yes
        → InputsMeet net.now (due_on rows.now) (listed_releases net.now)) }
{
    if !is_seen_live(alloc, net)? {
        return Ok(false);
    }
    match found_form(alloc, net)? {
        Some(form) => keeps_due_rows(alloc, net, &form, rows),
        None => Ok(false),
    }
}

// Whether the whole text tells these lists, and they are releases of the inputs of the net.
fn tells_lists(
    alloc: Global,
    net: &Net,
    lists: &[InputList],
    text: &str,
) -> Result<bool, OutOfMemory>
    ensures releases { IfOk result (λ yes. IsTrue yes → AreReleases net.now lists.now) }
    ensures told { IfOk result (λ yes. IsTrue yes
        → text.now ≡ written (released_lines net.now lists.now)) }
{
    if !lists
        .iter()
        .all(|list| net.contains_transition(list.transition))
    {
        return Ok(false);
    }
    if !are_releases(net, lists) {
        return Ok(false);
    }
    let lines = releases_text(alloc, net, lists)?;
    Ok(lines.as_str() == text)
}

// The net with the input lists that the whole text tells, where these are releases of the inputs of
// the net, which is live, and meet what is due.
pub(crate) fn meeting_net(
    alloc: Global,
    net: &Net,
    rows: &[EndlessRow],
    text: &str,
) -> Result<Option<Net>, OutOfMemory>
    ensures { IfOk result (λ some. IfSome some (IsMeetingNet net.now rows.now text.now)) }
{
    let Some(lists) = lists_in(alloc, net, text)? else {
        return Ok(None);
    };
    let Some(released) = net_with(alloc, net, lists)? else {
        return Ok(None);
    };
    if !is_endless_of(net, rows) || !is_endless_of(&released, rows) {
        return Ok(None);
    }
    if !is_seen_live(alloc, net)? {
        return Ok(None);
    }
    if !tells_lists(alloc, net, released.inputs(), text)? {
        return Ok(None);
    }
    if !is_seen_kept(alloc, &released, rows)? {
        return Ok(None);
    }
    released.rules();
    Ok(Some(released))
}

/// Whether the text of `teg forever` that tells releases without end is shown to tell some that meet
/// what is due (chapter 5): the net is seen to be live, the rows are due dates of it, the whole text
/// tells a list for each input, in order, that goes on for ever, or that the input never fires, and
/// in the least dating with these releases no firing, however late its number, comes after its due
/// date. That no releases could be later is told by [`shown_forever`](crate::shown_forever). No text is shown whose lists keep no rule
/// of an input list: of which an input repeats after more than 1,000 firings, or whose dates or step
/// exceed 10^12; or where 4,000,000 dates do not tell how the least dating goes on. It takes memory
/// for these dates, and time of their order times the number of places, and for each row that of
/// [`keeps_due_rows`]. `OutOfMemory` comes only where no memory is found, or as there.
pub fn shown_met(
    alloc: Global,
    net: &Net,
    rows: &[EndlessRow],
    text: &str,
) -> Result<bool, OutOfMemory>
    ensures { IfOk result (λ yes. IsTrue yes → IsShownMet net.now rows.now text.now) }
{
    match meeting_net(alloc, net, rows, text)? {
        Some(_) => Ok(true),
        None => Ok(false),
    }
}
