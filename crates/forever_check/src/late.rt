//! The witness of `teg forever` where no inputs meet what is due: the first firing that comes late.
ghost use Rattle.std.specs.Prelude.{◌≡◌, ◌<◌, ◌∷◌, [], IfOk, IfSome, IsTrue, Some, length, slice_get, string_bytes, take};
ghost use Rattle.teg_net.specs.Circuits.{IsLive};
ghost use Rattle.teg_text.specs.Lines.{written};
ghost use Rattle.late_lines.specs.LateLines.{late_line};
ghost use Rattle.endless_due.specs.EndlessRows.{IsEndlessOf, IsEndlessRow};
ghost use Rattle.forever_check.specs.ShownLate.{IsLateAfter, IsShownEndlessLate};
ghost use Rattle.forever_check.specs.ShownReleases.{with_lists};
ghost use Rattle.settled_laws.specs.SettledForms.{IsSettledFormOf};

use crate::met::found_form;
use crate::with_lists::net_with;
use endless_due::{EndlessRow, is_endless_of};
use endless_laws::{LateDates, keeps_due_rows, least_late};
use forever_laws::zero_inputs_are_no_lists;
use settled_forms::Settled;
use std::alloc::{AllocError, Global};
use teg_net::{GREATEST_FIRING_NUMBER, Net, OutOfMemory, TransitionId};
use witness_check::is_seen_live;

// The firing that the words of the text name, if they name one. Nothing rests on it: the text is
// written anew.
fn named_firing(
    alloc: Global,
    net: &Net,
    text: &str,
) -> Result<Option<(TransitionId, u64)>, AllocError> {
    let words: Vec<&str> = text.split_whitespace().collect(alloc)?;
    let ["late", name, number, ..] = words.as_slice() else {
        return Ok(None);
    };
    let (Some(transition), Ok(number)) = (net.find(name), number.parse::<u64>()) else {
        return Ok(None);
    };
    Ok(Some((transition, number)))
}

// The place of the row of this transition; past the last where there is none. Nothing rests on it.
fn place_of(rows: &[EndlessRow], transition: TransitionId) -> usize {
    match rows
        .iter()
        .position(|row| row.transition.index == transition.index)
    {
        Some(place) => place,
        None => rows.len(),
    }
}

// The row at this place.
fn row_at(rows: &[EndlessRow], place: usize) -> &EndlessRow
    requires { place < length rows.now }
    ensures { slice_get rows.now place ≡ Some result.now }
{
    &rows[place]
}

// The rows before this place.
fn rows_before(rows: &[EndlessRow], place: usize) -> &[EndlessRow]
    requires { place < length rows.now }
    ensures { result.now ≡ take place rows.now }
{
    &rows[..place]
}

// The dates of a firing of the row, where it is the first of it that comes late and none of the rows
// before has one that does, by the settled form of the net without its input lists.
fn late_by_form(
    alloc: Global,
    net: &Net,
    plain: &Net,
    form: &Settled,
    before: &[EndlessRow],
    row: &EndlessRow,
    number: u64,
) -> Result<Option<LateDates>, OutOfMemory>
    requires live { IsLive net.now }
    requires plain { plain.now ≡ with_lists net.now [] }
    requires form { IsSettledFormOf plain.now form.now }
    requires before { IsEndlessOf net.now before.now }
    requires row { IsEndlessRow net.now row.now }
    ensures { IfOk result (λ some. IfSome some (λ l. IsLateAfter net.now before.now row.now number
        l.due l.least)) }
{
    zero_inputs_are_no_lists();
    net.rules();
    if number == 0 || number > GREATEST_FIRING_NUMBER {
        return Ok(None);
    }
    let Some(late) = least_late(alloc, plain, form, row, number)? else {
        return Ok(None);
    };
    if !keeps_due_rows(alloc, plain, form, before)? {
        return Ok(None);
    }
    Ok(Some(late))
}

// The same, by a form that is found anew.
fn late_dates(
    alloc: Global,
    net: &Net,
    before: &[EndlessRow],
    row: &EndlessRow,
    number: u64,
) -> Result<Option<LateDates>, OutOfMemory>
    requires live { IsLive net.now }
    requires before { IsEndlessOf net.now before.now }
    requires row { IsEndlessRow net.now row.now }
    ensures { IfOk result (λ some. IfSome some (λ l. IsLateAfter net.now before.now row.now number
        l.due l.least)) }
{
    let Some(plain) = net_with(alloc, net, Vec::new(alloc))? else {
        return Ok(None);
    };
    if !is_seen_live(alloc, &plain)? {
        return Ok(None);
    }
    let Some(form) = found_form(alloc, &plain)? else {
        return Ok(None);
    };
    late_by_form(alloc, net, &plain, &form, before, row, number)
}

// The text of a firing of this transition that comes late.
fn late_text(
    alloc: Global,
    net: &Net,
    transition: TransitionId,
    number: u64,
    late: LateDates,
) -> Result<String, AllocError>
    requires { transition.index < length net.now.transitions }
    ensures { IfOk result (λ text. string_bytes text ≡ written (late_line net.now transition number
        late.due late.least ∷ [])) }
{
    let name = net.transitions()[transition.index()].name.as_str();
    let LateDates { due, least } = late;
    format!(in alloc; "late {name} {number} due {due} least {least}\n")
}

// Whether the whole text tells that firing.
fn tells_late(
    alloc: Global,
    net: &Net,
    transition: TransitionId,
    number: u64,
    late: LateDates,
    text: &str,
) -> Result<bool, AllocError>
    requires { transition.index < length net.now.transitions }
    ensures { IfOk result (λ yes. IsTrue yes → text.now ≡ written (late_line net.now transition
        number late.due late.least ∷ [])) }
{
    let told = late_text(alloc, net, transition, number, late)?;
    Ok(told.as_str() == text)
}

/// Whether the text of `teg forever` that tells a firing which comes late is shown to tell the one
/// that it asks for (chapter 5): the net is seen to be live, the rows are due dates of it, and with
/// all inputs at 0 no firing of the rows before comes after its due date, however late its number,
/// nor a firing of this row before the one that is told, which does; the text is just its line. So no
/// inputs meet what is due.
///
/// Rows of the least dating with all inputs at 0 are found anew, and looked at as in
/// [`shown_met`](crate::shown_met). By [`least_late`] of `endless_laws` the firing is the first of its
/// row that comes late, and by [`keeps_due_rows`] none of the rows before does. No text is shown of a
/// number past 10^18, or where 4,000,000 dates do not tell how the least dating goes on. It takes
/// memory for these dates, and time of their order times the number of places, and for each row that
/// of these calls. `OutOfMemory` comes only where no memory is found, or as in `keeps_due_rows`.
pub fn shown_endless_late(
    alloc: Global,
    net: &Net,
    rows: &[EndlessRow],
    text: &str,
) -> Result<bool, OutOfMemory>
    ensures { IfOk result (λ yes. IsTrue yes → IsShownEndlessLate net.now rows.now text.now) }
{
    if !is_endless_of(net, rows) || !is_seen_live(alloc, net)? {
        return Ok(false);
    }
    let Some((transition, number)) = named_firing(alloc, net, text)? else {
        return Ok(false);
    };
    let place = place_of(rows, transition);
    if rows.len() <= place {
        return Ok(false);
    }
    let before = rows_before(rows, place);
    let row = row_at(rows, place);
    if !is_endless_of(net, before) {
        return Ok(false);
    }
    let Some(late) = late_dates(alloc, net, before, row, number)? else {
        return Ok(false);
    };
    let told = tells_late(alloc, net, row.transition, number, late, text)?;
    Ok(told)
}
