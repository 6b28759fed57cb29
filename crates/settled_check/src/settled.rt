//! The witness of `teg dates`: the rows and steps of a settled form.
ghost use Rattle.std.specs.Prelude.{◌≡◌, ◌+◌, ◌*◌, ◌<◌, ◌≤◌, ◌++◌, ◌∷◌, [], IfOk, IfSome, codes, length, string_bytes};
ghost use Rattle.std.specs.Fmt.{signed_decimal};
ghost use Rattle.std.specs.List.{flat_map, range_with_len};
ghost use Rattle.dating_certificates.specs.CheckedRows.{date_in_rows};
ghost use Rattle.settled_certificates.specs.SettledRows.{form_by_rows};
ghost use Rattle.teg_text.specs.Lines.{further_then, line_then, written};
ghost use Rattle.teg_text.specs.ValueWords.{date_word};
ghost use Rattle.teg_text.specs.WordsOfNames.{name_of_transition};
ghost use Rattle.settled_check.specs.ShownForms.{IsShownSettled, form_line, lines_of_form};

use crate::settled_reading::settled_in;
use dioid::Date;
use settled_certificates::check_shortest;
use std::alloc::{AllocError, Global};
use teg_net::{Net, OutOfMemory};
use teg_text::{push_date, push_settled};
use witness_check::is_seen_live;

/// What the text of `teg dates` shows: past this number the dates of the net go on by steps in each
/// period; both are numbers of firings.
#[derive(Clone, Copy, Debug, PartialEq, Eq)]
pub struct ShownSettled {
    pub after: u64,
    pub period: u64,
}

// A number, a period, so many rows of dates, each of this width, and steps.
#[derive(Clone, Copy)]
struct FormRows<'t> {
    after: u64,
    period: u64,
    count: usize,
    width: usize,
    dates: &'t [Date],
    steps: &'t [i128],
}

// How many dates of each transition the form tells, where it has them and a step for each.
fn count_of(net: &Net, after: u64, period: u64, dates: &[Date], steps: &[i128]) -> Option<usize>
    ensures count { IfSome result (λ count. count ≡ after + period) }
    ensures rows { IfSome result (λ count. count * length net.now.transitions
        ≤ length dates.now) }
    ensures steps { IfSome result (λ _. length steps.now ≡ length net.now.transitions) }
{
    let width = net.transitions().len();
    let count = after.checked_add(period)? as usize;
    let cells = count.checked_mul(width)?;
    if cells <= dates.len() && steps.len() == width {
        Some(count)
    } else {
        None
    }
}

// Appends so many dates of the transition of this number, each behind a blank.
fn push_told(
    text: &mut String,
    dates: &[Date],
    width: usize,
    index: usize,
    count: usize,
) -> Result<(), AllocError>
    requires index { index < width }
    requires rows { count * width ≤ length dates.now }
    ensures { IfOk result (λ _. string_bytes text.new ≡ string_bytes text.old
        ++ flat_map (λ k. 32 ∷ date_word (date_in_rows width dates.now index k))
        (range_with_len 1 count)) }
{
    for before in 0..count {
        text.push(' ')?;
        push_date(text, dates[before * width + index])?;
    }
    Ok(())
}

// Begins the line of the transition of this number.
fn begin_form_line(text: &mut String, net: &Net, index: usize) -> Result<(), AllocError>
    requires { index < length net.now.transitions }
    ensures { IfOk result (λ _. string_bytes text.new ≡ string_bytes text.old
        ++ (codes "transition " ++ name_of_transition net.now (record { index = index }))) }
{
    let name = net.transitions()[index].name.as_str();
    write!(text, "transition {name}")
}

// Ends the line of a transition with its step.
fn end_form_line(text: &mut String, step: i128) -> Result<(), AllocError>
    ensures { IfOk result (λ _. string_bytes text.new ≡ string_bytes text.old
        ++ further_then (codes "step" ∷ signed_decimal step ∷ []) []) }
{
    write!(text, " step {step}\n")
}

// Appends the line of the transition of this number.
fn push_form_line(
    text: &mut String,
    net: &Net,
    form: FormRows<'_>,
    index: usize,
) -> Result<(), AllocError>
    requires index { index < length net.now.transitions }
    requires width { form.width ≡ length net.now.transitions }
    requires count { form.count ≡ form.after + form.period }
    requires rows { form.count * form.width ≤ length form.dates.now }
    requires steps { length form.steps.now ≡ form.width }
    ensures { IfOk result (λ _. string_bytes text.new ≡ string_bytes text.old
        ++ line_then (form_line net.now (form_by_rows form.entry.width form.entry.dates.now
        form.entry.after form.entry.period form.entry.steps.now) index) []) }
{
    begin_form_line(text, net, index)?;
    push_told(text, form.dates, form.width, index, form.count)?;
    end_form_line(text, form.steps[index])?;
    Ok(())
}

// The lines of the form.
fn lines_of(alloc: Global, net: &Net, form: FormRows<'_>) -> Result<String, AllocError>
    requires width { form.width ≡ length net.now.transitions }
    requires count { form.count ≡ form.after + form.period }
    requires rows { form.count * form.width ≤ length form.dates.now }
    requires steps { length form.steps.now ≡ form.width }
    ensures { IfOk result (λ text. string_bytes text ≡ written (lines_of_form net.now
        (form_by_rows form.entry.width form.entry.dates.now form.entry.after form.entry.period
        form.entry.steps.now))) }
{
    let mut text = String::new(alloc);
    push_settled(&mut text, form.after, form.period)?;
    for index in 0..net.transitions().len() {
        push_form_line(&mut text, net, form, index)?;
    }
    Ok(text)
}

/// The number and the period that the text of `teg dates` tells, where the net is seen to be live,
/// and the dates and steps show that they tell the least dating: the date of each transition at each
/// number is that of the form of the text, and no less number and no shorter period would do
/// (chapter 3). The whole text is looked at. It takes memory for the dates that are told, for those of another period and
/// of the tokens of a place, and for the text; and time of their order with the places of the net,
/// and for each number that divides the period that of one period. `OutOfMemory` comes only where
/// no memory is found.
pub fn shown_settled(
    alloc: Global,
    net: &Net,
    text: &str,
) -> Result<Option<ShownSettled>, OutOfMemory>
    ensures { IfOk result (λ shown. IfSome shown (IsShownSettled net.now text.now)) }
{
    if !is_seen_live(alloc, net)? {
        return Ok(None);
    }
    let Some(told) = settled_in(alloc, net, text)? else {
        return Ok(None);
    };
    let (after, period) = (told.after, told.period);
    let (dates, steps) = (told.dates.as_slice(), told.steps.as_slice());
    let Some(count) = count_of(net, after, period, dates, steps) else {
        return Ok(None);
    };
    if !check_shortest(alloc, net, after, period, dates, steps)? {
        return Ok(None);
    }
    let form = FormRows {
        after,
        period,
        count,
        width: net.transitions().len(),
        dates,
        steps,
    };
    let lines = lines_of(alloc, net, form)?;
    if lines.as_str() != text {
        return Ok(None);
    }
    Ok(Some(ShownSettled { after, period }))
}
