//! The witness of `teg list`: its dates.
ghost use Rattle.std.specs.Prelude.{◌≡◌, ◌+◌, ◌*◌, ◌<◌, ◌≤◌, ◌++◌, ◌∷◌, [], IfOk, length, string_bytes};
ghost use Rattle.dating_certificates.specs.CheckedRows.{date_in_rows};
ghost use Rattle.teg_text.specs.Lines.{line_then, written};
ghost use Rattle.answer_check.specs.ShownLists.{ShowsList, all_names_line, count_line, lines_of_dating, row_line};

use crate::list_reading::list_in;
use dating_certificates::check_rows;
use dioid::Date;
use std::alloc::{AllocError, Global};
use teg_model::least_datings_exist;
use teg_net::{Net, OutOfMemory};
use teg_text::push_date;
use witness_check::is_seen_live;

// Appends the line of a number, by how many are before it.
#[tactic(auto, using(teg_text::proofs::Joining::further_map))]
fn push_row(
    text: &mut String,
    dates: &[Date],
    width: usize,
    count: u32,
    before: u32,
) -> Result<(), AllocError>
    requires number { before < count }
    requires rows { count * width ≤ length dates.now }
    ensures { IfOk result (λ _. string_bytes text.new ≡ string_bytes text.old
        ++ line_then (row_line width (date_in_rows width dates.now) (before + 1)) []) }
{
    let number = before as u64 + 1;
    write!(text, "{number}")?;
    for index in 0..width {
        text.push(' ')?;
        push_date(text, dates[before as usize * width + index])?;
    }
    text.push('\n')?;
    Ok(())
}

// The lines before the dates.
#[tactic(auto, using(teg_text::proofs::Joining::further_map))]
pub(crate) fn head(alloc: Global, net: &Net, count: u32) -> Result<String, AllocError>
    ensures { IfOk result (λ text. string_bytes text ≡ line_then (count_line count)
        (line_then (all_names_line net.now) [])) }
{
    let mut text = format!(in alloc; "dates of {count} firings\ntransition")?;
    for transition in net.transitions() {
        text.push(' ')?;
        text.push_str(transition.name.as_str())?;
    }
    text.push('\n')?;
    Ok(text)
}

// The lines of the dates, row after row.
pub(crate) fn lines_of(
    alloc: Global,
    net: &Net,
    count: u32,
    dates: &[Date],
) -> Result<String, AllocError>
    requires { length dates.now ≡ count * length net.now.transitions }
    ensures { IfOk result (λ text. string_bytes text ≡ written (lines_of_dating net.now
        (date_in_rows (length net.now.transitions) dates.now) count)) }
{
    let width = net.transitions().len();
    let mut text = head(alloc, net, count)?;
    for before in 0..count {
        push_row(&mut text, dates, width, count, before)?;
    }
    Ok(text)
}

/// How many firings the text of `teg list` tells, where it is shown to tell their dates: the net is
/// live, and the whole text is that of the dates, in the user's unit, which its least dating gives
/// to the firings of each transition from number 1 up to that number (chapter 2).
///
/// There is none just where no number up to 2^32 - 1 is told so: which row of a list is wrong,
/// [`refutes_list`](crate::refutes_list) says. Each date that is told is looked at with what its
/// firing waits for. It takes memory for its lines and its dates, and time of order
/// `n + p` a row for n transitions and p places, and of order `n p` for whether the net is live.
/// `OutOfMemory` comes only where no memory is found.
pub fn shown_list(alloc: Global, net: &Net, text: &str) -> Result<Option<u32>, OutOfMemory>
    ensures { IfOk result (ShowsList net.now text.now) }
{
    net.rules();
    least_datings_exist();
    if !is_seen_live(alloc, net)? {
        return Ok(None);
    }
    let Some(told) = list_in(alloc, net, text)? else {
        return Ok(None);
    };
    if !check_rows(alloc, net, told.dates.as_slice())? {
        return Ok(None);
    }
    Ok(Some(told.count))
}
