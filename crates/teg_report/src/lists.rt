//! The text of a list of dates: two lines before the dates, and one line for each number.
ghost use Rattle.std.specs.Prelude.{ℕ, ◌≡◌, ◌++◌, ◌<◌, ◌≤◌, [], All, IfOk, length, string_bytes};
ghost use Rattle.teg_net.specs.Limits.{most_transitions};
ghost use Rattle.date_rows.specs.DateTables.{IsDateTable, date_at};
ghost use Rattle.teg_report.specs.DateLists.{listed_count_line, list_lines, names_line, number_line};
ghost use Rattle.teg_text.specs.Lines.{line_then, written};
ghost use Rattle.teg_text.specs.ValueWords.{IsDate};

use date_rows::Table;
use std::alloc::{AllocError, Global};
use teg_net::{Net, OutOfMemory, TransitionId};
use teg_text::push_date;

// Appends the line of a number.
#[tactic(auto, using(teg_text::proofs::Joining::further_map))]
fn push_line(text: &mut String, table: &Table, width: usize, number: u64) -> Result<(), AllocError>
    requires width { width ≡ table.now.width }
    requires few { width ≤ most_transitions }
    requires number { 1 ≤ number }
    requires last { number ≤ table.now.count }
    ensures text { IfOk result (λ _. string_bytes text.new
        ≡ string_bytes text.old ++ line_then (number_line width (date_at table.now) number) []) }
    ensures kept { IfOk result (λ _. (t : ℕ) → t < width → IsDate (date_at table.now t number)) }
{
    write!(text, "{number}")?;
    for index in 0..width {
        let transition = TransitionId {
            index: index as u32,
        };
        text.push(' ')?;
        push_date(text, table.date(transition, number))?;
    }
    text.push('\n')?;
    Ok(())
}

// The lines before the dates.
#[tactic(auto, using(teg_text::proofs::Joining::further_map))]
pub(crate) fn head(alloc: Global, net: &Net, count: u32) -> Result<String, AllocError>
    ensures { IfOk result (λ text. string_bytes text ≡ line_then (listed_count_line count)
        (line_then (names_line net.now) [])) }
{
    let mut text = format!(in alloc; "dates of {count} firings\ntransition")?;
    for transition in net.transitions() {
        text.push(' ')?;
        text.push_str(transition.name.as_str())?;
    }
    text.push('\n')?;
    Ok(text)
}

// The dates of the table, one line for each of its numbers.
#[tactic(auto, using(teg_text::proofs::Joining::written_map))]
pub(crate) fn list(alloc: Global, net: &Net, table: &Table) -> Result<Vec<u8>, OutOfMemory>
    requires { table.now.width ≡ length net.now.transitions }
    ensures text { IfOk result (λ text. text.items ≡ written
        (list_lines net.now (date_at table.now) table.now.count)) }
    ensures limits { IfOk result (λ _. IsDateTable table.now) }
    ensures kept { IfOk result (λ _. All IsDate table.now.dates) }
{
    let width = net.transitions().len();
    let count = table.count();
    let mut text = head(alloc, net, count)?;
    for number in 0..count {
        push_line(&mut text, table, width, number as u64 + 1)?;
    }
    Ok(text.into_bytes())
}
