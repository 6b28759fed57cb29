//! What is false in a table of latest dates.
ghost use Rattle.std.specs.Prelude.{ℕ, ◌≡◌, ◌≤◌, ◌+◌, ◌-◌, ◌*◌, IfOk, IsSome};
ghost use Rattle.dating_check.specs.ShownTables.{IsShownTable};
ghost use Rattle.dating_check.specs.TableTexts.{TellsFault};

use crate::due_rows::is_due_list;
use crate::made_rows::latest_rows;
use crate::rows::greatest_number;
use crate::table_lines::table_lines;
use crate::wrong_line::{DateRows, first_other};
use latest_certificates::{check_plan, due_rows_are_listed};
use std::alloc::Global;
use teg_due::Due;
use teg_net::{Net, OutOfMemory, TransitionId};
use witness_check::is_seen_live;

/// What is false in a table of latest dates (chapter 5).
#[derive(Clone, Copy, Debug, PartialEq, Eq)]
pub enum TableFault {
    /// The number up to which it goes is not the greatest that is due.
    OtherNumbers,
    /// This line is the first that does not tell the latest date of its firing.
    Line {
        transition: TransitionId,
        /// The number of the firing, from 1.
        number: u32,
        /// The number of the line in the text, counted from 0.
        line: u64,
    },
    /// Each line tells it, and inputs at 0 do not meet what is due: there is no plan.
    Late,
}

// The number of the line of the firing, counted from 0, in a table up to a number.
fn line_of(transition: TransitionId, number: u32, numbers: u32) -> u64
    requires { 1 ≤ number }
    ensures { result ≡ 1 + (transition.index * numbers + (number - 1)) }
{
    1 + (u64::from(transition.index) * u64::from(numbers) + u64::from(number - 1))
}

/// What is false in the text of `teg jit` for these due dates, where it is a table: the net is live,
/// the whole text is that of a table of latest dates from number 1 up to a number below 2^32, with
/// whatever words behind the number of each line, and it is not right. `OtherNumbers`: that number is
/// not the greatest that is due. `Line`: it is, and of the lines in their order this one is the first
/// whose next word is not the latest date of its firing, in the user's unit, or `free` where it has
/// none (chapter 5). `Late`: all lines are right, and no inputs meet what is due, for those at 0 do
/// not. So [`shown_table`](crate::shown_table) shows nothing of it. Which step a line names is not
/// looked at.
///
/// There is none just where the rows are no due list of the net, where the net is not live, where
/// the text is no such table, or where all that is right. It takes memory for its lines and for the
/// dates, which are made anew, and 10,001 bytes for each transition, and time of the order of the
/// text, of order `n + p + r` a number for n transitions, p places and r due dates, and of order
/// `n p` for whether the net is live. `OutOfMemory` comes only where no memory is found.
pub fn table_fault(
    alloc: Global,
    net: &Net,
    due: &Due,
    text: &str,
) -> Result<Option<TableFault>, OutOfMemory>
    ensures fault { IfOk result (TellsFault net.now due.now.rows.items text.now) }
    ensures not_shown { IfOk result (λ fault. IsSome fault
        → (numbers : ℕ) → IsShownTable net.now due.now.rows.items text.now numbers → ⊥) }
{
    net.rules();
    due_rows_are_listed();
    if !is_due_list(alloc, net, due)? || !is_seen_live(alloc, net)? {
        return Ok(None);
    }
    let Some(table) = table_lines(alloc, net, text)? else {
        return Ok(None);
    };
    let numbers = table.numbers;
    if numbers != greatest_number(&due.rows) {
        return Ok(Some(TableFault::OtherNumbers));
    }
    let made = latest_rows(alloc, net, &due.rows, numbers)?;
    let (lines, dates) = (table.lines.as_slice(), made.as_slice());
    let rows = DateRows {
        numbers,
        width: net.transitions().len(),
        dates,
    };
    if let Some(first) = first_other(alloc, lines, rows)? {
        let line = line_of(first.0, first.1, numbers);
        return Ok(Some(TableFault::Line {
            transition: first.0,
            number: first.1,
            line,
        }));
    }
    if check_plan(alloc, net, due, numbers, dates)? {
        Ok(None)
    } else {
        Ok(Some(TableFault::Late))
    }
}
