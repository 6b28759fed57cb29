//! The witness of all lines of `teg jit`: the table of latest dates itself.
ghost use Rattle.std.specs.Prelude.{◌≡◌, ◌+◌, ◌*◌, ◌<◌, ◌≤◌, ◌++◌, [], All, IfOk, IfSome, IsTrue, length, string_bytes};
ghost use Rattle.teg_text.specs.Lines.{further_then, line_then, written};
ghost use Rattle.dating_check.specs.ShownTables.{IsShownTable, IsWayIn, firing_line, firing_lines, role_told, table_told_lines, way_words};

use crate::due_rows::is_due_list;
use crate::rows::greatest_number;
use crate::table_reading::table_in;
use crate::ways::are_attained;
use dioid::Date;
use latest_certificates::check_plan;
use std::alloc::{AllocError, Global};
use teg_due::{Due, DueRow};
use teg_net::{Net, OutOfMemory, Role, Step};
use witness_check::is_seen_live;

// How lines of a transition begin.
pub(crate) fn role_told(role: Role) -> &'static str
    ensures { result.now ≡ role_told role }
{
    match role {
        Role::Input => "input",
        Role::Internal | Role::Output => "latest",
    }
}

// Whether a place that the step names is one of the net.
fn is_way_in(net: &Net, way: Option<Step>) -> bool
    ensures { IsTrue result → IsWayIn net.now way }
{
    match way {
        None | Some(Step::Next) => true,
        Some(Step::By(place)) => net.contains_place(place),
    }
}

// Whether the places that the steps name are those of the net.
fn are_ways_in(net: &Net, ways: &[Option<Step>]) -> bool
    ensures { IsTrue result → All (IsWayIn net.now) ways.now }
{
    ways.iter().all(|way| is_way_in(net, *way))
}

// Whether the table has a date and a step for each number and transition.
fn is_whole(net: &Net, numbers: u32, dates: &[Date], ways: &[Option<Step>]) -> bool
    ensures dates { IsTrue result → numbers * length net.now.transitions ≤ length dates.now }
    ensures ways { IsTrue result → numbers * length net.now.transitions ≤ length ways.now }
{
    match (numbers as usize).checked_mul(net.transitions().len()) {
        Some(cells) => cells <= dates.len() && cells <= ways.len(),
        None => false,
    }
}

// Ends a line with how a latest date is attained.
fn end_way(text: &mut String, net: &Net, way: Option<Step>) -> Result<(), AllocError>
    requires { IsWayIn net.now way }
    ensures { IfOk result (λ _. string_bytes text.new ≡
        string_bytes text.old ++ further_then (way_words net.now way) []) }
{
    match way {
        None => text.push_str(" due\n"),
        Some(Step::Next) => text.push_str(" next\n"),
        Some(Step::By(id)) => {
            let place = net.places()[id.index as usize].name.as_str();
            write!(text, " by {place}\n")
        }
    }
}

// Appends the line of a firing of the transition of this number, by its date and its step.
fn push_firing(
    text: &mut String,
    net: &Net,
    index: usize,
    number: u32,
    cell: (Date, Option<Step>),
) -> Result<(), AllocError>
    requires index { index < length net.now.transitions }
    requires way { IsWayIn net.now cell.1 }
    ensures { IfOk result (λ _. string_bytes text.new ≡
        string_bytes text.old ++ line_then (firing_line net.now index number cell.0 cell.1) []) }
{
    let transition = &net.transitions()[index];
    let name = transition.name.as_str();
    let word = role_told(transition.role);
    match cell.0 {
        Date::Never => write!(text, "{word} {name} {number} free\n"),
        Date::Early => {
            write!(text, "{word} {name} {number} epsilon")?;
            end_way(text, net, cell.1)
        }
        Date::At(date) => {
            write!(text, "{word} {name} {number} {date}")?;
            end_way(text, net, cell.1)
        }
    }
}

// Rows of dates and steps up to a number, each of this width; a due list, and where in it the row of
// each firing stands.
#[derive(Clone, Copy)]
pub(crate) struct TableRows<'t> {
    pub(crate) numbers: u32,
    pub(crate) width: usize,
    pub(crate) dates: &'t [Date],
    pub(crate) ways: &'t [Option<Step>],
    pub(crate) due: &'t [DueRow],
    pub(crate) due_places: &'t [usize],
}

// Appends the lines of the transition of this number.
fn push_firings(
    text: &mut String,
    net: &Net,
    rows: TableRows<'_>,
    index: usize,
) -> Result<(), AllocError>
    requires index { index < length net.now.transitions }
    requires width { rows.width ≡ length net.now.transitions }
    requires dates { rows.numbers * rows.width ≤ length rows.dates.now }
    requires ways { rows.numbers * rows.width ≤ length rows.ways.now }
    requires in_net { All (IsWayIn net.now) rows.ways.now }
    ensures { IfOk result (λ _. string_bytes text.new ≡ string_bytes text.old ++ written
        (firing_lines net.now rows.entry.width rows.entry.numbers rows.entry.dates.now
        rows.entry.ways.now index)) }
{
    for before in 0..rows.numbers {
        let at = before as usize * rows.width + index;
        push_firing(
            text,
            net,
            index,
            before + 1,
            (rows.dates[at], rows.ways[at]),
        )?;
    }
    Ok(())
}

// The lines of the table.
fn lines_of(alloc: Global, net: &Net, rows: TableRows<'_>) -> Result<String, AllocError>
    requires width { rows.width ≡ length net.now.transitions }
    requires dates { rows.numbers * rows.width ≤ length rows.dates.now }
    requires ways { rows.numbers * rows.width ≤ length rows.ways.now }
    requires in_net { All (IsWayIn net.now) rows.ways.now }
    ensures { IfOk result (λ text. string_bytes text ≡ written (table_told_lines net.now
        rows.entry.width rows.entry.numbers rows.entry.dates.now rows.entry.ways.now)) }
{
    let numbers = rows.numbers;
    let mut text = format!(in alloc; "latest inputs for {numbers} firings\n")?;
    for index in 0..net.transitions().len() {
        push_firings(&mut text, net, rows, index)?;
    }
    Ok(text)
}

/// The number of firings that the text of `teg jit` tells, where it is shown to be the table of a
/// plan of the net for these due dates (chapter 5): the net is seen to be live, inputs at 0 meet what
/// is due, up to that number, the greatest that is due, the date of each line is the latest of its
/// firing, and the step that it names attains it; a firing that is `free` has none. So the lines of
/// inputs tell the latest inputs. Latest dates that no inputs keep show nothing. The whole text is
/// looked at; which of several steps is named is not. No rows that are no due list of the net show
/// anything. It takes memory for the dates, the steps and the text, and 10,001 bytes for each
/// transition, and time of the order of the text and of order `n + p + r` a number for n transitions,
/// p places and r due dates. `OutOfMemory` comes only where no memory is found.
pub fn shown_table(
    alloc: Global,
    net: &Net,
    due: &Due,
    text: &str,
) -> Result<Option<u32>, OutOfMemory>
    ensures { IfOk result (λ shown. IfSome shown
        (IsShownTable net.now due.now.rows.items text.now)) }
{
    if !is_due_list(alloc, net, due)? || !is_seen_live(alloc, net)? {
        return Ok(None);
    }
    let Some(told) = table_in(alloc, net, due, text)? else {
        return Ok(None);
    };
    let (dates, ways) = (told.dates.as_slice(), told.ways.as_slice());
    let numbers = told.numbers;
    if numbers != greatest_number(&due.rows) {
        return Ok(None);
    }
    if !is_whole(net, numbers, dates, ways) || !are_ways_in(net, ways) {
        return Ok(None);
    }
    if !check_plan(alloc, net, due, numbers, dates)? {
        return Ok(None);
    }
    let listed = due.rows.as_slice();
    let rows = TableRows {
        numbers,
        width: net.transitions().len(),
        dates,
        ways,
        due: listed,
        due_places: told.due_places.as_slice(),
    };
    if !are_attained(net, rows) {
        return Ok(None);
    }
    let lines = lines_of(alloc, net, rows)?;
    if lines.as_str() != text {
        return Ok(None);
    }
    Ok(Some(numbers))
}
