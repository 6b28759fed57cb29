//! The texts of delays by rows of dates.
ghost use Rattle.std.specs.Prelude.{◌≡◌, ◌+◌, ◌-◌, ◌*◌, ◌^◌, ◌<◌, ◌≤◌, ◌++◌, [], IfOk, codes, length, slice_index_or, string_bytes};
ghost use Rattle.dioid.specs.declared.dates.Date.TheVariants.{At, Early};
ghost use Rattle.delay_laws.specs.PlannedTimetables.{planned as planned_at};
ghost use Rattle.delay_laws.specs.SettlingLaws.{natural_of_date};
ghost use Rattle.teg_text.specs.Lines.{line_then, written};
ghost use Rattle.teg_text.specs.WordsOfNames.{name_of_transition, settled_words};
ghost use Rattle.delay_check.specs.DelayRows.{delay_by_rows};
ghost use Rattle.delay_check.specs.ShownDelays.{delays_line, delays_lines};

use dioid::Date;
use release_nets::Planned;
use std::alloc::{AllocError, Global};
use teg_net::Net;
use teg_text::push_settled;

// A form by rows of dates, each of this width, of which the first `count` tell the delays of a plan.
#[derive(Drop)]
pub(crate) struct Rows<'t> {
    pub(crate) after: u64,
    pub(crate) turn: u64,
    pub(crate) width: usize,
    pub(crate) count: u64,
    pub(crate) dates: &'t [Date],
    pub(crate) steps: &'t [i128],
    ghost told: { count ≡ after + turn },
    ghost after_in: { after < 2 ^ 64 },
    ghost turn_in: { turn < 2 ^ 64 },
    ghost room: { count * width ≤ length dates.now },
}

// The number, 0 where it is below.
fn natural(number: i128) -> u128
    ensures { result ≡ natural_of_date (At number) }
{
    if number < 0 { 0 } else { number as u128 }
}

// What the date has above this one.
fn above(date: Date, planned: u128) -> u128
    ensures { result ≡ natural_of_date date - planned }
{
    match date {
        Date::At(at) => natural(at).saturating_sub(planned),
        Date::Early | Date::Never => 0,
    }
}

// The planned date of the transition at the number behind so many others.
fn planned_date(planned: &Planned<'_>, index: usize, before: u64) -> u128
    requires { index < length planned.now.net.now.transitions }
    ensures { result ≡ planned_at planned.now.period planned.now.table.now index (before + 1) }
{
    let first = u128::from(planned.table.firsts[index]);
    first + u128::from(planned.period) * u128::from(before)
}

// The date of the transition at the number behind so many others, in rows of this width.
fn date_at(dates: &[Date], width: usize, index: usize, before: u64) -> Date
    requires { before * width + index < length dates.now }
    ensures { result ≡ slice_index_or dates.now (before * width + index) Early }
{
    dates[before as usize * width + index]
}

// The delay of the transition at the number behind so many others.
pub(crate) fn delay_at(planned: &Planned<'_>, rows: &Rows<'_>, index: usize, before: u64) -> u128
    requires index { index < length planned.now.net.now.transitions }
    requires wide { index < rows.now.width }
    requires before { before < rows.now.count }
    ensures { result ≡ delay_by_rows rows.now.width rows.now.dates.now rows.now.after rows.now.turn
        rows.now.steps.now planned.now.period planned.now.table.now index (before + 1) }
{
    let date = date_at(rows.dates, rows.width, index, before);
    let planned = planned_date(planned, index, before);
    above(date, planned)
}

// Begins the line of the delays of the transition of this number, counted from 0.
fn begin_line(text: &mut String, net: &Net, index: usize) -> Result<(), AllocError>
    requires { index < length net.now.transitions }
    ensures { IfOk result (λ _. string_bytes text.new ≡ string_bytes text.old
        ++ (codes "delays " ++ name_of_transition net.now (record { index = index }))) }
{
    let name = net.transitions()[index].name.as_str();
    write!(text, "delays {name}")
}

// Appends the line of the delays of the transition of this number, counted from 0.
fn push_line(
    text: &mut String,
    planned: &Planned<'_>,
    rows: &Rows<'_>,
    index: usize,
) -> Result<(), AllocError>
    requires index { index < length planned.now.net.now.transitions }
    requires wide { index < rows.now.width }
    ensures { IfOk result (λ _. string_bytes text.new ≡ string_bytes text.old
        ++ line_then (delays_line planned.now.net.now index (delay_by_rows rows.now.width
        rows.now.dates.now rows.now.after rows.now.turn rows.now.steps.now planned.now.period
        planned.now.table.now index) rows.now.count) []) }
{
    begin_line(text, planned.net, index)?;
    for before in 0..rows.count {
        let delay = delay_at(planned, rows, index, before);
        write!(text, " {delay}")?;
    }
    text.push('\n')?;
    Ok(())
}

// Appends the lines of the delays of all transitions.
fn push_lines(text: &mut String, planned: &Planned<'_>, rows: &Rows<'_>) -> Result<(), AllocError>
    requires { length planned.now.net.now.transitions ≤ rows.now.width }
    ensures { IfOk result (λ _. string_bytes text.new ≡ string_bytes text.old
        ++ written (delays_lines planned.now.net.now (delay_by_rows rows.now.width
        rows.now.dates.now rows.now.after rows.now.turn rows.now.steps.now planned.now.period
        planned.now.table.now) (rows.now.after + rows.now.turn))) }
{
    for index in 0..planned.net.transitions().len() {
        push_line(text, planned, rows, index)?;
    }
    Ok(())
}

// The whole text of the delays of these rows, with these lines of what becomes of them.
pub(crate) fn text_by_rows(
    alloc: Global,
    planned: &Planned<'_>,
    rows: &Rows<'_>,
    outcome: &str,
) -> Result<String, AllocError>
    requires { length planned.now.net.now.transitions ≤ rows.now.width }
    ensures { IfOk result (λ text. string_bytes text
        ≡ (line_then (settled_words rows.now.after rows.now.turn) [] ++ outcome.now)
        ++ written (delays_lines planned.now.net.now (delay_by_rows rows.now.width
        rows.now.dates.now rows.now.after rows.now.turn rows.now.steps.now planned.now.period
        planned.now.table.now) (rows.now.after + rows.now.turn))) }
{
    let mut text = String::new(alloc);
    push_settled(&mut text, rows.after, rows.turn)?;
    text.push_str(outcome)?;
    push_lines(&mut text, planned, rows)?;
    Ok(text)
}
