//! What an answer is, by its first words and by what it was asked with.
ghost use Rattle.std.specs.Prelude.{◌≡◌, ◌-◌, [], length, map, slice_index_or};
ghost use Rattle.audit_calls.specs.AnswerWords.{delays_told, is_deadlock_told, kind_of_lines, kind_told, late_told, none_told, pace_told, plan_told, told_alone, told_beside, told_with_file, told_with_table, times_told};

use crate::question::Beside;
use crate::words::word_at;
use word_lines::text_at;

/// An answer that is shown on the net alone, by ranks, paces and least dates.
#[derive(Clone, Copy)]
pub enum Alone {
    /// `check`: the net is live.
    Live,
    /// Each command: the net is not live.
    Deadlock,
    /// `list`.
    Listed,
    /// `cycle` and `slack` of a net without a circuit.
    NoCircuit,
    /// `slack`.
    Slack,
    /// `cycle`.
    Cycle,
    /// `size`.
    Size,
}

/// An answer that is shown on the net alone, by what a search goes through.
#[derive(Clone, Copy)]
pub enum Searched {
    /// `cycle` with the rounds.
    Rounds,
    /// `dates`.
    Settled,
    /// `bound`, and why there is none.
    Bound,
}

/// What an answer is.
#[derive(Clone, Copy)]
pub enum Kind {
    /// One that is shown on the net alone.
    OfNet(Alone),
    /// One that is shown on the net alone, by what a search goes through.
    OfSearch(Searched),
    /// `jit`: latest dates.
    Plan,
    /// `forever`: latest dates without end.
    Releases,
    /// `jit`: a row that comes late.
    LateRow,
    /// `forever`: a firing that comes late.
    LateOrder,
    /// `date`.
    OneDate,
    /// `timetable`: delays that are kept.
    Kept,
    /// `timetable`: delays that die out.
    Recovered,
}

// Whether the answer tells a circuit without tokens.
fn is_deadlock(first: &str, second: &str) -> bool
    ensures { result ≡ is_deadlock_told first.now second.now }
{
    first == "refused:" && second == "token-free"
}

// An answer that begins with `no`.
fn none_told(second: &str) -> Option<Kind>
    ensures { result ≡ none_told second.now }
{
    match second {
        "circuit" => Some(Kind::OfNet(Alone::NoCircuit)),
        "bound:" => Some(Kind::OfSearch(Searched::Bound)),
        _ => None,
    }
}

// Cycle times, with the rounds or without.
fn times_told(last: &str) -> Kind
    ensures { result ≡ times_told last.now }
{
    match last {
        "choice" => Kind::OfSearch(Searched::Rounds),
        _ => Kind::OfNet(Alone::Cycle),
    }
}

// An answer that begins with `cycle`.
fn pace_told(below: &str, last: &str) -> Kind
    ensures { result ≡ pace_told below.now last.now }
{
    match below {
        "place" => Kind::OfNet(Alone::Slack),
        _ => times_told(last),
    }
}

// An answer that was asked with the net alone.
fn told_alone(first: &str, second: &str, below: &str, last: &str) -> Option<Kind>
    ensures { result ≡ told_alone first.now second.now below.now last.now }
{
    match first {
        "live" => Some(Kind::OfNet(Alone::Live)),
        "dates" => Some(Kind::OfNet(Alone::Listed)),
        "no" => none_told(second),
        "cycle" => Some(pace_told(below, last)),
        "settled" => Some(Kind::OfSearch(Searched::Settled)),
        "size" => Some(Kind::OfNet(Alone::Size)),
        "bound" => Some(Kind::OfSearch(Searched::Bound)),
        _ => None,
    }
}

// An answer of latest dates, by its first line.
fn plan_told(line: &str) -> Kind
    ensures { result ≡ plan_told line.now }
{
    match line {
        "latest inputs forever" => Kind::Releases,
        _ => Kind::Plan,
    }
}

// An answer of a late firing, by the first word of its second line: one with a path, or without, as
// `forever` tells it.
fn late_told(below: &str) -> Option<Kind>
    ensures { result ≡ late_told below.now }
{
    match below {
        "path" => Some(Kind::LateRow),
        "from" => Some(Kind::LateRow),
        "" => Some(Kind::LateOrder),
        _ => None,
    }
}

// An answer that was asked with a file.
fn told_with_file(line: &str, first: &str, below: &str) -> Option<Kind>
    ensures { result ≡ told_with_file line.now first.now below.now }
{
    match first {
        "latest" => Some(plan_told(line)),
        "late" => late_told(below),
        "date" => Some(Kind::OneDate),
        _ => None,
    }
}

// An answer that was asked with a timetable and begins with `settled`.
fn delays_told(below: &str) -> Option<Kind>
    ensures { result ≡ delays_told below.now }
{
    match below {
        "kept" => Some(Kind::Kept),
        "recovered" => Some(Kind::Recovered),
        _ => None,
    }
}

// An answer that was asked with a timetable.
fn told_with_table(first: &str, below: &str) -> Option<Kind>
    ensures { result ≡ told_with_table first.now below.now }
{
    match first {
        "settled" => delays_told(below),
        _ => None,
    }
}

// An answer that tells no circuit without tokens.
fn told_beside(
    beside: &Beside,
    line: &str,
    first: &str,
    second: &str,
    below: &str,
    last: &str,
) -> Option<Kind>
    ensures { result ≡ told_beside beside.now line.now first.now second.now below.now last.now }
{
    match beside {
        Beside::Nothing => told_alone(first, second, below, last),
        Beside::File { .. } => told_with_file(line, first, below),
        Beside::Timetable { .. } => told_with_table(first, below),
    }
}

// What an answer is; none where no checker reads it.
fn kind_told(
    beside: &Beside,
    line: &str,
    first: &str,
    second: &str,
    below: &str,
    last: &str,
) -> Option<Kind>
    ensures { result ≡ kind_told beside.now line.now first.now second.now below.now last.now }
{
    if is_deadlock(first, second) {
        Some(Kind::OfNet(Alone::Deadlock))
    } else {
        told_beside(beside, line, first, second, below, last)
    }
}

// The last line; an empty one where there is none.
fn last_line<'t>(lines: &[&'t str]) -> &'t str
    ensures { result.now ≡ slice_index_or (map (λ x. x.now) lines.now) (length lines.now - 1) [] }
{
    text_at(lines, lines.len().saturating_sub(1))
}

// What an answer of these lines is.
pub(crate) fn kind_of(beside: &Beside, lines: &[&str]) -> Option<Kind>
    ensures { result ≡ kind_of_lines beside.now (map (λ x. x.now) lines.now) }
{
    let first = text_at(lines, 0);
    let below = text_at(lines, 1);
    kind_told(
        beside,
        first,
        word_at(first, 0),
        word_at(first, 1),
        word_at(below, 0),
        word_at(last_line(lines), 0),
    )
}
