//! Texts of `teg cycle --rounds` that tell other rounds than those of the net.
ghost use Rattle.std.specs.Prelude.{◌≡◌, ◌↔◌, IfOk, IfSome, IsSome, IsTrue, length, map, string_bytes};
ghost use Rattle.std.specs.Str.Lines.{lines};
ghost use Rattle.teg_net.specs.Ratios.{Fraction};
ghost use Rattle.round_check.specs.OtherRounds.{BeginsSo, IsFirstSo, TellsOther, head_of_round};
ghost use Rattle.round_check.specs.ShownRounds.{IsShownRounds};

use crate::others::first_other;
use crate::told::told_in;
use std::alloc::{AllocError, Global};
use teg_lines::{certificates_can_be_told, lines_tell_back};
use teg_net::{Net, OutOfMemory};
use word_lines::text_at;

/// A round that is another than that of its net, in the text of `teg cycle --rounds`.
#[derive(Clone, Copy, Debug, PartialEq, Eq)]
pub struct OtherRound {
    /// The number of its part, counted from 0.
    pub part: usize,
    /// Its number among the rounds of its part, counted from 0.
    pub round: usize,
    /// The number of its first line in the text, counted from 0.
    pub line: u64,
}

// With what the first line of the round begins.
fn head_of(alloc: Global, part: usize, round: usize) -> Result<String, AllocError>
    ensures { IfOk result (λ head. string_bytes head ≡ head_of_round part round) }
{
    let part = part as u128 + 1;
    let round = round as u128 + 1;
    let head = format!(in alloc; "part {part} round {round} ratio ")?;
    Ok(head)
}

// Whether the line begins so.
fn begins_so(line: &str, head: &str) -> bool
    ensures { IsTrue result ↔ BeginsSo head.now line.now }
{
    let count = head.len();
    if line.len() < count {
        return false;
    }
    &line.as_bytes()[..count] == head.as_bytes()
}

// The lines of the text.
fn lines_of<'t>(alloc: Global, text: &'t str) -> Result<Vec<&'t str>, AllocError>
    ensures { IfOk result (λ found. map (λ x. x.now) found.items ≡ lines text.now) }
{
    text.lines().collect(alloc)
}

// The number of the first of the lines that begins so, counted from 0.
fn first_so(lines: &[&str], head: &str) -> Option<u64>
    ensures { IfSome result (IsFirstSo head.now (map (λ x. x.now) lines.now)) }
{
    for index in 0..lines.len() {
        if begins_so(text_at(lines, index), head) {
            return Some(index as u64);
        }
    }
    None
}

// The number of the first line of the text that begins as the round does, counted from 0.
fn line_of(alloc: Global, text: &str, part: usize, round: usize) -> Result<Option<u64>, AllocError>
    ensures { IfOk result (λ line. IfSome line (IsFirstSo (head_of_round part round) (lines
        text.now))) }
{
    let head = head_of(alloc, part, round)?;
    let lines = lines_of(alloc, text)?;
    Ok(first_so(&lines, head.as_str()))
}

/// The first round of the text of `teg cycle --rounds` that is another than that of the net (chapter
/// 3; Howard's algorithm, of which the book has none), with its line. The net is seen to be live;
/// the whole text is that of cycle times that are shown as by `shown_times` of `pace_check`, and of
/// a round or more for each part with a circuit, of places and transitions of the net. The rounds of
/// all parts before that of the round lead to their answers, its own part's rounds before it are
/// those that the part's policy run begins with, and with this one they are not; or it is the last,
/// and its part's run goes on, or ends in another answer than is told. A part has one run, so such a
/// text is not what `teg cycle --rounds` says, and no ratio is shown by it
/// ([`shown_rounds`](crate::shown_rounds)).
///
/// There is none where the net is not live, the rounds are those of the net, the cycle times are not
/// shown, or a word is not as it is printed; of that the clauses say nothing. It takes the time of
/// [`check_run`](crate::check_run) for each part, and of the text. `OutOfMemory` comes only where no
/// memory is found.
pub fn refutes_rounds(
    alloc: Global,
    net: &Net,
    text: &str,
) -> Result<Option<OtherRound>, OutOfMemory>
    ensures other { IfOk result (λ other. IfSome other (TellsOther net.now text.now)) }
    ensures not_shown { IfOk result (λ other. IsSome other → (ratio : Fraction)
        → IsShownRounds net.now text.now ratio → ⊥) }
{
    net.rules();
    lines_tell_back();
    certificates_can_be_told();
    let Some(told) = told_in(alloc, net, text)? else {
        return Ok(None);
    };
    let Some((part, round)) = first_other(alloc, net, &told.answer, &told.runs)? else {
        return Ok(None);
    };
    let Some(line) = line_of(alloc, text, part, round)? else {
        return Ok(None);
    };
    Ok(Some(OtherRound { part, round, line }))
}
