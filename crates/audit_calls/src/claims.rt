//! The lines of an answer that claim something, each behind what is found of it.
ghost use Rattle.std.specs.Prelude.{◌≡◌, ◌++◌, IfOk, map, string_bytes};
ghost use Rattle.audit_calls.specs.Claims.{claim_at, claim_line, claims_text, is_claim, is_free_line, is_told};

use crate::finding::{Finding, word_of};
use crate::kinds::{Kind, Searched};
use crate::words::word_at;
use std::alloc::{AllocError, Global};
use word_lines::text_at;

// Whether the line of a table tells no date.
fn is_free(line: &str) -> bool
    ensures { result ≡ is_free_line line.now }
{
    word_at(line, 3) == "free"
}

// Whether the line of this number claims something.
fn is_claim(kind: Option<Kind>, index: usize, line: &str) -> bool
    ensures { result ≡ is_claim kind index line.now }
{
    match kind {
        Some(Kind::Plan) => !is_free(line),
        Some(Kind::Kept) => 1 <= index && index <= 2,
        Some(Kind::Recovered) => index == 1,
        Some(Kind::Releases | Kind::OfSearch(Searched::Bound)) => true,
        _ => index == 0,
    }
}

// Whether something is told of the line of this number.
fn is_told(kind: Option<Kind>, finding: Finding, index: usize, line: &str) -> bool
    ensures { result ≡ is_told kind finding index line.now }
{
    match finding {
        Finding::WrongLine(wrong) => index == 0 || index as u64 == wrong,
        _ => is_claim(kind, index, line),
    }
}

// Appends the line behind the word.
fn push_line(told: &mut String, word: &str, line: &str) -> Result<(), AllocError>
    ensures { IfOk result (λ _. string_bytes told.new
        ≡ string_bytes told.old ++ claim_line word.now line.now) }
{
    write!(told, "{word} {line}\n")
}

// Appends what is told of the line of this number.
fn push_claim(
    told: &mut String,
    kind: Option<Kind>,
    finding: Finding,
    index: usize,
    line: &str,
) -> Result<(), AllocError>
    ensures { IfOk result (λ _. string_bytes told.new
        ≡ string_bytes told.old ++ claim_at kind finding index line.now) }
{
    if !is_told(kind, finding, index, line) {
        return Ok(());
    }
    push_line(told, word_of(finding), line)
}

// What is told of the lines of an answer.
pub(crate) fn claims_of(
    alloc: Global,
    kind: Option<Kind>,
    finding: Finding,
    lines: &[&str],
) -> Result<String, AllocError>
    ensures { IfOk result (λ told. string_bytes told
        ≡ claims_text kind finding (map (λ x. x.now) lines.now)) }
{
    let mut told = String::new(alloc);
    for index in 0..lines.len() {
        push_claim(&mut told, kind, finding, index, text_at(lines, index))?;
    }
    Ok(told)
}
