//! The table that a text of `teg jit` is, read whole: its lines, with whatever words behind the
//! number of each.
ghost use Rattle.std.specs.Prelude.{ℕ, ◌≡◌, ◌+◌, ◌*◌, ◌<◌, ◌≤◌, ◌^◌, ◌↔◌, ◌∷◌, [], IfOk, IsTrue, MatchOption, length, map};
ghost use Rattle.std.specs.Option.{option_map};
ghost use Rattle.teg_text.specs.Lines.{phrase, written};
ghost use Rattle.dating_check.specs.TableReading.{AreFiringLines, AreTableLines, IsFiringLine, ReadsTable};
ghost use Rattle.dating_check.specs.TableTexts.{table_head};

use crate::table::role_told;
use std::alloc::{AllocError, Global};
use teg_net::Net;
use word_lines::{lines_of, number_of, text_at, words_of};

// Up to which number a table goes, and the lines of its text.
#[derive(Drop)]
pub(crate) struct TableRead<'t> {
    pub(crate) numbers: u32,
    pub(crate) lines: Vec<&'t str>,
}

// Whether the words begin as those of a line of this number. The buffer is written to.
fn begins_line(
    buffer: &mut String,
    words: &[&str],
    role: &str,
    name: &str,
    number: u32,
) -> Result<bool, AllocError>
    ensures { IfOk result (λ yes. IsTrue yes
        ↔ IsFiringLine role.now name.now number (map (λ x. x.now) words.now)) }
{
    if words.len() < 3 {
        return Ok(false);
    }
    let first = text_at(words, 0);
    let second = text_at(words, 1);
    if first != role || second != name {
        return Ok(false);
    }
    let third = text_at(words, 2);
    let told = number_of(buffer, third)?;
    Ok(told == Some(u128::from(number)))
}

// Whether the lines of the transition of this number stand there, one for each number.
fn are_lines_of(
    alloc: Global,
    net: &Net,
    lines: &[&str],
    numbers: u32,
    index: usize,
) -> Result<bool, AllocError>
    requires { index < length net.now.transitions }
    ensures { IfOk result (λ yes. IsTrue yes
        ↔ AreFiringLines net.now (map (λ x. x.now) lines.now) numbers index) }
{
    net.rules();
    let transition = &net.transitions()[index];
    let role = role_told(transition.role);
    let name = transition.name.as_str();
    let mut buffer = String::new(alloc);
    for before in 0..numbers {
        let line = text_at(lines, 1 + (index * numbers as usize + before as usize));
        let words = words_of(alloc, line)?;
        if !begins_line(&mut buffer, &words, role, name, before + 1)? {
            return Ok(false);
        }
    }
    Ok(true)
}

// Whether so they do of each transition.
fn are_table_lines(
    alloc: Global,
    net: &Net,
    lines: &[&str],
    numbers: u32,
) -> Result<bool, AllocError>
    ensures { IfOk result (λ yes. IsTrue yes
        ↔ AreTableLines net.now (map (λ x. x.now) lines.now) numbers) }
{
    for index in 0..net.transitions().len() {
        if !are_lines_of(alloc, net, lines, numbers, index)? {
            return Ok(false);
        }
    }
    Ok(true)
}

// Whether this is the first line of a table up to the number.
fn is_headed(alloc: Global, numbers: u32, first: &str) -> Result<bool, AllocError>
    ensures { IfOk result (λ yes. IsTrue yes
        ↔ (written (phrase first.now ∷ []) ≡ written (table_head numbers ∷ []))) }
{
    let told = format!(in alloc; "{first}\n")?;
    let head = format!(in alloc; "latest inputs for {numbers} firings\n")?;
    Ok(told.as_str() == head.as_str())
}

// The number up to which so many lines go, behind the first, with so many for each number.
fn numbers_of(lines: usize, width: usize) -> Option<u32>
    requires { 1 ≤ width }
    ensures { MatchOption result
        ((numbers : ℕ) → numbers < 2 ^ 32 → lines ≡ 1 + width * numbers → ⊥)
        (λ numbers. lines ≡ 1 + width * numbers) }
{
    if lines == 0 {
        return None;
    }
    let cells = lines - 1;
    if cells % width != 0 {
        return None;
    }
    let numbers = cells / width;
    if numbers > 4_294_967_295 {
        return None;
    }
    Some(numbers as u32)
}

// The table that the text is, if it is one.
pub(crate) fn table_lines<'t>(
    alloc: Global,
    net: &Net,
    text: &'t str,
) -> Result<Option<TableRead<'t>>, AllocError>
    ensures { IfOk result (λ read. ReadsTable net.now text.now
        (option_map (λ table. (table.numbers, map (λ x. x.now) table.lines.items)) read)) }
{
    net.rules();
    let Some(read) = lines_of(alloc, text)? else {
        return Ok(None);
    };
    let lines = read.as_slice();
    let Some(numbers) = numbers_of(lines.len(), net.transitions().len()) else {
        return Ok(None);
    };
    let first = text_at(lines, 0);
    if !is_headed(alloc, numbers, first)? {
        return Ok(None);
    }
    if !are_table_lines(alloc, net, lines, numbers)? {
        return Ok(None);
    }
    Ok(Some(TableRead {
        numbers,
        lines: read,
    }))
}
