//! The list that a text of `teg list` is, read whole.
ghost use Rattle.std.specs.Prelude.{ℕ, ◌≡◌, ◌+◌, ◌<◌, ◌^◌, ◌↔◌, ◌∷◌, [], IfOk, IsTrue, MatchOption, length, map};
ghost use Rattle.std.specs.Option.{option_map};
ghost use Rattle.teg_text.specs.Lines.{phrase, written};
ghost use Rattle.answer_check.specs.ListReading.{ReadsList, ReadsRow, ReadsRows};
ghost use Rattle.answer_check.specs.ShownLists.{all_names_line, count_line};

use crate::date_words::date_in;
use crate::list::head;
use dioid::Date;
use std::alloc::{AllocError, Global};
use teg_net::Net;
use word_lines::{lines_of, number_of, text_at, words_of};

// How many numbers are told, and rows of dates, one after another from number 1 on, each with one
// date for each transition in order. A word that tells no date of a least dating is -1.
#[derive(Drop)]
pub(crate) struct ListTold {
    pub(crate) count: u32,
    pub(crate) dates: Vec<Date>,
}

// Whether the words are a row of this number: then its dates are put behind the others. The buffer
// is written to.
fn row_in(
    buffer: &mut String,
    dates: &mut Vec<Date>,
    words: &[&str],
    width: usize,
    number: u32,
) -> Result<bool, AllocError>
    ensures { IfOk result (ReadsRow width number (map (λ x. x.now) words.now)
        dates.old.items dates.new.items) }
{
    if words.is_empty() {
        return Ok(false);
    }
    if words.len() - 1 != width {
        return Ok(false);
    }
    let first = text_at(words, 0);
    if number_of(buffer, first)? != Some(u128::from(number)) {
        return Ok(false);
    }
    for index in 0..width {
        let word = text_at(words, index + 1);
        let date = date_in(buffer, word)?;
        dates.push(date)?;
    }
    Ok(true)
}

// The dates of the rows of so many numbers, which stand behind two lines.
fn rows_in(
    alloc: Global,
    lines: &[&str],
    width: usize,
    count: u32,
) -> Result<Option<Vec<Date>>, AllocError>
    requires { length lines.now ≡ count + 2 }
    ensures { IfOk result (λ read. ReadsRows width count (map (λ x. x.now) lines.now)
        (option_map (λ dates. dates.items) read)) }
{
    let mut dates = Vec::new(alloc);
    let mut buffer = String::new(alloc);
    for before in 0..count {
        let line = text_at(lines, before as usize + 2);
        let words = words_of(alloc, line)?;
        if !row_in(&mut buffer, &mut dates, &words, width, before + 1)? {
            return Ok(None);
        }
    }
    Ok(Some(dates))
}

// Whether these are the two lines before the rows.
fn is_headed(
    alloc: Global,
    net: &Net,
    count: u32,
    first: &str,
    second: &str,
) -> Result<bool, AllocError>
    ensures { IfOk result (λ yes. IsTrue yes
        ↔ (written (phrase first.now ∷ phrase second.now ∷ [])
        ≡ written (count_line count ∷ all_names_line net.now ∷ []))) }
{
    let told = format!(in alloc; "{first}\n{second}\n")?;
    let head = head(alloc, net, count)?;
    Ok(told.as_str() == head.as_str())
}

// The number of lines behind two, up to 32 bits.
fn rows_behind(lines: usize) -> Option<u32>
    ensures { MatchOption result ((count : ℕ) → count < 2 ^ 32 → lines ≡ count + 2 → ⊥)
        (λ count. (count < 2 ^ 32) × (lines ≡ count + 2)) }
{
    if lines < 2 || lines - 2 > 4_294_967_295 {
        return None;
    }
    Some((lines - 2) as u32)
}

// The list that the text is, if it is one.
pub(crate) fn list_in(alloc: Global, net: &Net, text: &str) -> Result<Option<ListTold>, AllocError>
    ensures { IfOk result (λ read. ReadsList net.now text.now
        (option_map (λ told. (told.count, told.dates.items)) read)) }
{
    net.rules();
    let Some(read) = lines_of(alloc, text)? else {
        return Ok(None);
    };
    let lines = read.as_slice();
    let Some(count) = rows_behind(lines.len()) else {
        return Ok(None);
    };
    let first = text_at(lines, 0);
    let second = text_at(lines, 1);
    if !is_headed(alloc, net, count, first, second)? {
        return Ok(None);
    }
    match rows_in(alloc, lines, net.transitions().len(), count)? {
        Some(dates) => Ok(Some(ListTold { count, dates })),
        None => Ok(None),
    }
}
