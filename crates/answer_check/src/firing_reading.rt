//! The firing that a text of `teg date` tells, read whole.
ghost use Rattle.std.specs.Prelude.{◌≡◌, ◌↔◌, IfOk, IsTrue, codes, length, map};
ghost use Rattle.std.specs.Option.{option_map};
ghost use Rattle.answer_check.specs.DateReading.{ReadsFiring, ReadsFiringWords, ReadsSmall};

use std::alloc::{AllocError, Global};
use teg_net::{Net, TransitionId};
use word_lines::{lines_of, number_of, text_at, words_of};

// A transition, the number of its firing, and the word for its date.
#[derive(Clone, Copy)]
pub(crate) struct FiringTold<'t> {
    pub(crate) transition: TransitionId,
    pub(crate) number: u32,
    pub(crate) word: &'t str,
}

// The number of up to 32 bits that the word writes.
fn small_number(alloc: Global, word: &str) -> Result<Option<u32>, AllocError>
    ensures { IfOk result (ReadsSmall word.now) }
{
    let mut buffer = String::new(alloc);
    match number_of(&mut buffer, word)? {
        Some(number) if number <= 4_294_967_295 => Ok(Some(number as u32)),
        _ => Ok(None),
    }
}

// Whether there are just so many lines or words.
fn has(texts: &[&str], count: usize) -> bool
    ensures { IsTrue result ↔ (length texts.now ≡ count) }
{
    texts.len() == count
}

// Whether the word is that with which the line of a date begins.
fn is_date(word: &str) -> bool
    ensures { IsTrue result ↔ (word.now ≡ codes "date") }
{
    word == "date"
}

// The firing of the words of a line, if they are those of one.
fn firing_of<'t>(
    alloc: Global,
    net: &Net,
    words: &[&'t str],
) -> Result<Option<FiringTold<'t>>, AllocError>
    ensures { IfOk result (λ found. ReadsFiringWords net.now (map (λ x. x.now) words.now)
        (option_map (λ told. record {
          transition = told.transition;
          number = told.number;
          word = told.word.now;
        }) found)) }
{
    net.rules();
    if !has(words, 4) {
        return Ok(None);
    }
    if !is_date(text_at(words, 0)) {
        return Ok(None);
    }
    let Some(transition) = net.find(text_at(words, 1)) else {
        return Ok(None);
    };
    let Some(number) = small_number(alloc, text_at(words, 2))? else {
        return Ok(None);
    };
    Ok(Some(FiringTold {
        transition,
        number,
        word: text_at(words, 3),
    }))
}

// The firing that the text tells, if it is the line of one.
pub(crate) fn firing_in<'t>(
    alloc: Global,
    net: &Net,
    text: &'t str,
) -> Result<Option<FiringTold<'t>>, AllocError>
    ensures { IfOk result (λ found. ReadsFiring net.now text.now
        (option_map (λ told. record {
          transition = told.transition;
          number = told.number;
          word = told.word.now;
        }) found)) }
{
    net.rules();
    let Some(lines) = lines_of(alloc, text)? else {
        return Ok(None);
    };
    if !has(&lines, 1) {
        return Ok(None);
    }
    let words = words_of(alloc, text_at(&lines, 0))?;
    let found = firing_of(alloc, net, &words)?;
    Ok(found)
}
