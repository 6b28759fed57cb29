//! Lines, words and numbers.
ghost use Rattle.std.specs.Prelude.{◌≡◌, ◌==◌, [], IfOk, map, slice_index_or};
ghost use Rattle.std.specs.List.{slice_split};
ghost use Rattle.std.specs.Option.{option_map};
ghost use Rattle.teg_text.specs.Lines.{phrase};
ghost use Rattle.word_lines.specs.WordLines.{ReadsLines, ReadsNumber};

use std::alloc::{AllocError, Global};

// What stands between line feeds.
fn parts_of<'t>(alloc: Global, body: &'t str) -> Result<Vec<&'t str>, AllocError>
    ensures { IfOk result (λ parts. map (λ x. x.now) parts.items
        ≡ slice_split (λ b. b == 10) body.now) }
{
    body.split('\n').collect(alloc)
}

/// The lines of a text, without their line feeds; none where it is the text of no lines of words,
/// each of which ends with a line feed. It takes memory for one reference a line, and time of the
/// order of the text.
pub fn lines_of<'t>(alloc: Global, text: &'t str) -> Result<Option<Vec<&'t str>>, AllocError>
    ensures { IfOk result (λ read. ReadsLines text.now
        (option_map (λ lines. map (λ x. x.now) lines.items) read)) }
{
    if text.is_empty() {
        return Ok(Some(Vec::new(alloc)));
    }
    let Some(body) = text.strip_suffix('\n') else {
        return Ok(None);
    };
    let parts = parts_of(alloc, body)?;
    Ok(Some(parts))
}

/// The words of a line: what stands before, between and behind its blanks. It takes memory for one
/// reference a word, and time of the order of the line.
pub fn words_of<'t>(alloc: Global, line: &'t str) -> Result<Vec<&'t str>, AllocError>
    ensures { IfOk result (λ words. map (λ x. x.now) words.items ≡ phrase line.now) }
{
    line.split(' ').collect(alloc)
}

/// The line or word of this number, counted from 0; an empty one where there are fewer. It takes no
/// memory.
pub fn text_at<'t>(texts: &[&'t str], index: usize) -> &'t str
    ensures { result.now ≡ slice_index_or (map (λ x. x.now) texts.now) index [] }
{
    if index < texts.len() {
        texts[index]
    } else {
        ""
    }
}

/// The number of up to 128 bits that the word writes, in decimal digits as a number is printed: no
/// sign, and no zero before others. What was in the buffer is lost: the number is printed into it
/// anew. It takes memory where the buffer has less than the word, and time of its order.
pub fn number_of(buffer: &mut String, word: &str) -> Result<Option<u128>, AllocError>
    ensures { IfOk result (ReadsNumber word.now) }
{
    let Ok(number) = word.parse::<u128>() else {
        return Ok(None);
    };
    buffer.clear();
    write!(buffer, "{number}")?;
    if buffer.as_str() == word {
        Ok(Some(number))
    } else {
        Ok(None)
    }
}
