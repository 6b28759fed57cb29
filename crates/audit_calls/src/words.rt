//! The lines of a text, and the words of a line.
ghost use Rattle.std.specs.Prelude.{◌≡◌, ◌==◌, IfOk, map, slice_get};
ghost use Rattle.std.specs.List.{slice_split};
ghost use Rattle.std.specs.Option.{option_map};
ghost use Rattle.std.specs.Str.Lines.{lines};
ghost use Rattle.audit_calls.specs.AnswerWords.{word_in};

use std::alloc::{AllocError, Global};

// The lines of the text.
pub(crate) fn lines_of<'t>(alloc: Global, text: &'t str) -> Result<Vec<&'t str>, AllocError>
    ensures { IfOk result (λ found. map (λ x. x.now) found.items ≡ lines text.now) }
{
    text.lines().collect(alloc)
}

// The word of this number in the line, counted from 0.
fn nth_word<'t>(line: &'t str, index: usize) -> Option<&'t str>
    ensures { option_map (λ x. x.now) result
        ≡ slice_get (slice_split (λ b. b == 32) line.now) index }
{
    line.split(' ').nth(index)
}

// The same; an empty one where there are fewer.
pub(crate) fn word_at<'t>(line: &'t str, index: usize) -> &'t str
    ensures { result.now ≡ word_in line.now index }
{
    match nth_word(line, index) {
        Some(word) => word,
        None => "",
    }
}
