//! Texts of lines of words that are read whole, and texts that are none.
use std::alloc::{AllocError, Global};
use std::test::Fail;
use word_lines::{lines_of, number_of, text_at, words_of};

// Texts, of how many lines they are, and the second word of the second line.
const TEXTS: [(&str, Option<usize>, &str); 5] = [
    ("", Some(0), ""),
    ("\n", Some(1), ""),
    ("a b\nc d e\n", Some(2), "d"),
    ("a  b\n c\n", Some(2), "c"),
    ("a b\nc d", None, ""),
];

// Words, and the numbers that they write.
const NUMBERS: [(&str, Option<u128>); 6] = [
    ("0", Some(0)),
    ("340282366920938463463374607431768211455", Some(u128::MAX)),
    ("340282366920938463463374607431768211456", None),
    ("007", None),
    ("+7", None),
    ("", None),
];

// Whether the text is read so.
fn is_read(
    alloc: Global,
    text: &str,
    count: Option<usize>,
    word: &str,
) -> Result<bool, AllocError> {
    let Some(lines) = lines_of(alloc, text)? else {
        return Ok(count == None);
    };
    let words = words_of(alloc, text_at(&lines, 1))?;
    Ok(count == Some(lines.len()) && text_at(&words, 1) == word)
}

#[test]
fn texts_are_read_whole(rt: HostRuntime) -> Result<(), Fail> {
    for (text, count, word) in TEXTS {
        if !is_read(rt.alloc(), text, count, word)? {
            return Err(Fail::new(text));
        }
    }
    let mut buffer = String::new(rt.alloc());
    for (word, number) in NUMBERS {
        if number_of(&mut buffer, word)? != number {
            return Err(Fail::new(word));
        }
    }
    Ok(())
}
