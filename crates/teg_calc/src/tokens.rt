//! Words and numbers, read byte by byte.
ghost use Rattle.std.specs.Prelude.{◌≡◌, IfSome};
ghost use Rattle.teg_calc.specs.Readers.{HasFewDigits, begun_by, letters_of};

use crate::brackets::Call;

// A word of more than one letter.
#[derive(Clone, Copy)]
pub(crate) enum Word {
    Eps,
    Never,
    Star,
    Min,
    Left,
}

// What is read of a token that is not whole, or that may go on.
#[derive(Clone, Copy)]
pub(crate) enum Part {
    // The first letters of a word.
    Letters {
        word: Word,
        read: usize,
    },
    // `e`, which may go on to `eps`.
    Unit,
    // The name of a call, whose bracket comes next.
    Name {
        call: Call,
    },
    // `g` and the digits of a shift so far.
    Shift {
        count: u8,
        value: u64,
    },
    // A monomial up to its `d`.
    Delta {
        shift: u64,
    },
    // A monomial up to the digits of its date so far.
    Date {
        shift: u64,
        minus: bool,
        count: u8,
        value: u64,
    },
}

// The letters of a word.
pub(crate) fn letters(word: Word) -> &'static [u8]
    ensures { result.now ≡ letters_of word }
{
    match word {
        Word::Eps => b"eps",
        Word::Never => b"never",
        Word::Star => b"star",
        Word::Min => b"min",
        Word::Left => b"left",
    }
}

// What the first letter of a word or a monomial begins.
pub(crate) fn begun_by(byte: u8) -> Option<Part>
    ensures value { result ≡ begun_by byte }
    ensures short { IfSome result HasFewDigits }
{
    match byte {
        b'g' => Some(Part::Shift { count: 0, value: 0 }),
        b'e' => Some(Part::Unit),
        b'n' => Some(letter(Word::Never)),
        b's' => Some(letter(Word::Star)),
        b'm' => Some(letter(Word::Min)),
        b'l' => Some(letter(Word::Left)),
        _ => None,
    }
}

// The first letter of a word.
fn letter(word: Word) -> Part
    ensures { result ≡ Part.Letters word 1 }
{
    Part::Letters { word, read: 1 }
}
