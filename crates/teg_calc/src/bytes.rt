//! What a byte is in an expression.
ghost use Rattle.std.specs.Prelude.{◌≡◌, ◌<◌, IfSome};
ghost use Rattle.teg_calc.specs.Readers.{digit_of, sign_of};

// The signs of the grammar.
#[derive(Clone, Copy)]
pub(crate) enum Sign {
    Blank,
    Open,
    Close,
    Comma,
    Plus,
    Dot,
    // Any other byte.
    Other,
}

// The sign that a byte is.
pub(crate) fn sign_of(byte: u8) -> Sign
    ensures { result ≡ sign_of byte }
{
    match byte {
        b' ' => Sign::Blank,
        b'(' => Sign::Open,
        b')' => Sign::Close,
        b',' => Sign::Comma,
        b'+' => Sign::Plus,
        b'.' => Sign::Dot,
        _ => Sign::Other,
    }
}

// The value of a decimal digit.
pub(crate) fn digit_of(byte: u8) -> Option<u64>
    ensures value { result ≡ digit_of byte }
    ensures digit { IfSome result (λ digit. digit < 10) }
{
    if b'0' <= byte && byte <= b'9' {
        Some((byte - b'0') as u64)
    } else {
        None
    }
}
