//! Words of dates and labels. Those of names and numbers are what std's formats write.
ghost use Rattle.std.specs.Prelude.{◌≡◌, ◌++◌, ◌∷◌, ◌<◌, All, IfOk, flat_map, string_bytes};
ghost use Rattle.teg_text.specs.ValueWords.{AreBytes, IsDate, date_word, hex_digit, label_byte, label_word};

use dioid::Date;
use std::alloc::AllocError;

/// Appends a date: its number, in the user's unit, `epsilon` where it is before all numbers and
/// `never` after them. `AllocError` comes only where no memory is found.
pub fn push_date(text: &mut String, date: Date) -> Result<(), AllocError>
    ensures text { IfOk result (λ _. string_bytes text.new
        ≡ string_bytes text.old ++ date_word date) }
    ensures kept { IfOk result (λ _. IsDate date) }
{
    match date {
        Date::Early => text.push_str("epsilon"),
        Date::At(date) => write!(text, "{date}"),
        Date::Never => text.push_str("never"),
    }
}

/// Appends dates in their order, each behind a blank. `AllocError` comes only where no memory is
/// found.
pub fn push_dates(text: &mut String, dates: &[Date]) -> Result<(), AllocError>
    ensures text { IfOk result (λ _. string_bytes text.new
        ≡ string_bytes text.old ++ flat_map (λ date. 32 ∷ date_word date) dates.now) }
    ensures kept { IfOk result (λ _. All IsDate dates.now) }
{
    for date in dates {
        text.push(' ')?;
        push_date(text, *date)?;
    }
    Ok(())
}

// The byte of a hexadecimal digit.
fn hex_digit(digit: u8) -> u8
    requires { digit < 16 }
    ensures result { result ≡ hex_digit digit }
    ensures ascii { result < 128 }
{
    if 10 <= digit { 87 + digit } else { 48 + digit }
}

// Appends a byte of a label.
fn push_label_byte(text: &mut String, byte: u8) -> Result<(), AllocError>
    ensures { IfOk result (λ _. string_bytes text.new ≡ string_bytes text.old ++ label_byte byte) }
{
    if byte == b'\\' {
        text.push_str("\\\\")
    } else if (0x21..=0x7E).contains(&byte) {
        text.push(char::from(byte))
    } else {
        text.push_str("\\x")?;
        text.push(char::from(hex_digit(byte / 16)))?;
        text.push(char::from(hex_digit(byte % 16)))
    }
}

/// Appends a label, byte by byte: a visible byte as it is, a backslash twice, and any other as `\x`
/// and its two hexadecimal digits. So it has no blank and no line feed. `AllocError` comes only
/// where no memory is found.
pub fn push_label(text: &mut String, label: &str) -> Result<(), AllocError>
    ensures text { IfOk result (λ _. string_bytes text.new
        ≡ string_bytes text.old ++ label_word label.now) }
    ensures kept { AreBytes label.now }
{
    for byte in label.as_bytes() {
        push_label_byte(text, *byte)?;
    }
    Ok(())
}
