//! Numbers among the words.
ghost use Rattle.std.specs.Prelude.{◌≡◌, ◌≤◌, IfSome};
ghost use Rattle.std.specs.Char.{is_ascii_digit};
ghost use Rattle.std.specs.List.{list_all};
ghost use Rattle.teg_words.specs.NumberWords.{is_number_word, number_of_word, within};

fn has_only_digits(text: &str) -> bool
    ensures { result ≡ list_all is_ascii_digit text.now }
{
    text.as_bytes().iter().all(|byte| byte.is_ascii_digit())
}

// 1 to 19 decimal digits.
fn is_numeral(text: &str) -> bool
    ensures { result ≡ is_number_word text.now }
{
    1 <= text.len() && text.len() <= 19 && has_only_digits(text)
}

fn within(low: u64, high: u64, value: u64) -> Option<u64>
    ensures value { result ≡ within low high value }
    ensures in_range { IfSome result (λ value. (low ≤ value) × (value ≤ high)) }
{
    if low <= value && value <= high {
        Some(value)
    } else {
        None
    }
}

/// The number that the word says, from `low` to `high`.
///
/// A number is 1 to 19 decimal digits without a sign; leading zeros are allowed. The answer is none
/// where the word is something else, or where its value is out of that range. It takes no memory.
pub fn number(word: &str, low: u64, high: u64) -> Option<u64>
    ensures value { result ≡ number_of_word low high word.now }
    ensures in_range { IfSome result (λ value. (low ≤ value) × (value ≤ high)) }
{
    if !is_numeral(word) {
        return None;
    }
    match word.parse::<u64>() {
        Ok(value) => within(low, high, value),
        Err(_) => None,
    }
}
