//! Fields that write a number in decimal digits.
ghost use Rattle.std.specs.Prelude.{◌≡◌, ◌≤◌, ◌+◌, true, min, Some, None};
ghost use Rattle.std.specs.Char.{is_ascii_digit};
ghost use Rattle.std.specs.List.{list_all};
ghost use Rattle.std.specs.Str.Parse.{digits_value};
ghost use Rattle.csv_records.specs.NumberFields.{greatest_field_number, is_number, number_up_to};

fn has_only_digits(field: &[u8]) -> bool
    ensures { result ≡ list_all is_ascii_digit field.now }
{
    field.iter().all(|b| b.is_ascii_digit())
}

/// Whether the field is one decimal digit or more and nothing else. Leading zeros are allowed. It
/// takes no memory.
pub fn is_number(field: &[u8]) -> bool
    ensures { result ≡ is_number field.now }
{
    !field.is_empty() && has_only_digits(field)
}

// The number of the digits, held at `past`.
fn held_at(field: &[u8], past: u64) -> u64
    requires digits { list_all is_ascii_digit field.now ≡ true }
    requires small { past ≤ greatest_field_number + 1 }
    ensures { result ≡ min (digits_value 10 field.now) past }
{
    let mut value: u64 = 0;
    for digit in field {
        value = (value * 10 + u64::from(*digit - b'0')).min(past);
    }
    value
}

/// The number of a field of digits, of any length; none exactly where it exceeds `most`, which is
/// at most 10^18. It takes no memory.
pub fn number_up_to(field: &[u8], most: u64) -> Option<u64>
    requires number { is_number field.now ≡ true }
    requires small { most ≤ greatest_field_number }
    ensures { result ≡ number_up_to most field.now }
{
    let value = held_at(field, most + 1);
    if value <= most { Some(value) } else { None }
}
