//! Dates by their words.
ghost use Rattle.std.specs.Prelude.{IfOk};
ghost use Rattle.answer_check.specs.ListReading.{IsReadDate, IsReadNumber};

use dioid::Date;
use std::alloc::AllocError;
use word_lines::number_of;

// What no least date exceeds.
const GREATEST_LEAST_DATE: u128 = 2_000_000_000_000_000_000_000_000_000_000;

// The date that a word writes in digits, -1 where it is no number that a least date may have. The
// buffer is written to.
fn numbered_date(buffer: &mut String, word: &str) -> Result<Date, AllocError>
    ensures { IfOk result (IsReadNumber word.now) }
{
    match number_of(buffer, word)? {
        Some(number) if number <= GREATEST_LEAST_DATE => Ok(Date::At(number as i128)),
        _ => Ok(Date::At(-1)),
    }
}

// The date that the word tells, -1 where it tells none that a least date may be. The buffer is
// written to.
pub(crate) fn date_in(buffer: &mut String, word: &str) -> Result<Date, AllocError>
    ensures { IfOk result (IsReadDate word.now) }
{
    match word {
        "epsilon" => Ok(Date::Early),
        "never" => Ok(Date::Never),
        _ => numbered_date(buffer, word),
    }
}
