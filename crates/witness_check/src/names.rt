//! Places and numbers by the words of a line.
ghost use Rattle.std.specs.Prelude.{ℕ, ◌≡◌, ◌<◌, ◌^◌, IfOk, Some, drop, map};
ghost use Rattle.std.specs.Fmt.{decimal};
ghost use Rattle.std.specs.Option.{option_map};
ghost use Rattle.teg_net.specs.Ratios.{Fraction, IsLowestTerms};
ghost use Rattle.witness_check.specs.NamedPlaces.{NamesEach, NamesPlaces, ReadsRatio};

use std::alloc::{AllocError, Global};
use teg_net::{Net, PlaceId, Ratio};
use word_lines::{text_at, words_of};

/// The words behind the first; none where there is no word. It takes no memory.
pub fn words_behind<'w, 't>(words: &'w [&'t str]) -> &'w [&'t str]
    ensures { map (λ x. x.now) result.now ≡ drop 1 (map (λ x. x.now) words.now) }
{
    if words.is_empty() {
        return words;
    }
    &words[1..]
}

/// The places of the net of these names, in order; none just where one is the name of no place. It
/// takes memory for them, and a step a name and place. `AllocError` comes only where no memory is
/// found.
pub fn places_of(
    alloc: Global,
    net: &Net,
    names: &[&str],
) -> Result<Option<Vec<PlaceId>>, AllocError>
    ensures { IfOk result (λ found. NamesEach net.now (map (λ x. x.now) names.now)
        (option_map (λ places. places.items) found)) }
{
    let mut places = Vec::new(alloc);
    for index in 0..names.len() {
        let name = text_at(names, index);
        match net.find_place(name) {
            Some(id) => places.push(id)?,
            None => return Ok(None),
        }
    }
    Ok(Some(places))
}

/// The places of the net that the text names, in order, each name behind a blank; none just where
/// it names no places in this way. It takes memory for them and for a reference a name, and a step a
/// name and place. `AllocError` comes only where no memory is found.
pub fn places_named(
    alloc: Global,
    net: &Net,
    words: &str,
) -> Result<Option<Vec<PlaceId>>, AllocError>
    ensures { IfOk result (λ found. NamesPlaces net.now words.now
        (option_map (λ places. places.items) found)) }
{
    net.rules();
    let names = words_of(alloc, words)?;
    if !text_at(&names, 0).is_empty() {
        return Ok(None);
    }
    let found = places_of(alloc, net, words_behind(&names))?;
    Ok(found)
}

/// The number of 64 bits that a word tells, none where it tells none: each number that is printed is
/// read. Words that are printed otherwise may be read, too. It takes no memory.
pub fn number_in(word: &str) -> Option<u64>
    ensures { (n : ℕ) → n < 2 ^ 64 → word.now ≡ decimal n → result ≡ Some n }
{
    match word.parse::<u64>() {
        Ok(number) => Some(number),
        Err(_) => None,
    }
}

// The ratio of a time to tokens, if there are some.
fn ratio_of(time: Option<u64>, tokens: Option<u64>) -> Option<Ratio>
    ensures { (r : Fraction) → IsLowestTerms r → time ≡ Some r.time → tokens ≡ Some r.tokens
        → result ≡ Some r }
{
    let (Some(time), Some(tokens)) = (time, tokens) else {
        return None;
    };
    if tokens == 0 {
        return None;
    }
    Some(Ratio::of(time, tokens))
}

/// The ratio that a word tells as time/tokens, none where it tells none: each ratio that is printed so
/// is read. Words that are printed otherwise may be read, too: who reads a text so prints the word
/// anew. It takes no memory.
pub fn ratio_in(word: &str) -> Option<Ratio>
    ensures { ReadsRatio word.now result }
{
    let Some((time, tokens)) = word.split_once('/') else {
        return None;
    };
    ratio_of(number_in(time), number_in(tokens))
}

/// The number and the period of a line that tells where dates settle. Nothing rests on them: who
/// reads a text so looks at them, and prints the line anew. `AllocError` comes only where no memory
/// is found.
pub fn settled_in_line(alloc: Global, line: &str) -> Result<Option<(u64, u64)>, AllocError> {
    let words: Vec<&str> = line.split_whitespace().collect(alloc)?;
    let ["settled", "after", after, "period", period] = words.as_slice() else {
        return Ok(None);
    };
    let (Ok(after), Ok(period)) = (after.parse::<u64>(), period.parse::<u64>()) else {
        return Ok(None);
    };
    Ok(Some((after, period)))
}
