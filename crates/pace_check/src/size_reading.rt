//! The answer that a text of `teg size` tells. What is read may be told otherwise: who looks at it prints
//! it anew; but whatever may be told is read.
ghost use Rattle.std.specs.Prelude.{ℕ, ◌≡◌, ◌<◌, ◌^◌, [], IfOk, Some, None, length, map, slice_index_or};
ghost use Rattle.std.specs.Fmt.{decimal};
ghost use Rattle.std.specs.Option.{option_map};
ghost use Rattle.teg_text.specs.Lines.{phrase};
ghost use Rattle.pace_check.specs.SizeReading.{ReadsCircuit, ReadsFirst, ReadsSecond, ReadsSize, first_of, size_of};

use std::alloc::{AllocError, Global};
use teg_net::{Circuit, Net, PlaceId, Ratio};
use witness_check::{number_in, places_of, ratio_in, words_behind};
use word_lines::{lines_of, text_at, words_of};

// A place, a target, and how many extra tokens are enough, if some number is.
#[derive(Clone, Copy)]
struct FirstTold {
    place: PlaceId,
    target: Ratio,
    extra: Option<u64>,
}

// The same with a circuit, which is empty where none is told.
#[derive(Drop)]
pub(crate) struct SizeTold {
    pub(crate) place: PlaceId,
    pub(crate) target: Ratio,
    pub(crate) extra: Option<u64>,
    pub(crate) circuit: Circuit,
}

// The number in the words of a first line; that there is none, where a word fewer is told.
fn extra_in(words: &[&str]) -> Option<Option<u64>>
    ensures impossible { length words.now ≡ 4 → result ≡ Some None }
    ensures enough { (n : ℕ) → n < 2 ^ 64 → length words.now ≡ 5
        → slice_index_or (map (λ x. x.now) words.now) 4 [] ≡ decimal n → result ≡ Some (Some n) }
{
    if words.len() == 4 {
        return Some(None);
    }
    match number_in(text_at(words, 4)) {
        Some(extra) => Some(Some(extra)),
        None => None,
    }
}

// The three together, where each is told.
fn first_of(
    extra: Option<Option<u64>>,
    place: Option<PlaceId>,
    target: Option<Ratio>,
) -> Option<FirstTold>
    ensures { option_map (λ told. record {
      place = told.place;
      target = told.target;
      extra = told.extra;
    }) result ≡ first_of extra place target }
{
    let Some(extra) = extra else {
        return None;
    };
    let Some(place) = place else {
        return None;
    };
    let Some(target) = target else {
        return None;
    };
    Some(FirstTold {
        place,
        target,
        extra,
    })
}

// The place, the target and the number of these words.
fn first_in(net: &Net, words: &[&str]) -> Option<FirstTold>
    ensures { ReadsFirst net.now (map (λ x. x.now) words.now) (option_map (λ told. record {
      place = told.place;
      target = told.target;
      extra = told.extra;
    }) result) }
{
    net.rules();
    let place = net.find_place(text_at(words, 1));
    let target = ratio_in(text_at(words, 2));
    first_of(extra_in(words), place, target)
}

// The places of the circuit of a line.
fn circuit_in(alloc: Global, net: &Net, line: &str) -> Result<Option<Vec<PlaceId>>, AllocError>
    ensures { IfOk result (λ found. ReadsCircuit net.now (phrase line.now)
        (option_map (λ places. places.items) found)) }
{
    net.rules();
    let words = words_of(alloc, line)?;
    let found = places_of(alloc, net, words_behind(&words))?;
    Ok(found)
}

// Those of the second of these lines; none of them where there is no second.
fn second_in(alloc: Global, net: &Net, lines: &[&str]) -> Result<Option<Vec<PlaceId>>, AllocError>
    ensures { IfOk result (λ found. ReadsSecond net.now (map (λ x. x.now) lines.now)
        (option_map (λ places. places.items) found)) }
{
    if lines.len() < 2 {
        return Ok(Some(Vec::new(alloc)));
    }
    let found = circuit_in(alloc, net, text_at(lines, 1))?;
    Ok(found)
}

// The two together, where each is told.
fn size_of(first: Option<FirstTold>, places: Option<Vec<PlaceId>>) -> Option<SizeTold>
    ensures { option_map (λ told. record {
      place = told.place;
      target = told.target;
      extra = told.extra;
      circuit = told.circuit.places.items;
    }) result
        ≡ size_of (option_map (λ told. record {
          place = told.place;
          target = told.target;
          extra = told.extra;
        }) first) (option_map (λ ps. ps.items) places) }
{
    let Some(first) = first else {
        return None;
    };
    let Some(places) = places else {
        return None;
    };
    let FirstTold {
        place,
        target,
        extra,
    } = first;
    Some(SizeTold {
        place,
        target,
        extra,
        circuit: Circuit { places },
    })
}

// The answer that the text tells; none where it tells none. The places of the circuit are those of the
// net.
pub(crate) fn size_in(alloc: Global, net: &Net, text: &str) -> Result<Option<SizeTold>, AllocError>
    ensures { IfOk result (λ found. ReadsSize net.now text.now (option_map (λ told. record {
      place = told.place;
      target = told.target;
      extra = told.extra;
      circuit = told.circuit.places.items;
    }) found)) }
{
    net.rules();
    let Some(lines) = lines_of(alloc, text)? else {
        return Ok(None);
    };
    let words = words_of(alloc, text_at(&lines, 0))?;
    let first = first_in(net, &words);
    let places = second_in(alloc, net, &lines)?;
    Ok(size_of(first, places))
}
