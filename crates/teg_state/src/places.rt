//! The places that a run leaves, with their tokens.
ghost use Rattle.std.specs.Prelude.{◌≡◌, ◌<◌, ◌≤◌, ◌+◌, ◌^◌, All, IfOk, IfErr, Some, length, map, take};
ghost use Rattle.std.specs.List.{range_with_len};
ghost use Rattle.teg_net.specs.Circuits.{place_at};
ghost use Rattle.teg_net.specs.Limits.{most_place_tokens};
ghost use Rattle.state_laws.specs.Rests.{ArePaid};
ghost use Rattle.state_laws.specs.NetsLeft.{count_in, not_before, place_after};
ghost use Rattle.teg_state.specs.WhyNotLeft.{HasTokensLeft, IsWhyNotLeft, token_date_by};

use crate::history::History;
use crate::refusal::NotLeft;
use std::alloc::{AllocError, Global};
use teg_net::{DateList, Name, Net, Place, PlaceId};

// The same name once more.
pub(crate) fn name_copy(alloc: Global, name: &Name) -> Result<Name, AllocError>
    ensures { IfOk result (λ copy. copy ≡ name.now) }
{
    match Name::new(alloc, name.as_str()) {
        Ok(copy) => Ok(copy),
        Err(_) => Err(AllocError),
    }
}

// The date from which this token of the place is there, where `from` has the dates of the upstream
// transition.
fn token_date(net: &Net, id: PlaceId, from: &[u64], number: u64) -> u64
    requires place { id.index < length net.now.places }
    requires first { 1 ≤ number }
    requires made { number ≤ (place_at net.now id).tokens + length from.now }
    requires dates { All (λ d. d ≤ 10 ^ 18) from.now }
    ensures { token_date_by from.now (place_at net.now id) number ≡ Some result }
{
    net.rules();
    let place = net.place(id);
    let tokens = u64::from(place.tokens);
    if tokens < number {
        from[(number - tokens) as usize - 1] + place.hold
    } else {
        net.ready(id, number as u32)
    }
}

// The ready dates of the tokens that are left in the place, none before now.
fn ready_dates(
    alloc: Global,
    net: &Net,
    id: PlaceId,
    from: &[u64],
    taken: u64,
    tokens: u64,
    now: u64,
) -> Result<Vec<u64>, AllocError>
    requires place { id.index < length net.now.places }
    requires dates { All (λ d. d ≤ 10 ^ 18) from.now }
    requires few { taken ≤ 2 ^ 40 }
    requires short { tokens ≤ most_place_tokens }
    requires made { taken + tokens ≡ (place_at net.now id).tokens + length from.now }
    ensures { IfOk result (λ ready. ready.items
        ≡ map (λ k. not_before now (token_date_by from.now (place_at net.now id) (taken + k)))
        (range_with_len 1 tokens)) }
{
    let mut ready = Vec::new(alloc);
    for index in 0..tokens {
        let date = token_date(net, id, from, taken + index + 1);
        ready.push(now.max(date))?;
    }
    Ok(ready)
}

// The place as the run leaves it.
fn place_left(
    alloc: Global,
    net: &Net,
    id: PlaceId,
    history: &History,
    now: u64,
) -> Result<Place, NotLeft>
    requires place { id.index < length net.now.places }
    requires width { history.now.width ≡ length net.now.transitions }
    requires dates { All (λ f. f.date ≤ 10 ^ 18) history.now.run }
    requires few { length history.now.run ≤ 2 ^ 40 }
    requires before { All (HasTokensLeft history.now.run) (take id.index net.now.places) }
    ensures place { IfOk result (λ left. left ≡ place_after history.now.run now (place_at net.now id)) }
    ensures left { IfOk result (λ _. HasTokensLeft history.now.run (place_at net.now id)) }
    ensures refusal { IfErr result (IsWhyNotLeft net.now history.now.run now) }
{
    net.rules();
    let place = net.place(id);
    let from = history.dates(place.from);
    let taken = history.fired(place.to);
    let made = u64::from(place.tokens) + from.len() as u64;
    if made < taken {
        return Err(NotLeft::Unpaid { place: id });
    }
    let tokens = made - taken;
    if 1_000 < tokens {
        return Err(NotLeft::ManyTokens { place: id });
    }
    let ready = ready_dates(alloc, net, id, from, taken, tokens, now)?;
    let name = name_copy(alloc, &place.name)?;
    Ok(Place {
        name,
        from: place.from,
        to: place.to,
        hold: place.hold,
        tokens: tokens as u32,
        ready: DateList::new(ready),
    })
}

// All places as the run leaves them.
pub(crate) fn places_left(
    alloc: Global,
    net: &Net,
    history: &History,
    now: u64,
) -> Result<Vec<Place>, NotLeft>
    requires width { history.now.width ≡ length net.now.transitions }
    requires dates { All (λ f. f.date ≤ 10 ^ 18) history.now.run }
    requires few { length history.now.run ≤ 2 ^ 40 }
    ensures places { IfOk result (λ places. places.items
        ≡ map (place_after history.now.run now) net.now.places) }
    ensures paid { IfOk result (λ _. ArePaid (count_in history.now.run) net.now.places) }
    ensures left { IfOk result (λ _. All (HasTokensLeft history.now.run) net.now.places) }
    ensures refusal { IfErr result (IsWhyNotLeft net.now history.now.run now) }
{
    let mut places = Vec::new(alloc);
    for index in 0..net.place_count() {
        places.push(place_left(alloc, net, PlaceId::new(index), history, now)?)?;
    }
    Ok(places)
}
