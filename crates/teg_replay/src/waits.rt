//! What a firing waits for: the tokens of the places into its transition, the firings before it,
//! and a release.
ghost use Rattle.std.specs.Prelude.{◌≡◌, ◌<◌, ◌≤◌, ◌+◌, ◌^◌, All, IfOk, IfErr, Some, length, ◌-◌};
ghost use Rattle.teg_net.specs.Circuits.{place_at};
ghost use Rattle.teg_net.specs.Inputs.{input_date};
ghost use Rattle.run_laws.specs.Runs.{dates_of_transition, next_number, token_date, HasTokensBy, IsReleasedBy, IsThereBy, last_date, IsNotBefore};
ghost use Rattle.run_laws.specs.Earliest.{last_listed_date};
ghost use Rattle.teg_replay.specs.RefusedFirings.{Fails};
ghost use Rattle.teg_replay.specs.Games.{AreEnds};
ghost use Rattle.teg_replay.specs.declared.refusal.FireRefusal.TheVariants.{BeforeRelease};
ghost use Rattle.teg_replay.specs.Waits.{IsLatestOf, IsFirstLateOf, IsLatestToken, IsLatestRelease, IsBackTo, IsUnreleased};

use crate::ends::EndLists;
use crate::history::History;
use crate::longest::MOST_TOKENS;
use crate::refusal::FireRefusal;
use run_laws::Fired;
use teg_net::{Net, PlaceId, Role, TransitionId};

// The number that the next firing of the transition has.
pub(crate) fn next_number(history: &History, transition: TransitionId) -> u64
    requires transition { transition.index < history.now.width }
    requires few { length history.now.run < 2 ^ 40 }
    ensures number { result ≡ next_number history.now.run transition.index }
    ensures few { result ≤ 2 ^ 40 }
{
    history.dates_of(transition).len() as u64 + 1
}

// The date of the transition's last firing, and 0 where there is none.
pub(crate) fn date_before(history: &History, transition: TransitionId) -> u64
    requires { transition.index < history.now.width }
    ensures { result ≡ last_listed_date (dates_of_transition history.now.run transition.index) }
{
    match history.dates_of(transition).last() {
        Some(date) => *date,
        None => 0,
    }
}

// The date from which the place has its token for the firing of this number; none where the firing
// that brings it is missing.
fn token_date(history: &History, net: &Net, id: PlaceId, number: u64) -> Option<u128>
    requires width { history.now.width ≡ length net.now.transitions }
    requires place { id.index < length net.now.places }
    requires first { 1 ≤ number }
    ensures { result ≡ token_date history.now.run (place_at net.now id) number }
{
    let place = &net.places()[id.index as usize];
    let tokens = u64::from(place.tokens);
    if tokens < number {
        let dates = history.dates_of(place.from);
        let date = dates.get((number - tokens) as usize - 1)?;
        Some(u128::from(*date) + u128::from(place.hold))
    } else {
        Some(u128::from(net.ready(id, number as u32)))
    }
}

// The date from which these places into the transition have their tokens for its next firing, of
// this number. `Illegal` comes exactly where that of one of them is not there by the date of the
// firing, and tells the first such place.
fn tokens_of(
    history: &History,
    net: &Net,
    ids: &[PlaceId],
    fired: Fired,
    number: u64,
) -> Result<u64, FireRefusal>
    requires width { history.now.width ≡ length net.now.transitions }
    requires known { All (λ p. p.index < length net.now.places) ids.now }
    requires right { All (λ p. (place_at net.now p).to.index ≡ fired.transition.index) ids.now }
    requires first { 1 ≤ number }
    ensures latest { IfOk result (IsLatestOf net.now history.now.run fired number ids.now) }
    ensures late { IfErr result (IsFirstLateOf net.now history.now.run fired number ids.now) }
{
    let mut latest: u64 = 0;
    for id in ids {
        match token_date(history, net, *id, number) {
            Some(date) => {
                if u128::from(fired.date) < date {
                    return Err(FireRefusal::Illegal {
                        place: *id,
                        ready: Some(date),
                    });
                }
                latest = latest.max(date as u64);
            }
            None => {
                return Err(FireRefusal::Illegal {
                    place: *id,
                    ready: None,
                });
            }
        }
    }
    Ok(latest)
}

// The date from which all places into the transition have their tokens for its next firing.
// `Illegal` comes exactly where that of one of them is not there by the date of the firing. Where
// firings bring all tokens, the places that are held longest are asked first.
pub(crate) fn tokens_there(
    history: &History,
    ends: &EndLists,
    net: &Net,
    fired: Fired,
) -> Result<u64, FireRefusal>
    requires width { history.now.width ≡ length net.now.transitions }
    requires ends { AreEnds net.now ends.now }
    requires transition { fired.transition.index < length net.now.transitions }
    requires few { length history.now.run < 2 ^ 40 }
    ensures latest { IfOk result (λ date. IsLatestToken net.now history.now.run
        fired.transition.index (next_number history.now.run fired.transition.index) date) }
    ensures tokens { IfOk result (λ _. HasTokensBy net.now history.now.run fired.transition.index
        (next_number history.now.run fired.transition.index) fired.date) }
    ensures fails { IfErr result (λ why. Fails net.now history.now.run fired why) }
{
    // The net keeps its rules.
    net.rules();
    let number = next_number(history, fired.transition);
    if number > MOST_TOKENS {
        let longest = ends.longest(fired.transition);
        if let Ok(latest) = tokens_of(history, net, longest, fired, number) {
            return Ok(latest);
        }
    }
    tokens_of(history, net, ends.entering(fired.transition), fired, number)
}

// Nothing, where the firing is not before the last one.
pub(crate) fn in_order(history: &History, fired: Fired) -> Result<(), FireRefusal>
    ensures in_order { IfOk result (λ _. IsNotBefore (last_date history.now.run) fired.date) }
    ensures fails { IfErr result (λ why. IsBackTo history.now.run fired why) }
{
    match history.last_date() {
        Some(last) if fired.date < last => Err(FireRefusal::BackInTime { last }),
        _ => Ok(()),
    }
}

// The date before which this firing of the input transition is not released; `None` where it never
// fires.
fn release_date(ends: &EndLists, net: &Net, transition: TransitionId, number: u64) -> Option<u128>
    requires ends { AreEnds net.now ends.now }
    requires transition { transition.index < length net.now.transitions }
    requires first { 1 ≤ number }
    ensures { result ≡ input_date net.now transition.index number }
{
    match ends.input_list(net, transition) {
        Some(list) => list.date(number),
        None => Some(0),
    }
}

// The date of a release, where there is one by the date of the firing.
fn released_by(fired: Fired, release: Option<u128>) -> Result<u64, FireRefusal>
    ensures date { IfOk result (λ date. release ≡ Some date) }
    ensures there { IfOk result (λ date. date ≤ fired.date) }
    ensures told { IfErr result (λ why. why ≡ BeforeRelease release) }
    ensures late { IfErr result (λ _. IsThereBy fired.date release → ⊥) }
{
    match release {
        Some(date) if date <= u128::from(fired.date) => Ok(date as u64),
        _ => Err(FireRefusal::BeforeRelease { release }),
    }
}

// The date by which the transition's next firing is released, 0 where it waits for no release.
// `BeforeRelease` comes exactly where the input has a later date than that of the firing, or none.
pub(crate) fn released(
    ends: &EndLists,
    net: &Net,
    fired: Fired,
    number: u64,
) -> Result<u64, FireRefusal>
    requires ends { AreEnds net.now ends.now }
    requires transition { fired.transition.index < length net.now.transitions }
    requires first { 1 ≤ number }
    ensures latest { IfOk result (λ date. IsLatestRelease net.now fired.transition.index number
        date) }
    ensures released { IfOk result (λ _. IsReleasedBy net.now fired.transition.index number
        fired.date) }
    ensures fails { IfErr result (λ why. IsUnreleased net.now fired number why) }
{
    match net.transitions()[fired.transition.index as usize].role {
        Role::Internal | Role::Output => Ok(0),
        Role::Input => {
            let release = release_date(ends, net, fired.transition, number);
            released_by(fired, release)
        }
    }
}
