//! For how many turns more the last turn of rows goes on before a place or a release is late.
ghost use Rattle.std.specs.Prelude.{ℕ, pos, ◌≡◌, ◌+ℤ◌, ◌+◌, ◌*◌, ◌/◌, ◌<◌, ◌≤◌, All, IfSome, length, option_copied};
ghost use Rattle.dioid.specs.declared.dates.Date.TheVariants.{At};
ghost use Rattle.teg_net.specs.Limits.{greatest_input_date, most_rows};
ghost use Rattle.teg_net.specs.Nets.{IsInput, IsNet};
ghost use Rattle.teg_net.specs.Inputs.{list_of_input};
ghost use Rattle.teg_model.specs.Datings.{implicit_place};
ghost use Rattle.jump_laws.specs.ListedJumps.{gaps_in, pace_by_list};
ghost use Rattle.run_rows.specs.TurnsLeft.{AreInTimeFor, InTimeFor, IsPlaceInTime, IsReleaseInTime, IsWayIn, IsWayInTime};

use crate::last_turn::LastTurn;
use date_rows::{DateCell, NetInputs, Source};
use dioid::Date;
use teg_net::{Again, InputList, Net, Place, Role, TransitionId};

// How many times a gain goes into a slack, at most so many.
fn turns_of_slack(slack: u128, gain: u128, most: u64) -> u64
    requires gain { 1 ≤ gain }
    ensures within { result ≤ most }
    ensures slack { result ≤ slack / gain }
{
    let turns = slack / gain;
    if turns < u128::from(most) {
        turns as u64
    } else {
        most
    }
}

// By how much the first number is greater than the second, if it is no less.
fn excess(greater: i128, lesser: i128) -> Option<u128>
    ensures { IfSome result (λ excess. greater ≡ lesser +ℤ pos excess) }
{
    match greater.checked_sub(lesser) {
        Some(excess) if excess >= 0 => Some(excess as u128),
        _ => None,
    }
}

// For how many turns one number stays at most the other, at most so many.
#[tactic(auto, using(crate::proofs::Ordered::no_turns, crate::proofs::Ordered::ever_in_time, crate::proofs::Ordered::slack_in_time))]
fn turns_of_numbers(token: i128, token_step: i128, date: i128, step: i128, most: u64) -> u64
    ensures within { result ≤ most }
    ensures in_time { InTimeFor result token_step step (At token) (At date) }
{
    match (excess(date, token), excess(step, token_step)) {
        (None, _) => 0,
        (Some(_), Some(_)) => most,
        (Some(slack), None) => match excess(token_step, step) {
            Some(gain) if gain > 0 => turns_of_slack(slack, gain, most),
            _ => 0,
        },
    }
}

// So for dates.
#[tactic(auto, using(crate::proofs::Ordered::no_turns, crate::proofs::Ordered::never_in_time, crate::proofs::Ordered::early_in_time))]
fn turns_of_dates(token: Date, token_step: i128, date: Date, step: i128, most: u64) -> u64
    ensures within { result ≤ most }
    ensures in_time { InTimeFor result token_step step token date }
{
    match (token, date) {
        (Date::At(token), Date::At(date)) => {
            turns_of_numbers(token, token_step, date, step, most)
        }
        (Date::Early, _) | (_, Date::Never) => most,
        _ => 0,
    }
}

// What is read of a place: where it leads from and to, its tokens and its holding time.
#[derive(Clone, Copy, Drop)]
pub(crate) struct Way {
    pub(crate) from: TransitionId,
    pub(crate) to: TransitionId,
    pub(crate) tokens: u64,
    pub(crate) hold: u64,
}

// The way of a place.
pub(crate) fn way_of(place: &Place) -> Way
    ensures from { result.from ≡ place.now.from }
    ensures to { result.to ≡ place.now.to }
    ensures tokens { result.tokens ≡ place.now.tokens }
    ensures hold { result.hold ≡ place.now.hold }
{
    Way {
        from: place.from,
        to: place.to,
        tokens: u64::from(place.tokens),
        hold: place.hold,
    }
}

// So for the place: the token that it takes from so many numbers before, at each number of the last
// turn.
fn turns_of_way(last: &LastTurn<'_>, way: Way, most: u64) -> u64
    requires { IsWayIn last.now.rows.now last.now.run.now.turn way }
    ensures within { result ≤ most }
    ensures in_time { IsWayInTime result last.now.after last.now.rows.now last.now.run.now
        way.from.index
        way.to.index way.tokens way.hold }
{
    let rows = last.rows;
    let run = last.run;
    let count = rows.count();
    let mut turns = most;
    for number in count - run.turn + 1..count + 1 {
        let before = number - way.tokens;
        let token = rows.date(way.from, before).delayed(way.hold);
        let token_step = run.step(way.from, last.after + before);
        let step = run.step(way.to, last.after + number);
        turns = turns_of_dates(token, token_step, rows.date(way.to, number), step, turns);
    }
    turns
}

// So for each place of the net.
fn turns_of_places(last: &LastTurn<'_>, most: u64) -> u64
    ensures within { result ≤ most }
    ensures in_time { All (IsPlaceInTime result last.now.after last.now.rows.now
        last.now.run.now) last.now.of.net.now.places }
{
    let mut turns = most;
    for place in last.of.net.places() {
        turns = turns_of_way(last, way_of(place), turns);
    }
    turns
}

// So for the implicit place of each transition.
fn turns_of_transitions(last: &LastTurn<'_>, most: u64) -> u64
    ensures within { result ≤ most }
    ensures in_time { (t : ℕ) → t < length last.now.of.net.now.transitions
        → IsPlaceInTime result last.now.after last.now.rows.now last.now.run.now (implicit_place
        t) }
{
    let mut turns = most;
    for index in 0..last.of.net.transitions().len() {
        let id = TransitionId {
            index: index as u32,
        };
        let way = Way {
            from: id,
            to: id,
            tokens: 1,
            hold: 0,
        };
        turns = turns_of_way(last, way, turns);
    }
    turns
}

// The list of the input, if it has one.
fn list_of(net: &Net, input: TransitionId) -> Option<&InputList>
    ensures rules { IsNet net.now }
    ensures first { option_copied result ≡ list_of_input net.now input.index }
{
    net.inputs()
        .iter()
        .find(|list| list.transition.index == input.index)
}

// By what a list that goes on does so in a turn.
fn gaps_in(turn: u64, again: Option<Again>) -> u128
    requires few { turn ≤ most_rows }
    requires every { IfSome again (λ again. 1 ≤ again.every) }
    requires gap { IfSome again (λ again. again.gap ≤ greatest_input_date) }
    ensures value { pos result ≡ gaps_in turn again }
    ensures few { result ≤ most_rows * greatest_input_date }
{
    match again {
        None => 0,
        Some(again) => u128::from(turn / u64::from(again.every)) * u128::from(again.gap),
    }
}

// By what the dates of the input's list go on in a turn.
fn pace_of(net: &Net, input: TransitionId, turn: u64) -> u128
    requires few { turn ≤ most_rows }
    ensures value { pos result ≡ pace_by_list turn (list_of_input net.now input.index) }
    ensures few { result ≤ most_rows * greatest_input_date }
{
    match list_of(net, input) {
        None => 0,
        Some(list) => gaps_in(turn, list.again),
    }
}

// The turns for which the releases of an input are in time.
fn turns_of_input(last: &LastTurn<'_>, input: TransitionId, most: u64) -> u64
    requires input { IsInput last.now.of.net.now input.index }
    requires inside { input.index < length last.now.of.net.now.transitions }
    ensures within { result ≤ most }
    ensures in_time { IsReleaseInTime result last.now.after last.now.of.net.now last.now.rows.now
        last.now.run.now input.index }
{
    let rows = last.rows;
    let run = last.run;
    let count = rows.count();
    let pace = pace_of(last.of.net, input, run.turn) as i128;
    let mut turns = most;
    for number in count - run.turn + 1..count + 1 {
        let release = NetInputs.release(last.of.net, input, last.after + number);
        let step = run.step(input, last.after + number);
        turns = turns_of_dates(release, pace, rows.date(input, number), step, turns);
    }
    turns
}

// The turns for which those of the transition are, if it is an input.
fn turns_of_role(last: &LastTurn<'_>, transition: TransitionId, most: u64) -> u64
    requires { transition.index < length last.now.of.net.now.transitions }
    ensures within { result ≤ most }
    ensures in_time { IsInput last.now.of.net.now transition.index
        → IsReleaseInTime result last.now.after last.now.of.net.now last.now.rows.now
        last.now.run.now transition.index }
{
    match last.of.net.transitions()[transition.index as usize].role {
        Role::Input => turns_of_input(last, transition, most),
        Role::Internal => most,
        Role::Output => most,
    }
}

// So for each input of the net.
fn turns_of_inputs(last: &LastTurn<'_>, most: u64) -> u64
    ensures within { result ≤ most }
    ensures in_time { (t : ℕ) → IsInput last.now.of.net.now t
        → IsReleaseInTime result last.now.after last.now.of.net.now last.now.rows.now
        last.now.run.now t }
{
    let mut turns = most;
    for index in 0..last.of.net.transitions().len() {
        let id = TransitionId {
            index: index as u32,
        };
        turns = turns_of_role(last, id, turns);
    }
    turns
}

// For how many turns, at most so many, all tokens and releases are in time.
pub(crate) fn turns_left(last: &LastTurn<'_>, most: u64) -> u64
    ensures within { result ≤ most }
    ensures in_time { AreInTimeFor result last.now.of.net.now last.now.after last.now.rows.now
        last.now.run.now }
{
    let turns = turns_of_places(last, most);
    let turns = turns_of_transitions(last, turns);
    turns_of_inputs(last, turns)
}
