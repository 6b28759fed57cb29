//! Chapters of the page on the library: what a run leaves, and what a change is worth.
ghost use Rattle.std.specs.Prelude.{◌≡◌, ◌<◌, ◌≤◌, ◌^◌, IfOk, length};
ghost use Rattle.teg_due.specs.RowRules.{IsDueOf};

use crate::told::so;
use dioid::Date;
use dispatch::Dispatcher;
use example_nets::{ask_held, due_rows, place_named, transition_named};
use pace_pieces::{Piece, pace_by_hold};
use run_laws::Fired;
use std::alloc::Global;
use std::test::Fail;
use teg_check::LiveNet;
use teg_dates::first_dates;
use teg_due::Due;
use teg_net::{Ratio, TransitionId};
use teg_state::live_net_after;
use token_shares::{Shares, fewest_tokens};
use whatif::{BestCut, Cut, best_of, may_add_tokens, pace_with_tokens};

/// A part comes in every 4 units, and a machine works 3 units on it.
pub const NET: &[u8] = b"transition = [{name = 'in', role = 'input'}, {name = 'work'}]
place = [
  {name = 'belt', from = 'in', to = 'work', hold = 2},
  {name = 'busy', from = 'work', to = 'work', hold = 3, tokens = 1},
]
input = [{transition = 'in', dates = [0], every = 1, gap = 4}]
";

/// A firing of the transition at this date.
pub fn fired(transition: TransitionId, date: u32) -> Fired
    ensures { result.date ≤ 10 ^ 18 }
{
    Fired {
        transition,
        date: u64::from(date),
    }
}

// The shop at 8: two parts came in, the second late.
fn left_at_8(alloc: Global, shop: &LiveNet) -> Result<LiveNet, Fail> {
    let entry = transition_named(shop.net(), "in")?;
    let work = transition_named(shop.net(), "work")?;
    let run = [fired(entry, 0), fired(work, 2), fired(entry, 7)];
    Ok(live_net_after(alloc, shop, &run, 8)?)
}

/// What the question answers of the shop as it is at 8.
pub fn ask_at_8<F>(alloc: Global, ask: F) -> Result<(), Fail>
where
    F: FnOnce(Global, &LiveNet) -> Result<(), Fail> + Drop,
    requires { F.IsAlwaysCallable ask }
{
    let rest = ask_held(alloc, NET, left_at_8)?;
    ask(alloc, &rest)
}

// The first dates from now on.
fn dates_from_now(alloc: Global, rest: &LiveNet) -> Result<[Date; 4], Fail> {
    let entry = transition_named(rest.net(), "in")?;
    let work = transition_named(rest.net(), "work")?;
    let dates = first_dates(alloc, rest.net(), rest.live(), 3)?;
    Ok([
        dates.date(entry, 1),
        dates.date(work, 1),
        dates.date(work, 2),
        dates.date(work, 3),
    ])
}

// That these are they.
fn goes_on(alloc: Global, rest: &LiveNet) -> Result<(), Fail> {
    let wanted = [Date::At(8), Date::At(9), Date::At(12), Date::At(15)];
    so(dates_from_now(alloc, rest)? == wanted, "dates from 8 on")
}

#[test]
fn a_net_goes_on_from_now(rt: HostRuntime) -> Result<(), Fail> {
    ask_at_8(rt.alloc(), goes_on)
}

// Takes down what happened up to 8.
fn take_down(
    alloc: Global,
    shop: &mut Dispatcher,
    entry: TransitionId,
    work: TransitionId,
) -> Result<(), Fail>
    ensures { shop.new.net ≡ shop.old.net }
{
    shop.fire(alloc, entry, 0)?;
    shop.fire(alloc, work, 2)?;
    shop.fire(alloc, entry, 7)?;
    Ok(())
}

// Whether the earliest dates of the first four firings of the transition are these at 8.
fn has_dates_at_8(
    alloc: Global,
    shop: &Dispatcher,
    transition: TransitionId,
    dates: &[Date; 4],
) -> Result<bool, Fail>
    requires { transition.index < length shop.now.net.transitions }
{
    let rows = shop.outlook(alloc, 8, 4)?;
    Ok(
        rows.date(transition, 1) == dates[0]
            && rows.date(transition, 2) == dates[1]
            && rows.date(transition, 3) == dates[2]
            && rows.date(transition, 4) == dates[3],
    )
}

// How many due dates are missed at 8.
fn missed_at_8(alloc: Global, shop: &Dispatcher, due: &Due) -> Result<usize, Fail>
    requires { IsDueOf shop.now.net due.now.rows.items }
{
    let rows = shop.outlook(alloc, 8, 4)?;
    Ok(shop.missed(alloc, &rows, due)?.len())
}

// The shop before anything happened in it.
fn open(alloc: Global, held: &LiveNet) -> Result<Dispatcher, Fail>
    ensures { IfOk result (λ shop. shop.net ≡ held.now) }
{
    Ok(Dispatcher::new(alloc, held.copy(alloc)?)?)
}

// That the dates of work, and how many due dates are missed, are told so at 8.
fn is_told_at_8(
    alloc: Global,
    shop: &mut Dispatcher,
    due: &Due,
    entry: TransitionId,
    work: TransitionId,
) -> Result<(), Fail>
    requires work { work.index < length shop.old.net.transitions }
    requires due { IsDueOf shop.old.net due.now.rows.items }
{
    take_down(alloc, shop, entry, work)?;
    let wanted = [Date::At(2), Date::At(9), Date::At(12), Date::At(15)];
    so(has_dates_at_8(alloc, shop, work, &wanted)?, "dates at 8")?;
    so(missed_at_8(alloc, shop, due)? == 2, "missed at 8")
}

// That the shop that this net is tells so, with these due dates.
fn tells_at_8(alloc: Global, held: &LiveNet, due: &Due) -> Result<(), Fail>
    requires { IsDueOf held.now due.now.rows.items }
{
    let entry = transition_named(held.net(), "in")?;
    let work = transition_named(held.net(), "work")?;
    let mut shop = open(alloc, held)?;
    is_told_at_8(alloc, &mut shop, due, entry, work)
}

// The same with the due dates as their file has them.
fn is_seen(alloc: Global, held: &LiveNet) -> Result<(), Fail> {
    let due = due_rows(
        alloc,
        held.net(),
        b"work,1,2\nwork,2,9\nwork,3,11\nwork,4,14\n",
    )?;
    tells_at_8(alloc, held, &due)
}

#[test]
fn a_late_part_is_seen(rt: HostRuntime) -> Result<(), Fail> {
    ask_held(rt.alloc(), NET, is_seen)
}

// Three steps, each pair of them with a card between.
const CARDS: &[u8] = b"transition = [{name = 'a'}, {name = 'b'}, {name = 'c'}]
place = [
  {name = 'ab', from = 'a', to = 'b', hold = 3},
  {name = 'ba', from = 'b', to = 'a', hold = 2, tokens = 1},
  {name = 'bc', from = 'b', to = 'c', hold = 4},
  {name = 'cb', from = 'c', to = 'b', hold = 2, tokens = 1},
  {name = 'cc', from = 'c', to = 'c', hold = 4, tokens = 1},
]
";

// The better of two cuts by 1.
fn best_cut(alloc: Global, held: &LiveNet) -> Result<BestCut, Fail> {
    let first = place_named(held.net(), "ab")?;
    let second = place_named(held.net(), "bc")?;
    let cuts = [
        Cut {
            place: first,
            less: 1,
        },
        Cut {
            place: second,
            less: 1,
        },
    ];
    Ok(best_of(alloc, held, &cuts)?.ok_or("no cut")?)
}

// The pace with a further card between b and c; none where there may be none.
fn pace_with_card(alloc: Global, held: &LiveNet) -> Result<Option<Ratio>, Fail> {
    let cards = place_named(held.net(), "cb")?;
    if !may_add_tokens(held, cards, 1) {
        return Ok(None);
    }
    Ok(pace_with_tokens(alloc, held, cards, 1)?)
}

// Lays a further card between b and c in a copy, and tells how many there are then.
fn with_card(alloc: Global, held: &LiveNet) -> Result<u32, Fail> {
    let cards = place_named(held.net(), "cb")?;
    if !may_add_tokens(held, cards, 1) {
        return Err(Fail::new("no card may be laid"));
    }
    let mut trial = held.copy(alloc)?;
    trial.add_tokens(cards, 1);
    Ok(trial.net().place(cards).tokens)
}

// That the changes come to what was worked out, and the net stays as it is.
fn is_tried(alloc: Global, held: &LiveNet) -> Result<(), Fail> {
    let best = best_cut(alloc, held)?;
    let pace = Some(Ratio::of(5, 1));
    so(
        best.cut.place.index() == 2 && best.pace == pace,
        "the better cut",
    )?;
    so(pace_with_card(alloc, held)? == pace, "the pace with a card")?;
    so(with_card(alloc, held)? == 2, "a card")?;
    so(with_card(alloc, held)? == 2, "a card again")
}

// The pace as the work on c takes from nothing to 10 units.
fn pace_of_work(alloc: Global, held: &LiveNet) -> Result<Vec<Piece>, Fail> {
    let work = place_named(held.net(), "bc")?;
    let pieces = pace_by_hold(alloc, held, work, 0, 10)?;
    Ok(pieces.ok_or("no circuit")?)
}

// Whether up to 3 a and b hold the net up, at 5, and from 4 on b and c, at 2 more than the work.
fn are_two(pieces: &[Piece]) -> bool {
    let [first, second] = pieces else {
        return false;
    };
    first.to == 3
        && first.line.base == 5
        && first.line.passes == 0
        && second.from == 4
        && second.line.base == 2
        && second.line.passes == 1
}

// That the pieces are those two.
fn has_pieces(alloc: Global, held: &LiveNet) -> Result<(), Fail> {
    so(are_two(&pace_of_work(alloc, held)?), "pieces of the pace")
}

#[test]
fn a_change_is_tried(rt: HostRuntime) -> Result<(), Fail> {
    ask_held(rt.alloc(), CARDS, is_tried)?;
    ask_held(rt.alloc(), CARDS, has_pieces)
}

// How many further cards from b to a and from c to b are enough for this time a token, of at most so
// many in all.
fn cards_for(alloc: Global, held: &LiveNet, time: u32, most: u32) -> Result<Shares, Fail>
    requires { most ≤ 20 }
{
    let first = place_named(held.net(), "ba")?;
    let second = place_named(held.net(), "cb")?;
    let target = Ratio::of(u64::from(time), 1);
    Ok(fewest_tokens(alloc, held, &[first, second], &target, most)?)
}

// Whether these numbers are told to be enough.
fn are_cards(shares: &Shares, numbers: &[u32]) -> bool {
    match shares {
        Shares::Enough { extra } => extra.as_slice() == numbers,
        _ => false,
    }
}

// That a card each is enough for 4, that one is not, and that c alone takes more than 3.
fn shares_are_told(alloc: Global, held: &LiveNet) -> Result<(), Fail> {
    so(
        are_cards(&cards_for(alloc, held, 4, 20)?, &[1, 1]),
        "a card each",
    )?;
    so(
        matches!(cards_for(alloc, held, 4, 1)?, Shares::More),
        "two cards",
    )?;
    let never = cards_for(alloc, held, 3, 20)?;
    so(matches!(never, Shares::Impossible { .. }), "c alone")
}

#[test]
fn cards_are_shared(rt: HostRuntime) -> Result<(), Fail> {
    ask_held(rt.alloc(), CARDS, shares_are_told)
}
