//! Conditions of calls, tested before the calls are made.
use call_conditions::{
    has_few_nodes, has_short_numbers, is_enough, is_ranked, is_rising, may_have_tokens,
};
use call_limits::{MONOMIAL_BOUND, MOST_EXPRESSION_NODES, MOST_FIRINGS, MOST_PLACE_TOKENS};
use dioid::Date;
use example_nets::{LOOP, ask_held, place_named, read};
use std::alloc::Global;
use std::test::Fail;
use teg_calc::Expr;
use teg_check::LiveNet;
use teg_net::{Net, Ratio};

// The ring of `LOOP` in the other direction: `a` is the one that waits for `b` at once.
const BACK: &[u8] = b"transition = [{name = 'a'}, {name = 'b'}]
place = [
  {name = 'ab', from = 'a', to = 'b', hold = 3, tokens = 1},
  {name = 'ba', from = 'b', to = 'a', hold = 2},
]
";

// Whether the place `ba` may have as many tokens as any place, and no more.
fn takes_most_tokens(net: &Net) -> Result<bool, Fail> {
    let back = place_named(net, "ba")?;
    let place = net.place(back);
    Ok(may_have_tokens(place, MOST_PLACE_TOKENS) && !may_have_tokens(place, MOST_PLACE_TOKENS + 1))
}

// Whether so many further tokens of `ba` are enough for a ratio of 5/2.
fn are_enough(alloc: Global, held: &LiveNet, extra: u64) -> Result<bool, Fail> {
    let back = place_named(held.net(), "ba")?;
    let target = Ratio::of(5, 2);
    Ok(is_enough(alloc, held.net(), held.live(), back, &target, extra)?)
}

// Whether the ranks stand for the net that is held, and not for the ring in the other direction.
fn are_ranks_of_one(alloc: Global, held: &LiveNet) -> Result<bool, Fail> {
    let back = read(alloc, BACK)?;
    Ok(is_ranked(held.net(), held.live()) && !is_ranked(&back, held.live()))
}

// Whether all is tested so of the ring.
fn is_tested(alloc: Global, held: &LiveNet) -> Result<bool, Fail> {
    Ok(
        takes_most_tokens(held.net())?
            && are_enough(alloc, held, 1)?
            && !are_enough(alloc, held, 0)?
            && are_ranks_of_one(alloc, held)?,
    )
}

// Values, the step of their last one, and whether the list never falls.
const LISTS: [(Date, Date, i128, bool); 5] = [
    (Date::At(0), Date::At(2), 1, true),
    (Date::At(0), Date::At(2), -1, false),
    (Date::At(2), Date::At(0), 1, false),
    (Date::Early, Date::Never, -1, true),
    (
        Date::At(0),
        Date::At(170_141_183_460_469_231_731_687_303_715_884_105_727),
        1,
        true,
    ),
];

// Whether each row of `LISTS` is told so.
fn are_lists() -> bool {
    for (first, second, step, is_right) in &LISTS {
        if is_rising(&[*first, *second], 1, *step) != *is_right {
            return false;
        }
    }
    true
}

// An expression of so many nodes.
fn stars(alloc: Global, nodes: u32) -> Result<Expr, Fail> {
    let mut expr = Expr::Unit;
    for _star in 1..nodes {
        expr = Expr::Star(Box::new(alloc, expr)?);
    }
    Ok(expr)
}

// Whether an expression of so many nodes has few, and short numbers.
fn is_short_of(alloc: Global, nodes: u32) -> Result<bool, Fail> {
    let expr = stars(alloc, nodes)?;
    Ok(has_few_nodes(&expr) && has_short_numbers(&expr))
}

// Whether a monomial of this shift has short numbers.
fn is_short(shift: u64) -> bool {
    has_short_numbers(&Expr::Mono {
        shift,
        minus: false,
        date: 0,
    })
}

#[test]
fn conditions_are_tested(rt: HostRuntime) -> Result<(), Fail> {
    assert!(rt; ask_held(rt.alloc(), LOOP, is_tested)?);
    assert!(rt; are_lists());
    assert!(rt; is_short_of(rt.alloc(), MOST_EXPRESSION_NODES)?);
    assert!(rt; !is_short_of(rt.alloc(), MOST_EXPRESSION_NODES + 1)?);
    assert!(rt; is_short(MONOMIAL_BOUND - 1) && !is_short(MONOMIAL_BOUND));
    assert!(rt; MOST_FIRINGS == 1 << 40);
    Ok(())
}
