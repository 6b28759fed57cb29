//! Nets that are copied, held, changed and asked again, and the checkers of what answers show.
use crate::told::so;
use dating_certificates::check_rows;
use dioid::Date;
use example_nets::{LOOP, ask_changed, ask_held, ask_net, held, place_named};
use scheduler_loop::Scheduler;
use std::alloc::Global;
use std::test::Fail;
use teg_certificates::{check_enough, is_ranking, shows_deadlock, shows_too_few};
use teg_check::{CheckRefusal, LiveNet};
use teg_net::{Circuit, Net, PlaceId, Ratio};
use teg_sizing::{Sizing, enough_potentials, size};

// An input before a machine.
const LINE: &[u8] = b"transition = [{name = 'in', role = 'input'}, {name = 'work'}]
place = [
  {name = 'belt', from = 'in', to = 'work', hold = 2},
  {name = 'busy', from = 'work', to = 'work', hold = 3, tokens = 1},
]
";

// Gives the place that has the token of the loop so many; it answers the circuit without tokens
// where that is refused.
fn give(alloc: Global, held: &mut LiveNet, tokens: u32) -> Result<Option<Circuit>, Fail> {
    let back = place_named(held.net(), "ba")?;
    if 1_000 < tokens || !held.net().place(back).ready.as_slice().is_empty() {
        return Err(Fail::new("other tokens"));
    }
    match held.set_tokens(alloc, back, tokens) {
        Ok(()) => Ok(None),
        Err(CheckRefusal::TokenFree { circuit }) => Ok(Some(circuit)),
        Err(CheckRefusal::OutOfMemory) => Err(Fail::new("no memory")),
    }
}

// How many tokens that place has.
fn tokens(net: &Net) -> Result<u32, Fail> {
    let back = place_named(net, "ba")?;
    Ok(net.place(back).tokens)
}

// Whether the place of the net that is held takes 2 tokens, and keeps them where 0 are refused.
fn takes_tokens(alloc: Global, held: &mut LiveNet) -> Result<bool, Fail> {
    if give(alloc, held, 2)?.is_some() {
        return Ok(false);
    }
    let circuit = give(alloc, held, 0)?.ok_or("it is not live")?;
    Ok(circuit.places.len() == 2 && tokens(held.net())? == 2)
}

// That a copy of its net stays as it is where tokens are changed.
fn changes_alone(alloc: Global, held: &mut LiveNet, copy: &Net) -> Result<(), Fail> {
    so(takes_tokens(alloc, held)?, "2 tokens")?;
    so(tokens(copy)? == 1, "a token of the copy")
}

// The same of a copy that is made of it.
fn keeps_copy(alloc: Global, held: &mut LiveNet) -> Result<(), Fail> {
    let copy = held.net().copy(alloc)?;
    changes_alone(alloc, held, &copy)
}

// Whether the net has its places where it is held no longer.
fn is_let_go(held: LiveNet) -> bool {
    held.into_net().place_count() == 2
}

// Whether ranks are told to be right, and that nothing shows a deadlock.
fn has_ranks(net: &Net) -> bool {
    is_ranking(net, &[0, 1])
        && !is_ranking(net, &[1, 0])
        && !shows_deadlock(net, &[PlaceId::new(0), PlaceId::new(1)])
}

// That they are, and these rows and no others too.
fn are_checked(alloc: Global, net: &Net) -> Result<(), Fail> {
    let rows = [Date::At(0), Date::At(3), Date::At(5), Date::At(8)];
    let others = [Date::At(0), Date::At(3), Date::At(5), Date::At(9)];
    so(has_ranks(net), "ranks")?;
    so(check_rows(alloc, net, &rows)?, "rows")?;
    so(!check_rows(alloc, net, &others)?, "other rows")
}

// Whether what was found shows that 2 more are enough, and one too few.
fn is_shown(net: &Net, circuit: &Circuit, potentials: &[i128]) -> bool {
    let (back, target) = (PlaceId::new(1), Ratio::of(2, 1));
    shows_too_few(net, &target, back, 1, &circuit.places)
        && !shows_too_few(net, &target, back, 2, &circuit.places)
        && check_enough(net, &target, back, 2, potentials)
        && !check_enough(net, &target, back, 1, potentials)
}

// That 2 more are told to be enough for a cycle time of 2, and shown to be: by a circuit that one
// less is too few for, and by potentials.
fn is_sized(alloc: Global, held: &LiveNet) -> Result<(), Fail> {
    let (net, target) = (held.net(), Ratio::of(2, 1));
    let place = place_named(net, "ba")?;
    match size(alloc, net, held.live(), place, &target)? {
        Sizing::Enough {
            extra,
            circuit: Some(circuit),
        } => {
            let potentials = enough_potentials(alloc, net, place, &target, extra)?;
            so(extra == 2 && is_shown(net, &circuit, &potentials), "2 more")
        }
        _ => Err(Fail::new("no circuit")),
    }
}

#[test]
fn a_net_is_changed_and_answers_are_checked(rt: HostRuntime) -> Result<(), Fail> {
    let alloc = rt.alloc();
    so(is_let_go(held(alloc, LOOP)?), "places of the net")?;
    ask_changed(alloc, LOOP, keeps_copy)?;
    ask_net(alloc, LOOP, are_checked)?;
    ask_held(alloc, LOOP, is_sized)
}

// Whether the pace is so much.
fn has_pace(alloc: Global, scheduler: &Scheduler, time: u64) -> Result<bool, Fail> {
    Ok(match scheduler.pace(alloc)? {
        Some(pace) => pace.ratio == Ratio::of(time, 1),
        None => false,
    })
}

// Whether the place of this name takes this holding time.
fn takes(scheduler: &mut Scheduler, place: &str, hold: u64) -> bool {
    scheduler.set_hold(place, hold).is_ok()
}

// How many firings a plan for work that is due at 12 has.
fn planned(alloc: Global, scheduler: &Scheduler) -> Result<u32, Fail> {
    Ok(scheduler.latest(alloc, b"work,2,12\n")?.numbers())
}

// That the service takes another holding time of the machine, and of no other.
fn is_asked_again(alloc: Global, scheduler: &mut Scheduler) -> Result<(), Fail> {
    so(has_pace(alloc, scheduler, 3)?, "a pace of 3")?;
    so(takes(scheduler, "busy", 5), "a hold of 5")?;
    so(has_pace(alloc, scheduler, 5)?, "a pace of 5")?;
    so(!takes(scheduler, "none", 5), "no such place")?;
    so(!takes(scheduler, "busy", 1_000_000_001), "too long a hold")?;
    so(planned(alloc, scheduler)? == 2, "a plan")
}

#[test]
fn a_service_is_asked_again(rt: HostRuntime) -> Result<(), Fail> {
    is_asked_again(rt.alloc(), &mut Scheduler::new(rt.alloc(), LINE)?)
}
